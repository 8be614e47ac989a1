// Columns, cover, merging, the diagram and walks over it: definitions and their laws.

#![tactic(auto)]

ghost use Rattle.std.specs.Prelude.{◌≡◌};
ghost use Rattle.reduction_spec.specs.Given.{reduction_given};

use refusals::Refusal;
use sheet_spec::MOST_VARIABLES;

// The limits of the layer: columns at a height, nodes of a diagram, words of its node table, and a flag for each pair of columns.
pub const MOST_COLUMNS: usize = 512;

pub const MOST_NODES: usize = MOST_VARIABLES * MOST_COLUMNS;

pub const NODE_WORDS: usize = MOST_NODES * 3;

pub const LINKS: usize = MOST_COLUMNS * MOST_COLUMNS;

pub type NodeWords = [u16; NODE_WORDS];

pub type Widths = [u16; MOST_VARIABLES];

pub type Links = [u8; LINKS];

// A node of the diagram: its height, its child for 0 and its child for 1. Child 0 is constant 0, child 1 constant 1; node 2 stands first.
#[derive(Clone, Copy)]
pub struct Node {
    pub height: u16,
    pub low: u16,
    pub high: u16,
}

// The answer to a job and its sheet: a refusal, 1 to 7, or 0 and the number of nodes.
#[repr(C)]
#[derive(Clone, Copy)]
pub struct Reduction {
    pub refusal: u8,
    pub nodes: u16,
}

impl From<Result<u16, Refusal>> for Reduction {
    ghost from_gives = { λ made r. r ≡ reduction_given made };

    fn from(made: Result<u16, Refusal>) -> Reduction {
        match made {
            Ok(nodes) => Reduction { refusal: 0, nodes },
            Err(refusal) => Reduction {
                refusal: u8::from(refusal),
                nodes: 0,
            },
        }
    }
}

// The end of a walk from one cut to the next: the node reached and the outputs met, topmost most significant.
#[repr(C)]
#[derive(Clone, Copy)]
pub struct Reached {
    pub node: u16,
    pub outputs: u32,
}
