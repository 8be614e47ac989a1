// The merged diagram: a rank of nodes for each height, and their edges. The first node is number 2.
ghost use Rattle.std.specs.Prelude.{◌≡◌, ◌*◌, ◌<◌, ◌≤◌, get_or};
ghost use Rattle.node_table.specs.Nodes.{node_in};

use crate::Picture;
use crate::names::Name;
use numbers::byte_at;
use printing::Output;
use reduction_spec::{MOST_NODES, Node};
use sheet_spec::MOST_VARIABLES;
use std::io;
use std::io::Write;

// Word i; past the end 0.
fn word_at(words: &[u16], i: usize) -> u16
    ensures { result ≡ get_or words.now i 0 }
{
    words.get(i).copied().unwrap_or(0)
}

// Node i of the words, three a node.
fn node_at(words: &[u16], i: usize) -> Node
    requires { i < 10240 }
    ensures { result ≡ node_in words.now i }
{
    Node {
        height: word_at(words, i * 3),
        low: word_at(words, i * 3 + 1),
        high: word_at(words, i * 3 + 2),
    }
}

// The variable d heights below the top.
pub fn variable_at(records: &[u8], d: usize) -> u8
    requires { d < 20 }
    ensures { result ≡ get_or records.now (d * 4) 0 }
{
    byte_at(records, d * 4)
}

// A node, and its column where a cut lies directly above: there columns stand from left to right.
fn draw_node(out: &mut Output, number: usize, name: Name, column: Option<usize>) -> io::Result<()>
    requires { 1 ≤ number }
{
    let Some(column) = column else {
        return writeln!(out, "    n{number} [label=\"{name}\"]");
    };
    writeln!(out, "    n{number} [label=\"{name} #{column}\"]")?;
    if 0 < column {
        writeln!(out, "    n{} -> n{number} [style=invis]", number - 1)?;
    }
    Ok(())
}

impl Picture<'_> {
    // The nodes at a height, in the order of their columns.
    fn draw_nodes(&self, out: &mut Output, h: usize, variable: u8, cut: bool) -> io::Result<()> {
        let mut column = 0;
        for i in 0..self.nodes.min(MOST_NODES) {
            if usize::from(node_at(self.words, i).height) == h {
                draw_node(out, i + 2, Name(variable), cut.then_some(column))?;
                column += 1;
            }
        }
        Ok(())
    }

    // The rank of a height, with the height and its variable in the left margin. The margin of the next height is kept straight below; where a cut lies
    // between them, the cut's own line does that.
    fn draw_height(
        &self,
        out: &mut Output,
        h: usize,
        variable: u8,
        above: bool,
        below: bool,
    ) -> io::Result<()>
        requires { 1 ≤ h }
    {
        writeln!(out, "  {{\n    rank=same")?;
        let name = Name(variable);
        writeln!(
            out,
            "    h{h} [shape=plaintext, fontcolor=gray40, label=\"height {h}, {name}\"]"
        )?;
        self.draw_nodes(out, h, variable, above)?;
        writeln!(out, "  }}")?;
        if !below {
            writeln!(out, "  h{h} -> h{} [style=invis, weight=1000]", h - 1)?;
        }
        Ok(())
    }

    // The ranks of all heights, topmost first, and that of constant 1.
    pub fn draw_heights(&self, out: &mut Output) -> io::Result<()> {
        let t = self.records.len() / 4;
        let mut above = false;
        for d in 0..t.min(MOST_VARIABLES) {
            let below = byte_at(self.records, d * 4 + 1) == 1;
            self.draw_height(out, t - d, variable_at(self.records, d), above, below)?;
            above = below;
        }
        writeln!(out, "  {{\n    rank=same")?;
        writeln!(
            out,
            "    h0 [shape=plaintext, fontcolor=gray40, label=\"height 0\"]"
        )?;
        writeln!(out, "    n1 [shape=box, label=\"1\"]\n  }}")
    }

    // The edges of all nodes: that for 0 dashed, that for 1 solid; none to constant 0.
    pub fn draw_edges(&self, out: &mut Output) -> io::Result<()> {
        for i in 0..self.nodes.min(MOST_NODES) {
            let Node { low, high, .. } = node_at(self.words, i);
            if low != 0 {
                writeln!(out, "  n{} -> n{low} [style=dashed]", i + 2)?;
            }
            if high != 0 {
                writeln!(out, "  n{} -> n{high}", i + 2)?;
            }
        }
        Ok(())
    }

    // The names of the nodes at a height, a space before each.
    pub fn draw_numbers(&self, out: &mut Output, h: usize) -> io::Result<()> {
        for i in 0..self.nodes.min(MOST_NODES) {
            if usize::from(node_at(self.words, i).height) == h {
                write!(out, " n{}", i + 2)?;
            }
        }
        Ok(())
    }
}
