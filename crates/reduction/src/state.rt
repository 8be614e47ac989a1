// What the pass holds at a height.

// Packed columns, one after another: the words that mark where they hold 0, and where they hold 1.
#[derive(Drop)]
pub struct Planes {
    pub zero: [u64; 1024],
    pub one: [u64; 1024],
}

// The step to a height: whether an input stands right above it, the inputs and the outputs below, the words of a column there, the columns
// above and the nodes above those.
#[derive(Clone, Copy)]
pub struct Height {
    pub input: bool,
    pub a: usize,
    pub b: usize,
    pub size: usize,
    pub w: usize,
    pub at: usize,
}
