// The drawing: what program `cascade_draw` prints of a job, its merged diagram and its cascade as a graph for Graphviz (DOT). Every number in it comes
// from the compiler's answer, nodes, records, rows and widths.

#![tactic(auto)]

mod cells;
mod diagram;
mod names;

ghost use Rattle.std.specs.Prelude.{◌≡◌, length};

use listing::job_in;
use listing::nodes::compile_nodes;
use printing::{Ending, Output, front, zeros};
use reduction_spec::{NODE_WORDS, Widths};
use std::io;
use std::io::Write;
use stored_spec::{MOST_RECORD_BYTES, MOST_ROW_BYTES};

// What is drawn: the words of the nodes, three each, and how many nodes there are, the records, four bytes a variable, the rows, two bytes each, the width
// at each height, and how many cells there are.
#[derive(Clone, Copy)]
struct Picture<'a> {
    words: &'a [u16],
    nodes: usize,
    records: &'a [u8],
    rows: &'a [[u8; 2]],
    widths: &'a Widths,
    cells: usize,
}

fn node_memory() -> [u16; NODE_WORDS]
    ensures { 30720 ≡ length result }
{
    [0u16; NODE_WORDS]
}

// What holds for the whole picture, and how to read it.
fn draw_head(out: &mut Output) -> io::Result<()> {
    writeln!(out, "digraph cascade {{")?;
    write!(
        out,
        "  graph [splines=line, outputorder=edgesfirst, nodesep=0.3, ranksep=0.45, "
    )?;
    writeln!(out, "fontname=\"Helvetica\", fontsize=11]")?;
    write!(out, "  label=\"Dashed edge: the variable is 0, solid: 1. ")?;
    write!(
        out,
        "Edges to constant 0 are left out. #c at a cut: column c.\\n"
    )?;
    writeln!(
        out,
        "What a cell reads and gives is written highest bit first.\""
    )?;
    write!(
        out,
        "  node [shape=ellipse, style=filled, fillcolor=white, width=0.5, height=0.4, "
    )?;
    writeln!(
        out,
        "margin=\"0.02,0.02\", fontname=\"Helvetica\", fontsize=12]"
    )?;
    writeln!(out, "  edge [arrowhead=none]")
}

impl Picture<'_> {
    fn draw(&self, out: &mut Output) -> io::Result<Ending> {
        draw_head(out)?;
        self.draw_heights(out)?;
        self.draw_edges(out)?;
        self.draw_cells(out)?;
        writeln!(out, "}}")?;
        Ok(Ending::Done)
    }
}

// The picture of the job and sheet of the input, or "refused N".
pub fn draw_to(out: &mut Output, input: &[u8]) -> io::Result<Ending> {
    let mut words = node_memory();
    let mut records: [u8; MOST_RECORD_BYTES] = zeros();
    let mut rows: [u8; MOST_ROW_BYTES] = zeros();
    let compiled = match compile_nodes(input, &mut words, &mut records, &mut rows) {
        Ok(compiled) => compiled,
        Err(refusal) => return out.refuse(refusal),
    };
    let (job, _) = job_in(input);
    let (rows, _) = rows.as_chunks::<2>();
    let widths = compiled.widths;
    let picture = Picture {
        words: &words,
        nodes: usize::from(compiled.nodes),
        records: front(&records, 4 * (job.n + job.m)),
        rows,
        widths: &widths,
        cells: usize::from(compiled.cells),
    };
    picture.draw(out)
}

// Prints it; where the output can't be written, standard error says so.
pub fn draw(rt: HostRuntime, input: &[u8]) {
    let mut out = Output::new(rt);
    let said = draw_to(&mut out, input);
    out.end(said);
}

// The same of standard input. Of more than 4,096 bytes the first 4,096 decide the answer.
pub fn draw_input(rt: HostRuntime) {
    let mut memory: [u8; 4096] = zeros();
    draw(rt, printing::read_full(rt, &mut memory));
}
