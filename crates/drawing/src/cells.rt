// The cascade beside the diagram: a box for each cell, and the cut below it as a line across both.
ghost use Rattle.std.specs.Prelude.{◌≤◌, ◌<◌};

use crate::Picture;
use crate::diagram::variable_at;
use crate::names::{Bundle, Name, Rails};
use printing::{Output, behind, front};
use sheet_spec::MOST_VARIABLES;
use std::io::Write;
use std::{fmt, io};
use stored::CellPlace;

// Cells of more rows are drawn without them.
const SHOWN_ROWS: usize = 16;

// The inputs, or the outputs, of the records, a space before each.
#[derive(Clone, Copy)]
struct Names<'a> {
    records: &'a [u8],
    inputs: bool,
}

impl fmt::Display for Names<'_> {
    fn fmt<W: fmt::Write>(&self, f: &mut fmt::Formatter<W>) -> fmt::Result {
        let inputs = self.inputs;
        for d in 0..(self.records.len() / 4).min(MOST_VARIABLES) {
            let variable = variable_at(self.records, d);
            if (variable < 128) == inputs {
                write!(f, " {}", Name(variable))?;
            }
        }
        Ok(())
    }
}

// The number of the rows, and where they are few the rows in lines of eight, each headed by which it shows.
#[derive(Clone, Copy)]
struct Rows<'a>(&'a [[u8; 2]]);

impl fmt::Display for Rows<'_> {
    fn fmt<W: fmt::Write>(&self, f: &mut fmt::Formatter<W>) -> fmt::Result {
        let rows = self.0;
        write!(f, "\\n{} rows", rows.len())?;
        if SHOWN_ROWS < rows.len() {
            return Ok(());
        }
        for (j, &row) in rows.iter().enumerate() {
            if j % 8 == 0 {
                write!(f, "\\n{j} to {}:", (j + 7).min(rows.len() - 1))?;
            }
            write!(f, " {}", u16::from_le_bytes(row))?;
        }
        Ok(())
    }
}

impl Picture<'_> {
    // What the cell reads, in the order of a row's number: rails first. What it gives, in the order of a row's value: rails last.
    fn draw_label(&self, out: &mut Output, k: usize, place: CellPlace) -> io::Result<()> {
        let rails = stored::cell_rails(self.records, k);
        let t = self.records.len() / 4;
        let records = behind(
            front(self.records, 4 * t.saturating_sub(place.bottom)),
            4 * t.saturating_sub(place.top),
        );
        let (upper, inputs) = (
            Bundle(rails.upper),
            Names {
                records,
                inputs: true,
            },
        );
        let (outputs, lower) = (
            Names {
                records,
                inputs: false,
            },
            Bundle(rails.lower),
        );
        let rows = Rows(behind(front(self.rows, place.end), place.at));
        write!(
            out,
            "cell {} {}\\nin:{upper}{inputs}\\nout:{outputs}{lower}{rows}",
            place.top, place.bottom
        )
    }

    // The box of cell k, named by the heights of its cuts as the listing does. It is kept to the right of the nodes at the height in its middle, and the
    // margin to their left.
    fn draw_cell(&self, out: &mut Output, k: usize, place: CellPlace) -> io::Result<()> {
        let (top, bottom) = (place.top, place.bottom);
        let middle = top - top.min(top.saturating_sub(bottom).saturating_sub(1) / 2);
        write!(out, "  {{\n    rank=same\n    h{middle} -> {{")?;
        self.draw_numbers(out, middle)?;
        writeln!(out, " }} -> cell{top} [style=invis]")?;
        write!(
            out,
            "    cell{top} [shape=box, margin=\"0.1,0.05\", fillcolor=lightyellow, label=\""
        )?;
        self.draw_label(out, k, place)?;
        writeln!(out, "\"]\n  }}")
    }

    // A cut: its height, width and rails at the left end, and at the right end the rails that cross it there; none at height 0.
    fn draw_ends(&self, out: &mut Output, h: usize, width: u16) -> io::Result<()> {
        let rails = cutting::rails(width);
        writeln!(out, "  {{\n    rank=same")?;
        write!(
            out,
            "    c{h} [shape=plaintext, margin=\"0.1,0\", fontcolor=firebrick, "
        )?;
        writeln!(out, "label=\"height {h}: width {width}, rails {rails}\"]")?;
        if h == 0 {
            return writeln!(
                out,
                "    r0 [shape=point, width=0.01, height=0.01, color=firebrick]"
            );
        }
        writeln!(
            out,
            "    r{h} [shape=plaintext, label=\"{}\"]",
            Rails(rails)
        )
    }

    // The cut below a cell: the line between both ends, between the margins of two heights, and the arrow from the cell through the cut to the next cell;
    // from the last cell none is seen.
    fn draw_cut(&self, out: &mut Output, top: usize, h: usize) -> io::Result<()>
        requires { h < 20 }
    {
        self.draw_ends(out, h, self.widths[h])?;
        writeln!(
            out,
            "    c{h} -> r{h} [color=firebrick, penwidth=1.5]\n  }}"
        )?;
        writeln!(
            out,
            "  h{} -> c{h} -> h{h} [style=invis, weight=1000]",
            h + 1
        )?;
        if h == 0 {
            return writeln!(out, "  cell{top} -> r0 [style=invis, weight=100]");
        }
        writeln!(out, "  cell{top} -> r{h} [weight=100]")?;
        writeln!(out, "  r{h} -> cell{h} [arrowhead=normal, weight=100]")
    }

    // Each cell, topmost first, and the cut below it.
    pub fn draw_cells(&self, out: &mut Output) -> io::Result<()> {
        for k in 0..self.cells {
            let place = stored::cell_place(self.records, k);
            self.draw_cell(out, k, place)?;
            self.draw_cut(out, place.top, place.bottom.min(MOST_VARIABLES - 1))?;
        }
        Ok(())
    }
}
