// The rows of a cell by walks over the diagram: one walk a node at the upper cut, which splits at each input.
ghost use Rattle.std.specs.Prelude.{◌≡◌, cond, ℕ, suc, ◌≤◌, ◌<◌, ◌+◌, ◌-◌, ◌*◌, ◌%◌, ◌^◌, eqb, leb, length, get_or};
ghost use Rattle.laws.specs.Lists.{puts_at};
ghost use Rattle.laws.specs.Bits.{has};
ghost use Rattle.sheet_spec.specs.Job.{is_input};
ghost use Rattle.cutting.specs.RowWalks.{row_from};
ghost use Rattle.cutting.specs.Spans.{block_row, column_row, span_row};

use crate::diagram::Diagram;
use walks::nodes::{high_of, low_of};

// The part of the diagram that a cell is made of, from the cut top down to the cut bottom: upper is the node of column 0 at top, where width
// columns are, lower that at bottom, where so many rails are; count inputs stand between.
#[derive(Clone, Copy)]
pub struct Span<'a> {
    pub diagram: Diagram<'a>,
    pub top: u8,
    pub bottom: u8,
    pub upper: u16,
    pub width: usize,
    pub lower: u16,
    pub rails: u8,
    pub count: u8,
}

// Where a shift alone would be cut to its width, this says that it is the power.
fn power(n: u8) -> usize
    requires { n ≤ 12 }
    ensures { (result ≡ 2 ^ n) × (result ≤ 4096) }
{
    1 << n
}

// The row of a walk that met the outputs o and reached a node.
fn row_from(span: &Span<'_>, node: u16, o: u32) -> u16
    requires { (span.now.rails ≤ 16) × (o * 2 ^ span.now.rails + (node - span.now.lower) < 65536) }
    ensures { result ≡ o * 2 ^ span.now.rails + (node - span.now.lower) }
{
    ((o << span.rails) + u32::from(node.saturating_sub(span.lower))) as u16
}

// The variable k + 1 heights above the lower cut is an input.
fn is_input_at(span: &Span<'_>, k: u8) -> bool
    ensures { result ≡ is_input (get_or span.now.diagram.order.now (length span.now.diagram.order.now - suc (span.now.bottom + k)) 0) }
{
    walks::nodes::is_input_at(
        span.diagram.order,
        usize::from(span.bottom) + usize::from(k),
    )
}

// The child that the lowest bit of x chooses.
fn chosen(x: usize, low: u16, high: u16) -> u16
    ensures { result ≡ cond (has x 0) high low }
{
    if x % 2 == 1 {
        return high;
    }
    low
}

// The child that an output leads to; the outputs met with it.
fn allowed(low: u16, high: u16) -> u16
    ensures { result ≡ cond (eqb low 0) high low }
{
    if low == 0 {
        return high;
    }
    low
}

fn with_output(o: u32, low: u16) -> u32
    requires { o < 1048576 }
    ensures { result ≡ cond (eqb low 0) (o * 2 + 1) (o * 2) }
{
    o * 2 + u32::from(low == 0)
}

// The same row at the size places from at on.
fn write_same(row: u16, at: usize, size: usize, rows: &mut [u16])
    requires { at + size ≤ length rows.old }
    ensures { rows.new ≡ puts_at at size (λ i. row) rows.old }
{
    rows[at..at + size].fill(row);
}

// The row of the node k heights above the lower cut, where o are the outputs met above it. No input is left to be read: one that is met still
// has the lowest bit of x.
fn last_row(span: &Span<'_>, k: u8, node: u16, o: u32, x: usize) -> u16
    requires { (k ≤ 20) × (o < 2 ^ (20 - k)) × (span.now.rails ≤ 16) × (block_row span.now k node 0 o x < 65536) }
    ensures { result ≡ block_row span.now k node 0 o x }
{
    if (k == 0) | (node < 2) {
        return row_from(span, node, o);
    }
    let low = low_of(span.diagram.words, node);
    let high = high_of(span.diagram.words, node);
    let below = k - 1;
    if is_input_at(span, below) {
        let next = chosen(x, low, high);
        return last_row(span, below, next, o, x);
    }
    let next = allowed(low, high);
    let met = with_output(o, low);
    last_row(span, below, next, met, x)
}

// The 2^count rows, from x on, of a node k heights above the lower cut. o are the outputs met above it, x the values of the inputs met there
// with zeros for the count inputs still to be read. Each input read splits the block in two.
fn fill_block(span: &Span<'_>, k: u8, node: u16, o: u32, count: u8, x: usize, rows: &mut [u16])
    requires { (k ≤ 20) × (o < 2 ^ (20 - k)) × (span.now.rails ≤ 16) × (count ≤ 12) × (x % 2 ^ count ≡ 0) × (x + 2 ^ count ≤ length rows.old)
        × ((i : ℕ) → i < 2 ^ count → block_row span.now k node count o (x + i) < 65536) }
    ensures { rows.new ≡ puts_at x (2 ^ count) (λ i. block_row span.now k node count o (x + i)) rows.old }
{
    if count == 0 {
        rows[x] = last_row(span, k, node, o, x);
        return;
    }
    if (k == 0) | (node < 2) {
        write_same(row_from(span, node, o), x, power(count), rows);
        return;
    }
    let low = low_of(span.diagram.words, node);
    let high = high_of(span.diagram.words, node);
    let below = k - 1;
    if is_input_at(span, below) {
        let half = power(count - 1);
        fill_block(span, below, low, o, count - 1, x, rows);
        fill_block(span, below, high, o, count - 1, x + half, rows);
        return;
    }
    let next = allowed(low, high);
    let met = with_output(o, low);
    fill_block(span, below, next, met, count, x, rows);
}

// The heights of a walk from top down to bottom; none from above 20.
fn heights(top: u8, bottom: u8) -> u8
    ensures { (result ≡ cond (leb top 20) (top - bottom) 0) × (result ≤ 20) }
{
    if top <= 20 {
        return top.saturating_sub(bottom);
    }
    0
}

// The size rows of one node at the upper cut.
fn write_column(span: &Span<'_>, node: u16, at: usize, size: usize, rows: &mut [u16])
    requires { (span.now.rails ≤ 16) × (size ≡ 2 ^ span.now.count) × (span.now.count ≤ 12) × (at + size ≤ length rows.old)
        × ((x : ℕ) → x < size → column_row span.now node x < 65536) }
    ensures { rows.new ≡ puts_at at size (column_row span.now node) rows.old }
{
    fill_block(
        span,
        heights(span.top, span.bottom),
        node,
        0,
        span.count,
        0,
        &mut rows[at..],
    );
}

// The rows of the columns at the upper cut, size rows each.
fn write_columns(span: &Span<'_>, at: usize, size: usize, rows: &mut [u16])
    requires { (span.now.rails ≤ 16) × (size ≡ 2 ^ span.now.count) × (size ≤ 4096) × (span.now.upper + span.now.width ≤ 65536)
        × (at + span.now.width * size ≤ length rows.old)
        × ((i : ℕ) → i < span.now.width * size → span_row span.now i < 65536) }
    ensures { rows.new ≡ puts_at at (span.now.width * size) (span_row span.now) rows.old }
{
    for c in 0..span.width {
        let node = (usize::from(span.upper) + c) as u16;
        write_column(span, node, at + c * size, size, rows);
    }
}

// The size rows of the cell, written from at on. Rows of unused rail words are 0.
pub fn write_rows(span: &Span<'_>, at: usize, size: usize, rows: &mut [u16])
    requires { (span.now.rails ≤ 16) × (span.now.count ≤ 12) × (span.now.upper + span.now.width ≤ 65536)
        × (span.now.width * 2 ^ span.now.count ≤ size) × (at + size ≤ length rows.old)
        × ((i : ℕ) → i < size → span_row span.now i < 65536) }
    ensures { rows.new ≡ puts_at at size (span_row span.now) rows.old }
{
    let block = power(span.count);
    let used = span.width * block;
    write_columns(span, at, block, rows);
    write_same(0, at + used, size - used, rows);
}
