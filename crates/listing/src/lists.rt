// What programs `cascade_list` and `list_jobs` print.
use crate::cascade::{Cascade, cascade_in};
use printing::{Ending, Output, behind, front, zeros};
use std::io;
use std::io::Write;
use stored_spec::{MOST_RECORD_BYTES, MOST_ROW_BYTES};

// "height width rails" of each height, the greatest first.
fn list_heights(out: &mut Output, widths: &[u16]) -> io::Result<()> {
    for (h, &width) in widths.iter().enumerate().rev() {
        writeln!(out, "{h} {width} {}", cutting::rails(width))?;
    }
    Ok(())
}

// A cell's top height, bottom height, rows.
fn list_cell(out: &mut Output, k: usize, records: &[u8], rows: &[[u8; 2]]) -> io::Result<()> {
    let place = stored::cell_place(records, k);
    write!(out, "cell {} {}", place.top, place.bottom)?;
    for &row in behind(front(rows, place.end), place.at) {
        write!(out, " {}", u16::from_le_bytes(row))?;
    }
    writeln!(out)
}

// The heights and the cells of a job of as many variables as there are records, four bytes each.
fn list_cascade(out: &mut Output, cascade: Cascade<'_>) -> io::Result<()> {
    let widths = cascade.totals.widths;
    list_heights(out, front(&widths, cascade.records.len() / 4))?;
    let (rows, _) = cascade.rows.as_chunks::<2>();
    for k in 0..usize::from(cascade.totals.cells) {
        list_cell(out, k, cascade.records, rows)?;
    }
    Ok(())
}

// The listing of the job and sheet of the input, or "refused N".
pub fn list(out: &mut Output, input: &[u8]) -> io::Result<Ending> {
    let mut records: [u8; MOST_RECORD_BYTES] = zeros();
    let mut rows: [u8; MOST_ROW_BYTES] = zeros();
    match cascade_in(input, &mut records, &mut rows) {
        Ok(cascade) => {
            list_cascade(out, cascade)?;
            Ok(Ending::Done)
        }
        Err(refusal) => out.refuse(refusal),
    }
}

// Prints the listing of standard input. Of more than 4,096 bytes the first 4,096 decide the answer.
pub fn list_input(rt: HostRuntime) {
    let mut memory: [u8; 4096] = zeros();
    let input = printing::read_full(rt, &mut memory);
    let mut out = Output::new(rt);
    let said = list(&mut out, input);
    out.end(said);
}

// Lists each job of the bytes, one after another, which is headed by its number of bytes (two, the low byte first).
fn list_each(out: &mut Output, bytes: &[u8]) -> io::Result<Ending> {
    let mut ending = Ending::Done;
    let mut rest = bytes;
    while let Some((&head, after)) = rest.split_first_chunk::<2>() {
        let size = usize::from(u16::from_le_bytes(head));
        let (job, more) = after.split_at(size.min(after.len()));
        ending = ending.max(list(out, job)?);
        rest = more;
    }
    Ok(ending)
}

// The same of the first 65,536 bytes of standard input.
pub fn list_jobs(rt: HostRuntime) {
    let mut memory: [u8; 65536] = zeros();
    let jobs = printing::read_full(rt, &mut memory);
    let mut out = Output::new(rt);
    let said = list_each(&mut out, jobs);
    out.end(said);
}
