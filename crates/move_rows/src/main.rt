// Prints a list of bank calls with the rows of its blocks moved to two bytes each or back to one. Standard input is a line, widen or narrow, and then the
// list as docs/REPLAY.md says it.

#![tactic(auto)]

use printing::{Ending, Hex, MOST_TEXT, Output, Unread, front, zeros};
use refusals::Refusal;
use std::io;
use std::io::Write;
use stored_spec::{MOST_RECORD_BYTES, MOST_ROW_BYTES};

// The longest list with the line before it, and one byte more, by which a longer list shows.
const MOST_INPUT: usize = MOST_TEXT + 8;

// Which way rows are moved: to two bytes each, or to one.
#[derive(Clone, Copy)]
enum Way {
    Widen,
    Narrow,
}

impl Way {
    // The line that says it.
    fn said(line: &[u8]) -> Option<Way> {
        match line {
            b"widen" => Some(Way::Widen),
            b"narrow" => Some(Way::Narrow),
            _ => None,
        }
    }

    // The bytes that rows of so many take after the move.
    fn moved(self, size: usize) -> usize {
        match self {
            Way::Widen => size.min(MOST_ROW_BYTES) * 2,
            Way::Narrow => size / 2,
        }
    }

    // The most row memory that can be moved.
    fn most_memory(self) -> usize {
        match self {
            Way::Widen => MOST_ROW_BYTES / 2,
            Way::Narrow => MOST_ROW_BYTES,
        }
    }

    fn move_block(
        self,
        stored: &[u8],
        bytes: &[u8],
        records: &mut [u8],
        rows: &mut [u8],
    ) -> Result<(), Refusal> {
        match self {
            Way::Widen => row_forms::widen(stored, bytes, records, rows),
            Way::Narrow => row_forms::narrow(stored, bytes, records, rows),
        }
    }
}

// The line of a block moved, or why it can't be. The times are what stands behind its rows: a period and a phase, each with the space before it, or
// nothing.
fn print_block(
    out: &mut Output,
    way: Way,
    stored: &[u8],
    bytes: &[u8],
    times: &[u8],
) -> io::Result<Ending> {
    let mut records: [u8; MOST_RECORD_BYTES] = zeros();
    let mut rows: [u8; MOST_ROW_BYTES] = zeros();
    if let Err(refusal) = way.move_block(stored, bytes, &mut records, &mut rows) {
        return out.refuse(refusal);
    }
    let records = Hex(front(&records, stored.len()));
    let rows = Hex(front(&rows, way.moved(bytes.len())));
    write!(out, "admit {records} {rows}")?;
    out.write_all(times)?;
    writeln!(out)?;
    Ok(Ending::Done)
}

// The times of a tidied line of an admission, from its third space on. The older call has none, and its line, which may be long, is not looked through.
fn times<'a>(line: &'a [u8], call: &[u8]) -> &'a [u8] {
    if call.first() == Some(&1) {
        return &[];
    }
    let mut spaces = line.iter().enumerate().filter(|(_, byte)| **byte == b' ');
    let third = spaces.nth(2);
    third.and_then(|(i, _)| line.get(i..)).unwrap_or(&[])
}

// The bytes of an admission: how many are records, and records and rows. An admission with a period and a phase has them before these.
fn admitted(call: &[u8]) -> Option<(usize, &[u8])> {
    let (low, high, bytes) = match call {
        [1, low, high, _, _, _, bytes @ ..] => (low, high, bytes),
        [4, low, high, _, _, _, _, _, bytes @ ..] => (low, high, bytes),
        _ => return None,
    };
    Some((usize::from(u16::from_le_bytes([*low, *high])), bytes))
}

// An admission's line moved, any other as it stands, from the bytes of its call.
fn print_call(out: &mut Output, way: Way, line: &[u8], call: &[u8]) -> io::Result<Ending> {
    let Some((count, bytes)) = admitted(call) else {
        out.write_all(line)?;
        out.write_all(b"\n")?;
        return Ok(Ending::Done);
    };
    let (stored, rows) = bytes.split_at(count.min(bytes.len()));
    print_block(out, way, stored, rows, times(line, call))
}

// The bytes of the line's call; code is memory for it. None where it can't be read.
fn read_call<'a>(line: &[u8], code: &'a mut [u8]) -> Option<&'a [u8]> {
    let read = call_text::read_text(line, 1, code).ok()?;
    match read.bad {
        Some(_) => None,
        None => Some(front(code, read.size)),
    }
}

// The lines after the first, up to one that can't be read.
fn print_lines(out: &mut Output, way: Way, lines: &[u8]) -> io::Result<Ending> {
    let mut ending = Ending::Done;
    let mut code: [u8; MOST_TEXT] = zeros();
    for (number, line) in (2..).zip(lines.split_inclusive(|byte| *byte == b'\n')) {
        let line = line.strip_suffix(b"\n").unwrap_or(line);
        let Some(call) = read_call(line, &mut code) else {
            let meant = call_text::wanted(line, 0);
            return out.refuse(Unread::Line { number, meant });
        };
        ending = ending.max(print_call(out, way, line, call)?);
    }
    Ok(ending)
}

// The list, its blanks tidied.
fn print_tidied(out: &mut Output, way: Way, text: &[u8]) -> io::Result<Ending> {
    let most = way.most_memory();
    let Some(memory) = call_text::memory_said(text).filter(|memory| *memory <= most) else {
        return out.refuse(Unread::Memory { most });
    };
    writeln!(out, "memory {}", way.moved(memory))?;
    print_lines(out, way, printing::after_line(text).unwrap_or(&[]))
}

fn print_text(out: &mut Output, way: Way, text: &[u8]) -> io::Result<Ending> {
    let mut tidied: [u8; MOST_TEXT] = zeros();
    match call_text::tidy(text, &mut tidied) {
        Ok(size) => print_tidied(out, way, front(&tidied, size)),
        Err(_) => out.refuse(Unread::TooLong),
    }
}

// The first line, and the list after it. Of a list too long for the memory nothing is printed, so what lies past it does not matter.
fn print_input(rt: HostRuntime, out: &mut Output) -> io::Result<Ending> {
    let mut memory: [u8; MOST_INPUT] = zeros();
    let input = printing::read_full(rt, &mut memory);
    let line = front(input, call_text::line_end(input));
    let Some(way) = Way::said(line) else {
        return out.refuse("the first line is widen or narrow");
    };
    print_text(out, way, printing::after_line(input).unwrap_or(&[]))
}

fn main(rt: HostRuntime) {
    let mut out = Output::new(rt);
    let said = print_input(rt, &mut out);
    out.end(said);
}
