// Runs the list of calls on standard input and prints, after each, its answer and for each block the outputs set. docs/REPLAY.md says how the calls
// are written.

#![tactic(auto)]

use printing::{Ending, MOST_TEXT, Output, Unread, front, zeros};
use refusals::Refusal;
use std::io;
use std::io::Write;
use stored_spec::MOST_ROW_BYTES;

// The calls of the longest list, 68 bytes of trace each.
const MOST_CALLS: usize = 32768;

const ENTRY: usize = 68;

const MOST_TRACE: usize = MOST_CALLS * ENTRY;

// The longest text, and one byte more, by which a longer one shows.
const MOST_INPUT: usize = MOST_TEXT + 1;

// The sign of an output: 0 or 1 where it is set, else a full stop.
fn sign(output: u8) -> u8 {
    match output {
        0 => b'0',
        1 => b'1',
        _ => b'.',
    }
}

// Each block's place and its outputs, output 0 first.
fn print_blocks(out: &mut Output, blocks: &[[u8; 8]]) -> io::Result<()> {
    for (place, outputs) in blocks.iter().enumerate() {
        write!(out, " {place}:")?;
        out.write_all(&outputs.map(sign))?;
    }
    Ok(())
}

// A line for the entry of a call: "ok", "refused N", "idle" or "went BLOCK CELL", and its blocks.
fn print_call(out: &mut Output, entry: &[u8; ENTRY]) -> io::Result<Ending> {
    let &[kind, first, second, count, ..] = entry;
    match kind {
        0 => write!(out, "ok")?,
        1 => write!(out, "refused {first}")?,
        2 => write!(out, "idle")?,
        _ => write!(out, "went {first} {second}")?,
    }
    let (blocks, _) = entry[4..].as_chunks::<8>();
    print_blocks(out, front(blocks, usize::from(count)))?;
    writeln!(out)?;
    Ok(if kind == 1 {
        Ending::Refused
    } else {
        Ending::Done
    })
}

fn print_trace(out: &mut Output, trace: &[[u8; ENTRY]]) -> io::Result<Ending> {
    let mut ending = Ending::Done;
    for entry in trace {
        ending = ending.max(print_call(out, entry)?);
    }
    Ok(ending)
}

// Runs the calls on so many bytes of the row memory.
fn replay_on(list: &[u8], memory: usize, rows: &mut [u8], trace: &mut [u8]) -> Result<(), Refusal> {
    let lent = memory.min(rows.len());
    replay::replay(list, &mut rows[..lent], trace)
}

// Runs the calls and prints their trace.
fn run_calls(out: &mut Output, list: &[u8], memory: usize) -> io::Result<Ending> {
    let mut rows: [u8; MOST_ROW_BYTES] = zeros();
    let mut trace: [u8; MOST_TRACE] = zeros();
    if let Err(refusal) = replay_on(list, memory, &mut rows, &mut trace) {
        return out.refuse(refusal);
    }
    let (entries, _) = trace.as_chunks::<ENTRY>();
    print_trace(out, front(entries, replay::call_count(list)))
}

// Runs the calls of the lines, which are numbered from 2 on, up to the first that can't be read; code is memory for the calls in bytes.
fn run_lines(out: &mut Output, lines: &[u8], memory: usize, code: &mut [u8]) -> io::Result<Ending> {
    let read = match call_text::read_text(lines, 2, code) {
        Ok(read) => read,
        Err(refusal) => return out.refuse(refusal),
    };
    let list = front(code, read.size);
    if MOST_CALLS < replay::call_count(list) {
        return out.refuse(format_args!("over {MOST_CALLS} calls"));
    }
    let ending = run_calls(out, list, memory)?;
    match read.bad {
        None => Ok(ending),
        Some(number) => {
            let meant = call_text::wanted(lines, number - 2);
            out.refuse(Unread::Line { number, meant })
        }
    }
}

// The list, its blanks tidied.
fn run_tidied(out: &mut Output, text: &[u8], code: &mut [u8]) -> io::Result<Ending> {
    let Some(memory) = call_text::memory_said(text) else {
        return out.refuse(Unread::Memory {
            most: MOST_ROW_BYTES,
        });
    };
    match printing::after_line(text) {
        Some(lines) => run_lines(out, lines, memory, code),
        None => Ok(Ending::Done),
    }
}

// The text tidied; its own memory is then free for the calls.
fn run_input(rt: HostRuntime, out: &mut Output) -> io::Result<Ending> {
    let mut memory: [u8; MOST_INPUT] = zeros();
    let mut tidied: [u8; MOST_TEXT] = zeros();
    let text = printing::read_full(rt, &mut memory);
    match call_text::tidy(text, &mut tidied) {
        Ok(size) => run_tidied(out, front(&tidied, size), &mut memory),
        Err(_) => out.refuse(Unread::TooLong),
    }
}

fn main(rt: HostRuntime) {
    let mut out = Output::new(rt);
    let said = run_input(rt, &mut out);
    out.end(said);
}
