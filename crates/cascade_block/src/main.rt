// Prints the cascade of the job and sheet on standard input as the line of `bank_replay` that admits it.

#![tactic(auto)]

use printing::{Ending, Output, front, zeros};
use std::io;
use std::io::Write;

// As long as the line of a job can be.
const MOST_LINE: usize = 49320;

// The line, or "refused N".
fn print_block(out: &mut Output, input: &[u8]) -> io::Result<Ending> {
    let mut text: [u8; MOST_LINE] = zeros();
    match listing::block_input(input, &mut text) {
        Ok(size) => {
            out.write_all(front(&text, size))?;
            Ok(Ending::Done)
        }
        Err(refusal) => out.refuse(refusal),
    }
}

// Of more than 4,096 bytes the first 4,096 decide the answer.
fn main(rt: HostRuntime) {
    let mut memory: [u8; 4096] = zeros();
    let input = printing::read_full(rt, &mut memory);
    let mut out = Output::new(rt);
    let said = print_block(&mut out, input);
    out.end(said);
}
