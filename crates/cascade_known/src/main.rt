// Says which outputs of a job are certain where some inputs are not known. Standard input is a line known=HEX word=HEX, and then the job as
// `cascade_list` reads it.

#![tactic(auto)]

use call_text::KnownInputs;
use printing::{Ending, Output, after_line, front, zeros};
use std::io;
use std::io::Write;

// What is certain of an output.
fn certain(output: u8) -> &'static str {
    match output {
        0 => "0",
        1 => "1",
        _ => "unknown",
    }
}

// A line for each output: "y1 0", "y1 1" or "y1 unknown".
fn print_outputs(out: &mut Output, outputs: &[u8]) -> io::Result<()> {
    for (o, &output) in outputs.iter().enumerate() {
        writeln!(out, "y{} {}", o + 1, certain(output))?;
    }
    Ok(())
}

// The outputs, or "refused N".
fn print_known(out: &mut Output, input: &[u8], inputs: KnownInputs) -> io::Result<Ending> {
    match listing::evaluate_input(input, inputs.known, inputs.word) {
        Ok(outputs) => {
            let (job, _) = listing::job_in(input);
            print_outputs(out, front(&outputs, job.m))?;
            Ok(Ending::Done)
        }
        Err(refusal) => out.refuse(refusal),
    }
}

// The first line, and the job after it.
fn print_text(out: &mut Output, text: &[u8]) -> io::Result<Ending> {
    match (call_text::read_known(text), after_line(text)) {
        (Some(inputs), Some(input)) => print_known(out, input, inputs),
        _ => Ok(Ending::Misused),
    }
}

// Of more than 65,536 bytes the first 65,536 decide, for the first 4,096 of the job do.
fn main(rt: HostRuntime) {
    let mut memory: [u8; 65536] = zeros();
    let text = printing::read_full(rt, &mut memory);
    let mut out = Output::new(rt);
    let said = print_text(&mut out, text);
    out.end(said);
}
