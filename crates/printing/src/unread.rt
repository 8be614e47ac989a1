// Why a list of calls can't be read, as a line says it.
use call_text::CallKind;
use std::fmt;

// The bytes of the longest list.
pub const MOST_TEXT: usize = 1048576;

#[derive(Clone, Copy, Debug, PartialEq, Eq)]
pub enum Unread {
    // The list is longer than the longest.
    TooLong,
    // The first line says no row memory, or one of more bytes.
    Memory {
        most: usize,
    },
    // The line of this number is no call; the call that was meant, where it begins as one.
    Line {
        number: usize,
        meant: Option<CallKind>,
    },
}

impl fmt::Display for Unread {
    fn fmt<W: fmt::Write>(&self, f: &mut fmt::Formatter<W>) -> fmt::Result {
        match *self {
            Unread::TooLong => write!(f, "input over {MOST_TEXT} bytes"),
            Unread::Memory { most } => write!(
                f,
                "line 1: not understood, expected memory N, where N is one to five digits and at most {most}"
            ),
            Unread::Line { number, meant } => {
                write!(
                    f,
                    "line {number}: not understood, expected {}",
                    expected(meant)
                )
            }
        }
    }
}

fn expected(meant: Option<CallKind>) -> &'static str {
    match meant {
        Some(CallKind::Bank) => "bank S, where S is one to five digits and at most 65535",
        Some(CallKind::Admit) => {
            "admit RECORDS ROWS or admit RECORDS ROWS PERIOD PHASE, where RECORDS and ROWS are in base 16, two digits a byte and at most 65535 bytes, or - for none, and PERIOD and PHASE one to three digits and at most 255"
        }
        Some(CallKind::Latch) => "latch and eight words of four digits in base 16",
        Some(CallKind::Step) => "step and nothing after it",
        None => "bank, admit, latch or step",
    }
}
