// What a line that can't be read should have been.
ghost use Rattle.std.specs.Prelude.{◌≡◌, ◌≤◌, ◌+◌, length, drop};
ghost use Rattle.call_text.specs.Given.{wanted_given};
ghost use Rattle.call_text.specs.Wanted.{wanted, lines_after};
ghost use Rattle.call_text.specs.Lines.{line_end};

use crate::CallKind;
use crate::words::byte_in;

// By how the text begins.
pub fn wanted_first(text: &[u8]) -> Option<CallKind>
    ensures { wanted_given result ≡ wanted text.now }
{
    if text.starts_with(b"bank") {
        return Some(CallKind::Bank);
    }
    if text.starts_with(b"admit") {
        return Some(CallKind::Admit);
    }
    if text.starts_with(b"latch") {
        return Some(CallKind::Latch);
    }
    if text.starts_with(b"step") {
        return Some(CallKind::Step);
    }
    None
}

// Where the line after the one at place at begins, the end of the text where there is none.
fn next_line(text: &[u8], at: usize) -> usize
    requires { at ≤ length text.now }
    ensures { (drop result text.now ≡ drop (line_end (drop at text.now) + 1) (drop at text.now)) × (result ≤ length text.now) }
{
    let end = at + byte_in(&text[at..], 10);
    if end < text.len() {
        return end + 1;
    }
    text.len()
}

// Where the line after the first n begins.
pub fn line_place(text: &[u8], n: usize) -> usize
    ensures { (drop result text.now ≡ lines_after n text.now) × (result ≤ length text.now) }
{
    let mut at = 0;
    for i in 0..n {
        at = next_line(text, at);
    }
    at
}
