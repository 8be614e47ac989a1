// A list of calls as text, tidied and read into its bytes. Also a line that says which inputs are known.

#![tactic(auto)]

mod admissions;
mod blanks;
mod known;
mod lines;
mod unread;
mod words;

ghost use Rattle.std.specs.Prelude.{◌≡◌, ◌≤◌, IfOk, IfSome};
ghost use Rattle.call_text.specs.Given.{tidy_given, memory_given, text_given, wanted_given, known_given};
ghost use Rattle.call_text.specs.Known.{read_known};
ghost use Rattle.call_text.specs.Lines.{line_end, memory_in, read_text};
ghost use Rattle.call_text.specs.Tidy.{tidy_text};
ghost use Rattle.call_text.specs.Wanted.{wanted_after};

use crate::blanks::tidy_whole;
use crate::known::known_line;
use crate::lines::{memory_line, read_lines};
use crate::unread::{line_place, wanted_first};
use crate::words::byte_in;
use refusals::Refusal;

// What was read: how many bytes of calls there are, and the number of the line that can't be read, where there is one.
#[derive(Clone, Copy, Debug, PartialEq, Eq)]
pub struct TextRead {
    pub size: usize,
    pub bad: Option<usize>,
}

// The calls, by the word that each begins with.
#[derive(Clone, Copy, Debug, PartialEq, Eq)]
pub enum CallKind {
    Bank,
    Admit,
    Latch,
    Step,
}

// What a line known=HEX word=HEX says: the mask of the known inputs, and their values.
#[derive(Clone, Copy, Debug, PartialEq, Eq)]
pub struct KnownInputs {
    pub known: u16,
    pub word: u16,
}

// The length of the first line.
pub fn line_end(text: &[u8]) -> usize
    ensures { result ≡ line_end text.now }
{
    byte_in(text, 10)
}

// The text with its blanks tidied, at the front of the lent memory, which must be as long as the text; its length.
pub fn tidy(text: &[u8], lent: &mut [u8]) -> Result<usize, Refusal>
    ensures { tidy_given result lent.new ≡ tidy_text text.now lent.old }
{
    if lent.len() < text.len() {
        return Err(Refusal::RowsShort);
    }
    Ok(tidy_whole(text, lent))
}

// The bytes of row memory that the first line says.
pub fn memory_said(text: &[u8]) -> Option<usize>
    ensures value { memory_given result ≡ memory_in text.now }
    ensures within { IfSome result (λ n. n ≤ 65536) }
{
    memory_line(&text[..line_end(text)])
}

// Reads the calls of the lines, numbered from first on, up to the first that can't be read, into the lent memory, which must be as long as the text.
pub fn read_text(text: &[u8], first: u32, code: &mut [u8]) -> Result<TextRead, Refusal>
    ensures code_after { text_given result code.new ≡ read_text text.now first code.old }
    ensures bad_from { IfOk result (λ read. IfSome read.bad (λ n. first ≤ n)) }
{
    if code.len() < text.len() {
        return Err(Refusal::RowsShort);
    }
    Ok(read_lines(text, first as usize, code))
}

// What the line after the first n should have been, by how it begins; any call where it begins as none.
pub fn wanted(text: &[u8], n: usize) -> Option<CallKind>
    ensures { wanted_given result ≡ wanted_after n text.now }
{
    wanted_first(&text[line_place(text, n)..])
}

// Reads the first line, which says the mask of known inputs and their values.
pub fn read_known(text: &[u8]) -> Option<KnownInputs>
    ensures { known_given result ≡ read_known text.now }
{
    known_line(&text[..line_end(text)])
}
