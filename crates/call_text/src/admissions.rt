// The lines that admit a block, the older one and the one with a period and a phase.
ghost use Rattle.std.specs.Prelude.{◌≡◌, true, cond, Some, None, [], ◌∷◌, ◌++◌, ◌≤◌, ◌<◌, ◌+◌, ◌/◌, length};
ghost use Rattle.laws.specs.Lists.{written};
ghost use Rattle.call_text.specs.Words.{decimal, is_bytes, bytes_of};
ghost use Rattle.call_text.specs.Lines.{low, high, admission, older_line, timed_admission, is_byte_number, timed_line, admit_line};
ghost use Rattle.call_text.specs.Given.{line_size};
ghost use Rattle.call_text.specs.Timed.{times_in};

use crate::lines::put_pair;
use crate::words::{cut, is_bytes, number, put_bytes};

// A period and a phase.
#[derive(Clone, Copy, Debug, PartialEq, Eq)]
pub struct Times {
    pub period: u8,
    pub phase: u8,
}

// The number of the call, and how many bytes the records and the rows have.
fn put_sizes(call: u8, records: u16, rows: u16, at: usize, code: &mut [u8])
    requires { at + 6 ≤ length code.old }
    ensures { code.new ≡ written code.old at (call ∷ low records ∷ high records ∷ low rows ∷ high rows ∷ 0 ∷ []) }
{
    code[at] = call;
    put_pair(records, at + 1, code);
    put_pair(rows, at + 3, code);
    code[at + 5] = 0;
}

// The bytes of the records and then those of the rows.
fn put_parts(records: &[u8], rows: &[u8], at: usize, code: &mut [u8])
    requires { (is_bytes records.now ≡ true) × (is_bytes rows.now ≡ true) × (at + length records.now / 2 + length rows.now / 2 ≤ length code.old) }
    ensures { code.new ≡ written code.old at (bytes_of records.now ++ bytes_of rows.now) }
{
    let r = records.len() / 2;
    put_bytes(records, at, code);
    put_bytes(rows, at + r, code);
}

// The call of an admission, its texts of bytes given; how long it is.
fn put_admission(records: &[u8], rows: &[u8], at: usize, code: &mut [u8]) -> usize
    requires { (is_bytes records.now ≡ true) × (is_bytes rows.now ≡ true) × (at + 6 + length records.now / 2 + length rows.now / 2 ≤ length code.old) }
    ensures value { result ≡ length (admission (bytes_of records.now) (bytes_of rows.now)) }
    ensures code_after { code.new ≡ written code.old at (admission (bytes_of records.now) (bytes_of rows.now)) }
{
    let r = records.len() / 2;
    let q = rows.len() / 2;
    put_sizes(1, r as u16, q as u16, at, code);
    put_parts(records, rows, at + 6, code);
    6 + r + q
}

// The same with a period and a phase.
fn put_timed(records: &[u8], rows: &[u8], times: Times, at: usize, code: &mut [u8]) -> usize
    requires { (is_bytes records.now ≡ true) × (is_bytes rows.now ≡ true) × (at + 8 + length records.now / 2 + length rows.now / 2 ≤ length code.old) }
    ensures value { result ≡ length (timed_admission (bytes_of records.now) (bytes_of rows.now) times.period times.phase) }
    ensures code_after { code.new ≡ written code.old at (timed_admission (bytes_of records.now) (bytes_of rows.now) times.period times.phase) }
{
    let r = records.len() / 2;
    let q = rows.len() / 2;
    put_sizes(4, r as u16, q as u16, at, code);
    code[at + 6] = times.period;
    code[at + 7] = times.phase;
    put_parts(records, rows, at + 8, code);
    8 + r + q
}

// The number that one to three digits are, at most 255.
fn byte_number(text: &[u8]) -> Option<u8>
    ensures { result ≡ cond (is_byte_number text.now) (Some (decimal text.now)) None }
{
    let n = number(text)?;
    if (3 < text.len()) | (255 < n) {
        return None;
    }
    Some(n as u8)
}

// Those before and after the first space.
fn times_in(text: &[u8]) -> Option<Times>
    ensures { result ≡ times_in text.now }
{
    let (first, second) = cut(text);
    let period = byte_number(first)?;
    let phase = byte_number(second)?;
    Some(Times { period, phase })
}

// Each of these reads what follows the word and writes the call at the places of code from at on; on a line that can't be read nothing changes.

fn older_line(rest: &[u8], at: usize, code: &mut [u8]) -> Option<usize>
    requires { at + length rest.now + 4 ≤ length code.old }
    ensures value { result ≡ line_size (older_line rest.now) }
    ensures code_after { code.new ≡ written code.old at (older_line rest.now).code }
{
    let (records, rows) = cut(rest);
    if !(is_bytes(records) & is_bytes(rows)) {
        return None;
    }
    Some(put_admission(records, rows, at, code))
}

fn timed_line(rest: &[u8], at: usize, code: &mut [u8]) -> Option<usize>
    requires { at + length rest.now + 4 ≤ length code.old }
    ensures value { result ≡ line_size (timed_line rest.now) }
    ensures code_after { code.new ≡ written code.old at (timed_line rest.now).code }
{
    let (records, others) = cut(rest);
    let (rows, words) = cut(others);
    let times = times_in(words)?;
    if !(is_bytes(records) & is_bytes(rows)) {
        return None;
    }
    Some(put_timed(records, rows, times, at, code))
}

pub fn admit_line(rest: &[u8], at: usize, code: &mut [u8]) -> Option<usize>
    requires { at + length rest.now + 4 ≤ length code.old }
    ensures value { result ≡ line_size (admit_line rest.now) }
    ensures code_after { code.new ≡ written code.old at (admit_line rest.now).code }
{
    let older = older_line(rest, at, code);
    if older.is_some() {
        return older;
    }
    timed_line(rest, at, code)
}
