// Lines of calls.
ghost use Rattle.std.specs.Prelude.{◌≡◌, true, cond, ◌&&◌, [], ◌∷◌, ◌≤◌, ◌<◌, ◌+◌, ◌*◌, ◌/◌, ◌%◌, ◌^◌, eqb, leb, length, get_or, drop, IfSome};
ghost use Rattle.laws.specs.Tests.{every};
ghost use Rattle.laws.specs.Lists.{written, puts_at};
ghost use Rattle.call_text.specs.Given.{line_size, memory_given, bad_given};
ghost use Rattle.call_text.specs.Words.{begins, decimal, is_number, hex_byte};
ghost use Rattle.call_text.specs.Lines.{bank_line, word_place, is_word_byte, latch_line, memory_word, line_in, lines_in};

use crate::TextRead;
use crate::admissions::admit_line;
use crate::words::{after, byte_in, hex_byte, is_hex, number};
use numbers::byte_at;

// The first line, which says the bytes of row memory.
pub fn memory_line(line: &[u8]) -> Option<usize>
    ensures value { memory_given result ≡ cond (begins memory_word line.now && is_number (drop 7 line.now) && leb (decimal (drop 7 line.now)) 65536) (decimal (drop 7 line.now)) 65537 }
    ensures within { IfSome result (λ n. n ≤ 65536) }
{
    let n = number(after(b"memory ", line)?)?;
    if 65536 < n {
        return None;
    }
    Some(n as usize)
}

// A number in two bytes, the low byte first.
pub fn put_pair(x: u16, at: usize, code: &mut [u8])
    requires { at + 2 ≤ length code.old }
    ensures { code.new ≡ written code.old at (x % 256 ∷ x / 256 ∷ []) }
{
    code[at..at + 2].copy_from_slice(&x.to_le_bytes());
}

// Each of these reads what follows its word and writes the call at the places of code from at on; on a line that can't be read nothing changes.

fn bank_line(rest: &[u8], at: usize, code: &mut [u8]) -> Option<usize>
    requires { at + length rest.now + 4 ≤ length code.old }
    ensures value { result ≡ line_size (bank_line rest.now) }
    ensures code_after { code.new ≡ written code.old at (bank_line rest.now).code }
{
    let limit = number(rest)?;
    if 65535 < limit {
        return None;
    }
    code[at] = 0;
    put_pair(limit as u16, at + 1, code);
    Some(3)
}

fn word_place(i: usize) -> usize
    requires { i < 16 }
    ensures { (result ≡ word_place i) × (result < 40) }
{
    if i % 2 == 0 {
        return 5 * (i / 2) + 3;
    }
    5 * (i / 2) + 1
}

fn is_word_byte(rest: &[u8], i: usize) -> bool
    requires { i < 16 }
    ensures { result ≡ is_word_byte rest.now i }
{
    let place = word_place(i);
    is_hex(rest, place) & is_hex(rest, place + 1)
}

fn all_word_bytes(rest: &[u8]) -> bool
    ensures { result ≡ every 16 (is_word_byte rest.now) }
{
    (0..16).all(|i| is_word_byte(rest, i))
}

fn all_spaces(rest: &[u8]) -> bool
    ensures { result ≡ every 8 (λ b. eqb (get_or rest.now (5 * b) 0) 32) }
{
    (0..8).all(|b| byte_at(rest, 5 * b) == b' ')
}

fn put_words(rest: &[u8], at: usize, code: &mut [u8])
    requires { (every 16 (is_word_byte rest.now) ≡ true) × (at + 16 ≤ length code.old) }
    ensures { code.new ≡ puts_at at 16 (λ i. hex_byte rest.now (word_place i)) code.old }
{
    for i in 0..16 {
        code[at + i] = hex_byte(rest, word_place(i));
    }
}

fn latch_line(rest: &[u8], at: usize, code: &mut [u8]) -> Option<usize>
    requires { at + length rest.now + 4 ≤ length code.old }
    ensures value { result ≡ line_size (latch_line rest.now) }
    ensures code_after { code.new ≡ written code.old at (latch_line rest.now).code }
{
    let spaced = (rest.len() == 40) & all_spaces(rest);
    if !(spaced & all_word_bytes(rest)) {
        return None;
    }
    code[at] = 2;
    put_words(rest, at + 1, code);
    Some(17)
}

// Reads a line and writes its call at the places of code from at on; on a line that can't be read nothing changes.
fn read_line(line: &[u8], at: usize, code: &mut [u8]) -> Option<usize>
    requires { at + length line.now ≤ length code.old }
    ensures value { result ≡ line_size (line_in line.now) }
    ensures within { IfSome result (λ size. size ≤ length line.now) }
    ensures code_after { code.new ≡ written code.old at (line_in line.now).code }
{
    if line.is_empty() | (byte_at(line, 0) == b'#') {
        return Some(0);
    }
    if line == b"step".as_slice() {
        code[at] = 3;
        return Some(1);
    }
    if let Some(rest) = after(b"bank ", line) {
        return bank_line(rest, at, code);
    }
    if let Some(rest) = after(b"latch", line) {
        return latch_line(rest, at, code);
    }
    if let Some(rest) = after(b"admit ", line) {
        return admit_line(rest, at, code);
    }
    None
}

// The calls of the lines up to the first that can't be read, from the front of code on.
pub fn read_lines(text: &[u8], first: usize, code: &mut [u8]) -> TextRead
    requires { (length text.now ≤ length code.old) × (first < 2 ^ 32) }
    ensures size_value { (result.size ≡ length (lines_in first text.now).code) × (bad_given result.bad ≡ (lines_in first text.now).bad_line) }
    ensures code_after { code.new ≡ written code.old 0 (lines_in first text.now).code }
    ensures bad_from { IfSome result.bad (λ n. first ≤ n) }
{
    let mut at = 0;
    let mut size = 0;
    let mut number = first;
    while at < text.len() {
        let end = at + byte_in(&text[at..], 10);
        let Some(read) = read_line(&text[at..end], size, code) else {
            return TextRead {
                size,
                bad: Some(number),
            };
        };
        size += read;
        number += 1;
        at = end + 1;
    }
    TextRead { size, bad: None }
}
