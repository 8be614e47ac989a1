// Numbers and bytes in text.
ghost use Rattle.std.specs.Prelude.{◌≡◌, true, false, ◌≤◌, ◌<◌, ◌+◌, ◌*◌, ◌/◌, ◌^◌, cond, eqb, length, get_or, take, drop, MatchOption};
ghost use Rattle.laws.specs.Tests.{every, least};
ghost use Rattle.laws.specs.Lists.{puts_at};
ghost use Rattle.call_text.specs.Words.{begins, decimal, is_number, hex_digit, is_hex, hex_word, is_hex_word, hex_byte, is_bytes, without_zeros};
ghost use Rattle.call_text.specs.Based.{number_in};
ghost use Rattle.call_text.specs.Lines.{space_in};

use numbers::byte_at;

// The place of the first byte that is x, the length where there is none.
pub fn byte_in(text: &[u8], x: u8) -> usize
    ensures { (result ≡ least (length text.now) (λ i. eqb (get_or text.now i 0) x)) × (result ≤ length text.now) }
{
    text.iter().position(|&c| c == x).unwrap_or(text.len())
}

// The texts before and after the first space; nothing is after it where there is none.
pub fn cut(text: &[u8]) -> (&[u8], &[u8])
    ensures before { result.0.now ≡ take (space_in text.now) text.now }
    ensures after { result.1.now ≡ drop (space_in text.now + 1) text.now }
{
    let (word, rest) = text.split_at(byte_in(text, b' '));
    if rest.is_empty() {
        return (word, rest);
    }
    (word, &rest[1..])
}

// What follows the word, where the text begins with it.
pub fn after<'a>(word: &[u8], text: &'a [u8]) -> Option<&'a [u8]>
    requires { without_zeros word.now ≡ true }
    ensures { MatchOption result (begins word.now text.now ≡ false)
        (λ rest. (begins word.now text.now ≡ true) × (rest.now ≡ drop (length word.now) text.now) × (length rest.now + length word.now ≡ length text.now)) }
{
    text.strip_prefix(word)
}

// The number in the base that one to so many digits are.
fn number_in(text: &[u8], base: u32, most: usize) -> Option<u32>
    requires { (2 ≤ base) × (base ≤ 36) × (base ^ most < 2 ^ 32) }
    ensures { result ≡ number_in base most text.now }
{
    if text.is_empty() | (most < text.len()) {
        return None;
    }
    let mut value = 0;
    for &c in text {
        value = base * value + char::from(c).to_digit(base)?;
    }
    Some(value)
}

// The number that one to five digits are.
pub fn number(text: &[u8]) -> Option<u32>
    ensures { result ≡ cond (is_number text.now) (Some (decimal text.now)) None }
{
    number_in(text, 10, 5)
}

// The number that one to four digits in base 16 are.
pub fn hex_word(text: &[u8]) -> Option<u16>
    ensures { result ≡ cond (is_hex_word text.now) (Some (hex_word text.now)) None }
{
    Some(number_in(text, 16, 4)? as u16)
}

#[tactic(auto, unfolding(crate::specs::Words::hex_digit))]
fn hex_digit(c: u8) -> u8
    ensures { (result ≡ hex_digit c) × (result ≤ 16) }
{
    match c {
        b'0'..=b'9' => c - b'0',
        b'a'..=b'f' => c - b'a' + 10,
        b'A'..=b'F' => c - b'A' + 10,
        _ => 16,
    }
}

pub fn is_hex(text: &[u8], i: usize) -> bool
    ensures { result ≡ is_hex text.now i }
{
    byte_at(text, i).is_ascii_hexdigit()
}

// Two digits in base 16 a byte, or - for no bytes.
pub fn is_bytes(text: &[u8]) -> bool
    ensures { result ≡ is_bytes text.now }
{
    let n = text.len();
    let none = (n == 1) & (byte_at(text, 0) == b'-');
    none | ((1 <= n) & (n <= 131071) & (n % 2 == 0) & text.iter().all(|c| c.is_ascii_hexdigit()))
}

// The byte whose two digits stand at place i.
pub fn hex_byte(text: &[u8], i: usize) -> u8
    requires { (i + 1 < 2 ^ 64) × (is_hex text.now i ≡ true) × (is_hex text.now (i + 1) ≡ true) }
    ensures { result ≡ hex_byte text.now i }
{
    16 * hex_digit(byte_at(text, i)) + hex_digit(byte_at(text, i + 1))
}

// The bytes of the text, at the places of code from at on.
pub fn put_bytes(text: &[u8], at: usize, code: &mut [u8])
    requires { (is_bytes text.now ≡ true) × (at + length text.now / 2 ≤ length code.old) }
    ensures { code.new
        ≡ puts_at at (length text.now / 2) (λ i. hex_byte text.now (2 * i)) code.old }
{
    let n = text.len() / 2;
    for i in 0..n {
        code[at + i] = hex_byte(text, 2 * i);
    }
}
