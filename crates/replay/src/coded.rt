// Calls in bytes.
ghost use Rattle.std.specs.Prelude.{◌≡◌, cond, eqb, Some, None, ◌<◌, ◌+◌, ◌*◌, length, get_or};
ghost use Rattle.laws.specs.Lists.{tab};
ghost use Rattle.replay.specs.Coded.{pair, triple, said_size, size, calls_in, readable};

pub fn byte_at(list: &[u8], i: usize) -> usize
    ensures { (result ≡ get_or list.now i 0) × (result < 256) }
{
    usize::from(numbers::byte_at(list, i))
}

// The number in the two bytes at place i.
pub fn pair_at(list: &[u8], i: usize) -> usize
    requires { i < 1024 }
    ensures { (result ≡ pair list.now i) × (result < 65536) }
{
    let low = byte_at(list, i);
    let high = byte_at(list, i + 1);
    low + 256 * high
}

// The number in the three bytes at place i.
pub fn triple_at(list: &[u8], i: usize) -> usize
    requires { i < 1024 }
    ensures { (result ≡ triple list.now i) × (result < 16777216) }
{
    let lower = pair_at(list, i);
    let top = byte_at(list, i + 2);
    lower + 65536 * top
}

fn said_size(list: &[u8]) -> usize
    ensures { result ≡ said_size list.now }
{
    match byte_at(list, 0) {
        0 => 3,
        1 => 6 + pair_at(list, 1) + triple_at(list, 3),
        2 => 17,
        3 => 1,
        4 => 8 + pair_at(list, 1) + triple_at(list, 3),
        _ => 0,
    }
}

// The bytes of the call at the front, where a whole one stands there.
pub fn call_size(list: &[u8]) -> Option<usize>
    ensures { result ≡ cond (eqb (size list.now) 0) None (Some (size list.now)) }
{
    let said = said_size(list);
    if said == 0 {
        return None;
    }
    if list.len() < said {
        return None;
    }
    Some(said)
}

// How many calls the list has, where it is whole calls.
pub fn count_calls(list: &[u8]) -> Option<usize>
    ensures { result ≡ cond (readable list.now) (Some (length (calls_in list.now))) None }
{
    let mut calls = 0;
    let mut rest = list;
    while let Some(n) = call_size(rest) {
        calls += 1;
        rest = &rest[n..];
    }
    if rest.is_empty() {
        return Some(calls);
    }
    None
}

fn word_at(list: &[u8], b: usize) -> u16
    requires { b < 8 }
    ensures { result ≡ pair list.now (1 + 2 * b) }
{
    pair_at(list, 1 + 2 * b) as u16
}

// The eight words of a latch.
pub fn words_in(list: &[u8]) -> [u16; 8]
    ensures { result ≡ tab 8 (λ b. pair list.now (1 + 2 * b)) }
{
    let mut words = [0u16; 8];
    for b in 0..8 {
        words[b] = word_at(list, b);
    }
    words
}
