// Small numbers read from bytes. Total, so that any crate may call them.

#![tactic(auto)]

ghost use Rattle.std.specs.Prelude.{◌≡◌, ◌+◌, ◌*◌, get_or};

// The number of two bytes.
pub fn pair(low: u8, high: u8) -> u16
    ensures { result ≡ low + high * 256 }
{
    (low as u16) + (high as u16) * 256
}

// Byte i; past the end 0.
pub fn byte_at(bytes: &[u8], i: usize) -> u8
    ensures { result ≡ get_or bytes.now i 0 }
{
    if i < bytes.len() {
        return bytes[i];
    }
    0
}
