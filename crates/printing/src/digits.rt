// Bytes in base 16, two small digits each.
ghost use Rattle.std.specs.Prelude.{◌≡◌, ◌≤◌, length};
ghost use Rattle.hex.specs.Hex.{encode_lower};

use std::fmt;

// Bytes that are spelt at once.
const PIECE: usize = 256;

#[derive(Clone, Copy)]
pub struct Hex<'a>(pub &'a [u8]);

// The digits of a piece, at the front of text.
fn spelt<'a>(piece: &[u8], text: &'a mut [u8; PIECE * 2]) -> &'a str
    requires { length piece.now ≤ 256 }
    ensures { result.now ≡ encode_lower piece.now }
{
    let room = &mut text[..2 * piece.len()];
    hex::encode_to_slice(piece, room).unwrap();
    let Ok(digits) = str::from_utf8(room) else {
        unreachable!();
    };
    digits
}

impl fmt::Display for Hex<'_> {
    fn fmt<W: fmt::Write>(&self, f: &mut fmt::Formatter<W>) -> fmt::Result {
        let mut text = [0u8; PIECE * 2];
        for piece in self.0.chunks(PIECE) {
            f.write_str(spelt(piece, &mut text))?;
        }
        Ok(())
    }
}
