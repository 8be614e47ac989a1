// The line that says which inputs are known.
ghost use Rattle.std.specs.Prelude.{◌≡◌, true, cond, Some, None};
ghost use Rattle.call_text.specs.Given.{known_given};
ghost use Rattle.call_text.specs.Known.{says, said, known_line};
ghost use Rattle.call_text.specs.Words.{without_zeros};

use crate::KnownInputs;
use crate::words::{after, cut, hex_word};

// The number that follows the name.
fn said(name: &[u8], text: &[u8]) -> Option<u16>
    requires { without_zeros name.now ≡ true }
    ensures { result ≡ cond (says name.now text.now) (Some (said name.now text.now)) None }
{
    hex_word(after(name, text)?)
}

// known=HEX and word=HEX with one space between.
pub fn known_line(line: &[u8]) -> Option<KnownInputs>
    ensures { known_given result ≡ known_line line.now }
{
    let (first, second) = cut(line);
    let known = said(b"known=", first)?;
    let word = said(b"word=", second)?;
    Some(KnownInputs { known, word })
}
