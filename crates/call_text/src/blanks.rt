// Blanks tidied.
ghost use Rattle.std.specs.Prelude.{◌≡◌, ◌≤◌, ◌+◌, length};
ghost use Rattle.laws.specs.Lists.{written};
ghost use Rattle.call_text.specs.Tidy.{is_blank, place_after, tidied_byte, tidied};

fn is_blank(c: u8) -> bool
    ensures { result ≡ is_blank c }
{
    (c == 32) | (c == 9) | (c == 13)
}

// Where the byte after c stands, before the first word of its line (0), in a word (1) or in blanks after one (2), where c stands at s.
fn place_after(s: u8, c: u8) -> u8
    ensures { result ≡ place_after s c }
{
    if is_blank(c) {
        if s == 0 {
            return 0;
        }
        return 2;
    }
    if c == 10 {
        return 0;
    }
    1
}

// What becomes of c, at the places from at on.
fn put_tidied(s: u8, c: u8, at: usize, lent: &mut [u8]) -> usize
    requires { at + length (tidied_byte s c) ≤ length lent.old }
    ensures value { result ≡ length (tidied_byte s c) }
    ensures lent_after { lent.new ≡ written lent.old at (tidied_byte s c) }
{
    if is_blank(c) {
        return 0;
    }
    if (s == 2) & (c != 10) {
        lent[at] = 32;
        lent[at + 1] = c;
        return 2;
    }
    lent[at] = c;
    1
}

// The text tidied, from the front of the lent memory on; its length.
pub fn tidy_whole(text: &[u8], lent: &mut [u8]) -> usize
    requires { length text.now ≤ length lent.old }
    ensures value { result ≡ length (tidied text.now) }
    ensures lent_after { lent.new ≡ written lent.old 0 (tidied text.now) }
{
    let mut size = 0;
    let mut s = 0;
    for at in 0..text.len() {
        let c = text[at];
        size += put_tidied(s, c, size, lent);
        s = place_after(s, c);
    }
    size
}
