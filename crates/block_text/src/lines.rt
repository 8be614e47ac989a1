// The parts of the line.
ghost use Rattle.std.specs.Prelude.{◌≡◌, ◌≤◌, ◌+◌, length};
ghost use Rattle.laws.specs.Lists.{written};
ghost use Rattle.block_text.specs.BlockLine.{bytes_text, block_line};

// How long the text of the bytes is.
pub fn text_size(bytes: &[u8]) -> usize
    requires { length bytes.now ≤ 65535 }
    ensures { (result ≡ length (bytes_text bytes.now)) × (result ≤ 131070) }
{
    if bytes.is_empty() {
        return 1;
    }
    2 * bytes.len()
}

// The text of the bytes, at the places of text from at on.
fn put_text(bytes: &[u8], at: usize, text: &mut [u8]) -> usize
    requires { at + length (bytes_text bytes.now) ≤ length text.old }
    ensures value { result ≡ length (bytes_text bytes.now) }
    ensures text_after { text.new ≡ written text.old at (bytes_text bytes.now) }
{
    if bytes.is_empty() {
        text[at] = b'-';
        return 1;
    }
    let size = 2 * bytes.len();
    hex::encode_to_slice(bytes, &mut text[at..at + size]).unwrap();
    size
}

// The whole line, at the front of text.
pub fn put_line(records: &[u8], rows: &[u8], text: &mut [u8])
    requires { 8 + length (bytes_text records.now) + length (bytes_text rows.now) ≤ length text.old }
    ensures { text.new ≡ written text.old 0 (block_line records.now rows.now) }
{
    text[..6].copy_from_slice(b"admit ");
    let r = put_text(records, 6, text);
    text[6 + r] = b' ';
    let q = put_text(rows, 7 + r, text);
    text[7 + r + q] = b'\n';
}
