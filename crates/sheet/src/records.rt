// The records of a sheet: refusals 3 and 4, and their fields as arrays.
ghost use Rattle.std.specs.Prelude.{◌≡◌, cond, ◌≤◌, ◌<◌, ◌+◌, ◌*◌, ◌/◌, eqb, length};
ghost use Rattle.laws.specs.Lists.{puts};
ghost use Rattle.sheet_spec.specs.Records.{record_count};
ghost use Rattle.sheet_spec.specs.Refusals.{refuse3, malformed, any_malformed};
ghost use Rattle.sheet.specs.Pairs.{pair_of};
ghost use Rattle.sheet.specs.Planes.{kind_byte, any_stop};

use sheet_spec::{SHEET_BYTES, STOP};

// A sheet that is not too long.
#[derive(Clone, Copy)]
pub struct Sheet<'a> {
    pub bytes: &'a [u8],
    ghost short: { length bytes.now ≤ 2048 },
}

// A job and its sheet that none of refusals 1 to 5 is given.
#[derive(Clone, Copy)]
pub struct Accepted<'a> {
    pub n: usize,
    pub m: usize,
    pub order: &'a [u8],
    pub sheet: Sheet<'a>,
    ghost inputs: { n ≤ 12 },
    ghost outputs: { m ≤ 8 },
    ghost whole: { length order.now ≤ 20 },
}

// The records' masks, and their values on them.
#[derive(Drop)]
pub struct Tests {
    pub masks: [u16; 256],
    pub values: [u16; 256],
}

// Refusal 3.
pub fn length_refused(sheet: &[u8]) -> bool
    ensures { result ≡ refuse3 sheet.now }
{
    sheet.len() % 8 != 0 || SHEET_BYTES < sheet.len()
}

// Bytes lo and hi of record r as one number, lo lowest.
fn pair(sheet: &[u8], lo: usize, hi: usize, r: usize) -> u16
    requires { (r < length sheet.now / 8) × (lo < 8) × (hi < 8) }
    ensures { result ≡ pair_of sheet.now lo hi r }
{
    u16::from_le_bytes([sheet[r * 8 + lo], sheet[r * 8 + hi]])
}

// Whether record r has a bit outside n or m, a value outside its mask, an output forced both ways, byte 6 above 1, or byte 7 not zero.
fn is_malformed(n: usize, m: usize, sheet: &[u8], r: usize) -> bool
    requires { (r < length sheet.now / 8) × (n ≤ 12) × (m ≤ 8) }
    ensures { result ≡ malformed n m sheet.now r }
{
    let mask = pair(sheet, 0, 1, r);
    let values = pair(sheet, 2, 3, r);
    let zeros = u16::from(sheet[r * 8 + 4]);
    let ones = u16::from(sheet[r * 8 + 5]);
    let words = 1u16 << n;
    let outputs = 1u16 << m;
    let inside = (mask < words) & (values < words) & (zeros < outputs) & (ones < outputs);
    let agree = (values & mask == values) & (zeros & ones == 0);
    let rest = (sheet[r * 8 + 6] < 2) & (sheet[r * 8 + 7] == 0);
    !(inside & agree & rest)
}

pub fn any_malformed(n: usize, m: usize, sheet: &[u8]) -> bool
    requires { (n ≤ 12) × (m ≤ 8) }
    ensures { result ≡ any_malformed n m sheet.now }
{
    let count = sheet.len() / 8;
    let mut found = false;
    for r in 0..count {
        found = found | is_malformed(n, m, sheet, r);
    }
    found
}

impl Sheet<'_> {
    pub fn count(&self) -> usize
        ensures { (result ≡ record_count self.now.bytes.now) × (result ≤ 256) }
    {
        self.bytes.len() / 8
    }

    // The number of bytes lo and hi of each record, as an array.
    pub fn load(&self, lo: usize, hi: usize, out: &mut [u16; 256])
        requires { (lo < 8) × (hi < 8) }
        ensures { out.new ≡ puts (record_count self.now.bytes.now) (pair_of self.now.bytes.now lo hi) out.old }
    {
        for r in 0..self.count() {
            out[r] = pair(self.bytes, lo, hi, r);
        }
    }

    // Byte at of each record of a kind, and 0 of the others, as an array.
    pub fn load_byte(&self, kind: u8, at: usize, out: &mut [u8; 256])
        requires { at < 8 }
        ensures { out.new ≡ puts (record_count self.now.bytes.now) (kind_byte self.now.bytes.now kind at) out.old }
    {
        for r in 0..self.count() {
            out[r] = of_kind(self.bytes[r * 8 + 6], kind, self.bytes[r * 8 + at]);
        }
    }

    // Whether some record is a stop record.
    pub fn any_stop(&self) -> bool
        ensures { result ≡ any_stop self.now.bytes.now }
    {
        let mut found = false;
        for r in 0..self.count() {
            found = found | (self.bytes[r * 8 + 6] == STOP);
        }
        found
    }
}

// f of a record of the kind that is asked for, else 0. Kinds stay bytes: the sheet comes from outside, and an enum would be turned back to these bytes.
fn of_kind(kind: u8, asked: u8, f: u8) -> u8
    ensures { result ≡ cond (eqb kind asked) f 0 }
{
    if kind == asked {
        return f;
    }
    0
}
