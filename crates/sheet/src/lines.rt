// The table of the function, line by line, from two planes.
ghost use Rattle.std.specs.Prelude.{◌≡◌, ◌≤◌, ◌<◌, ◌+◌, ◌-◌, ◌*◌, ◌/◌, ◌%◌, ◌^◌, length, get_or, replicate, cond, ltb};
ghost use Rattle.std.proofs.lemmas.List.Edits.{sets};
ghost use Rattle.laws.specs.Lists.{puts_at, rect};
ghost use Rattle.sheet_spec.specs.Records.{record_count};
ghost use Rattle.sheet.specs.Planes.{listed, line_value, line_at, field_array, number_array, kind_array, marked_plane, stops_over, plane_of, output_array};

use crate::planes::{Planes, complement, mark, number_words};
use crate::records::{Accepted, Sheet, Tests};
use sheet_spec::{MOST_VARIABLES, ORDINARY, STOP, Table};

// The number of a variable: input i is i, and output i is 128 + i.
fn number(v: u8) -> u8
    ensures { result ≡ cond (ltb v 128) v (v - 128) }
{
    v % 128
}

// The inputs of the order, or its outputs, by their numbers, lowest first.
pub fn list_of(job: &Accepted<'_>, outputs: bool, list: &mut [u8; MOST_VARIABLES])
    ensures { list.new ≡ sets list.old 0 (listed outputs (length job.now.order.now) job.now.order.now (length job.now.order.now)) }
{
    let mut count = 0;
    for v in job.order.iter().rev() {
        if (128 <= *v) == outputs {
            list[count] = number(*v);
            count += 1;
        }
    }
}

// The value of output o where the outputs z are forced to 0 and the outputs y to 1.
fn value_of(z: u8, y: u8, o: usize) -> u8
    requires { o < 8 }
    ensures { result ≡ line_value z y o }
{
    if (z >> o) % 2 == 1 {
        return 0;
    }
    2 - (y >> o) % 2
}

// One line: the values of output o at the first count places, written from base on.
fn write_line(count: usize, o: usize, planes: &Planes, base: usize, table: &mut Table)
    requires { (count ≤ 4096) × (o < 8) × (base + count ≤ 32768) }
    ensures { table.new
        ≡ puts_at base count (λ x. line_value (get_or planes.now.zeros x 0) (get_or planes.now.ones x 0) o) table.old }
{
    for x in 0..count {
        table[base + x] = value_of(planes.zeros[x], planes.ones[x], o);
    }
}

// All lines: line k is that of output k of the list.
fn write_lines(job: &Accepted<'_>, list: &[u8; MOST_VARIABLES], planes: &Planes, table: &mut Table)
    ensures { table.new
        ≡ sets table.old 0
        (rect job.now.m (2 ^ job.now.n) (line_at planes.now.zeros planes.now.ones list.now)) }
{
    let count = 1usize << job.n;
    for k in 0..job.m {
        write_line(count, usize::from(list[k]) % 8, planes, k * count, table);
    }
}

// Bytes lo and hi of each record, as numbers read down the order, whose inputs are lent, lowest first.
fn number_field(
    job: &Accepted<'_>,
    inputs: &[u8; MOST_VARIABLES],
    lo: usize,
    hi: usize,
    numbers: &mut [u16; 256],
)
    requires { (lo < 8) × (hi < 8) × (numbers.old ≡ replicate 256 0) }
    ensures { numbers.new ≡ number_array inputs.now job.now.n (field_array job.now.sheet.bytes.now lo hi) }
{
    let mut words = [0u16; 256];
    job.sheet.load(lo, hi, &mut words);
    number_words(inputs, job.n, &words, numbers);
}

// What the records of one kind force by byte at is added to the plane.
fn mark_kind(tests: &Tests, sheet: &Sheet<'_>, kind: u8, at: usize, plane: &mut [u8; 4096])
    requires { at < 8 }
    ensures { plane.new
        ≡ marked_plane tests.now.masks tests.now.values (kind_array sheet.now.bytes.now kind at) (record_count sheet.now.bytes.now) plane.old }
{
    let mut forces = [0u8; 256];
    sheet.load_byte(kind, at, &mut forces);
    mark(tests, &forces, sheet.count(), plane);
}

// The stop records over the plane: what they force by the opposite byte is marked in the complement, so taken out of the plane, and what they force by byte at is put in.
fn lay_stops(tests: &Tests, sheet: &Sheet<'_>, at: usize, opposite: usize, plane: &mut [u8; 4096])
    requires { (at < 8) × (opposite < 8) }
    ensures { plane.new ≡ stops_over tests.now.masks tests.now.values sheet.now.bytes.now at opposite plane.old }
{
    complement(plane);
    mark_kind(tests, sheet, STOP, opposite, plane);
    complement(plane);
    mark_kind(tests, sheet, STOP, at, plane);
}

// One plane: the ordinary records, and where there are stop records these over them.
fn plane_of(tests: &Tests, sheet: &Sheet<'_>, at: usize, opposite: usize, plane: &mut [u8; 4096])
    requires { (at < 8) × (opposite < 8) × (plane.old ≡ replicate 4096 0) }
    ensures { plane.new ≡ plane_of tests.now.masks tests.now.values sheet.now.bytes.now at opposite }
{
    mark_kind(tests, sheet, ORDINARY, at, plane);
    if sheet.any_stop() {
        lay_stops(tests, sheet, at, opposite, plane);
    }
}

// The outputs that are 0, and those that are 1, at each place.
pub fn fill_planes(job: &Accepted<'_>, inputs: &[u8; MOST_VARIABLES], planes: &mut Planes)
    requires { (planes.old.zeros ≡ replicate 4096 0) × (planes.old.ones ≡ replicate 4096 0) }
    ensures zeros_after { planes.new.zeros
        ≡ plane_of (number_array inputs.now job.now.n (field_array job.now.sheet.bytes.now 0 1))
        (number_array inputs.now job.now.n (field_array job.now.sheet.bytes.now 2 3)) job.now.sheet.bytes.now 4 5 }
    ensures ones_after { planes.new.ones
        ≡ plane_of (number_array inputs.now job.now.n (field_array job.now.sheet.bytes.now 0 1))
        (number_array inputs.now job.now.n (field_array job.now.sheet.bytes.now 2 3)) job.now.sheet.bytes.now 5 4 }
{
    let mut tests = Tests {
        masks: [0; 256],
        values: [0; 256],
    };
    number_field(job, inputs, 0, 1, &mut tests.masks);
    number_field(job, inputs, 2, 3, &mut tests.values);
    plane_of(&tests, &job.sheet, 4, 5, &mut planes.zeros);
    plane_of(&tests, &job.sheet, 5, 4, &mut planes.ones);
}

// The whole table, from the planes.
pub fn write(job: &Accepted<'_>, planes: &Planes, table: &mut Table)
    ensures { table.new
        ≡ sets table.old 0
        (rect job.now.m (2 ^ job.now.n) (line_at planes.now.zeros planes.now.ones (output_array job.now.order.now))) }
{
    let mut list = [0u8; MOST_VARIABLES];
    list_of(job, true, &mut list);
    write_lines(job, &list, planes, table);
}
