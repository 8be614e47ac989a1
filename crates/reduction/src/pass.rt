// The reduction of a job and its sheet: one pass down the heights.
ghost use Rattle.std.specs.Prelude.{◌≡◌, false, cond, List, ℕ, ◌≤◌, ◌<◌, ◌+◌, ◌-◌, ◌*◌, eqb, length, get_or, replicate, Ok, Err, OnOk};
ghost use Rattle.std.proofs.lemmas.List.Edits.{sets};
ghost use Rattle.laws.specs.Lists.{puts};
ghost use Rattle.refusals.specs.declared.Refusal.TheVariants.{TooWide};
ghost use Rattle.refusals.specs.Numbers.{answered};
ghost use Rattle.sheet_spec.specs.Job.{is_input};
ghost use Rattle.sheet_spec.specs.Given.{job_given};
ghost use Rattle.sheet_spec.specs.Refusals.{sheet_refusal};
ghost use Rattle.sheet_spec.specs.Table.{table, table_after};
ghost use Rattle.reduction_spec.specs.Columns.{width};
ghost use Rattle.reduction_spec.specs.Merge.{refuse7};
ghost use Rattle.reduction_spec.specs.Diagram.{node_words};
ghost use Rattle.reduction.specs.Packed.{size, packed_word, places_with};
ghost use Rattle.reduction.specs.Lowering.{narrow_or, firsts_below, cliques_below, product_below, nodes_over};
ghost use Rattle.reduction_spec.specs.Reduction.{reduction_refusal, final_table, final_nodes, reduction};
ghost use Rattle.reduction_spec.specs.Given.{reduction_given};

use crate::heights::step;
use crate::packed::pack;
use crate::state::{Height, Planes};
use reduction_spec::{LINKS, Links, NodeWords, Widths};
use refusals::Refusal;
use sheet_spec::{Job, TABLE_BYTES};

// The planes of the sheet's table, where no refusal is given.
fn fill_planes(job: &Job<'_>, sheet: &[u8], planes: &mut Planes) -> Result<(), Refusal>
    ensures value { answered result ≡ sheet_refusal (job_given job.now) sheet.now }
    ensures zero_after { answered result ≡ 0
        → planes.new.zero
        ≡ puts 512 (packed_word (places_with (table_after (job_given job.now) sheet.now (replicate 32768 0)) job.now.n job.now.m 0)) planes.old.zero }
    ensures one_after { answered result ≡ 0
        → planes.new.one
        ≡ puts 512 (packed_word (places_with (table_after (job_given job.now) sheet.now (replicate 32768 0)) job.now.n job.now.m 1)) planes.old.one }
{
    let mut table = [0u8; TABLE_BYTES];
    sheet::fill_table(job, sheet, &mut table)?;
    pack(job.n, job.m, &table, 0, &mut planes.zero);
    pack(job.n, job.m, &table, 1, &mut planes.one);
    Ok(())
}

fn is_input(v: u8) -> bool
    ensures { result ≡ is_input v }
{
    v < 128
}

// The inputs below a variable, of which a stand there and below.
fn inputs_below(input: bool, a: usize) -> usize
    ensures { result ≡ cond input (a - 1) a }
{
    if input {
        return a.saturating_sub(1);
    }
    a
}

// The words of a column of 2^a places.
fn words_in(a: usize) -> usize
    requires { a ≤ 12 }
    ensures { result ≡ size a }
{
    if a < 3 {
        return 1;
    }
    1 << (a - 3)
}

// The step to a height, where w columns stand right above it and at nodes above those.
fn height_at(input: bool, a: usize, height: usize, w: usize, at: usize) -> Height
    requires { (a ≤ 12) × (a ≤ height) }
    ensures { result ≡ record { input = input; a = a; b = height - a; size = size a; w = w; at = at } }
{
    Height {
        input,
        a,
        b: height - a,
        size: words_in(a),
        w,
        at,
    }
}

// The pass down the heights, over the planes of an accepted sheet's table: the number of nodes, unless some height is too wide.
fn all_heights(
    job: &Job<'_>,
    planes: &mut Planes,
    widths: &mut Widths,
    words: &mut NodeWords,
) -> Result<usize, Refusal>
    requires zeros { (widths.old ≡ replicate 20 0) × (words.old ≡ replicate 30720 0) }
    requires accepted { (s : List ℕ) × (sheet_refusal (job_given job.now) s ≡ 0)
        × (planes.old.zero ≡ puts 512 (packed_word (places_with (table_after (job_given job.now) s (replicate 32768 0)) job.now.n job.now.m 0)) (replicate 1024 0))
        × (planes.old.one ≡ puts 512 (packed_word (places_with (table_after (job_given job.now) s (replicate 32768 0)) job.now.n job.now.m 1)) (replicate 1024 0)) }
    ensures { (s : List ℕ) → (sheet_refusal (job_given job.now) s ≡ 0)
        × (planes.old.zero ≡ puts 512 (packed_word (places_with (table_after (job_given job.now) s (replicate 32768 0)) job.now.n job.now.m 0)) (replicate 1024 0))
        × (planes.old.one ≡ puts 512 (packed_word (places_with (table_after (job_given job.now) s (replicate 32768 0)) job.now.n job.now.m 1)) (replicate 1024 0))
        → (result ≡ cond (refuse7 (job_given job.now) (table (job_given job.now) s)) (Err TooWide) (Ok (length (final_nodes (job_given job.now) s))))
        × (refuse7 (job_given job.now) (table (job_given job.now) s) ≡ false
        → ((i : ℕ) → i < job.now.n + job.now.m → get_or widths.new i 0 ≡ width (job_given job.now) (final_table (job_given job.now) s) i)
        × (words.new ≡ sets (replicate 30720 0) 0 (node_words (final_nodes (job_given job.now) s)))) }
{
    let mut link = [0u8; LINKS];
    let t = job.n + job.m;
    let mut a = job.n;
    let mut w = 1;
    let mut at = 0;
    for k in 0..t {
        let input = is_input(job.order[k]);
        a = inputs_below(input, a);
        let height = t - 1 - k;
        let here = height_at(input, a, height, w, at);
        let count = step(&here, planes, &mut link, words)?;
        widths[height] = count as u16;
        at += w;
        w = count;
    }
    Ok(at)
}

// The answer; where nothing is refused, widths and words hold the widths and the node words. Both are lent as zeros.
pub fn reduce_all(
    job: &Job<'_>,
    sheet: &[u8],
    widths: &mut Widths,
    words: &mut NodeWords,
) -> Result<u16, Refusal>
    requires { (widths.old ≡ replicate 20 0) × (words.old ≡ replicate 30720 0) }
    ensures value { reduction_given result ≡ reduction (job_given job.now) sheet.now }
    ensures widths_after { reduction_refusal (job_given job.now) sheet.now ≡ 0
        → (i : ℕ) → i < job.now.n + job.now.m → get_or widths.new i 0 ≡ width (job_given job.now) (final_table (job_given job.now) sheet.now) i }
    ensures words_after { reduction_refusal (job_given job.now) sheet.now ≡ 0
        → words.new ≡ sets (replicate 30720 0) 0 (node_words (final_nodes (job_given job.now) sheet.now)) }
{
    let mut planes = Planes {
        zero: [0; 1024],
        one: [0; 1024],
    };
    fill_planes(job, sheet, &mut planes)?;
    let nodes = all_heights(job, &mut planes, widths, words)?;
    Ok(nodes as u16)
}
