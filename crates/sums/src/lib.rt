// The sum and the difference of two sketches, bucket by bucket, into the first. Every call takes every input. What cannot be done is
// refused by number, and a refusal alters nothing.
#![tactic(auto)]

ghost use Rattle.std.specs.Prelude.{◌≡◌, true, false, ◌&&◌, ℕ, ◌<◌, ◌≤◌, pos, length, get_or};
ghost use Rattle.params.specs.Lists.{below, found};
ghost use Rattle.params.specs.Params.{prime};
ghost use Rattle.buckets.specs.Buckets.{in_limits, plus_minus};
ghost use Rattle.sketch.specs.Sketch.{sketch, small_at};
ghost use Rattle.sums.specs.Sums.{both_lent_answer, either_damaged, leaves, combine_answer, combined, Combined};

use buckets::{idsum_plus_minus, is_small, plus_minus, undamaged, within};
use params::{Params, Refusal, Refused};

// The parameters of both sketches and the four lengths.
fn judge_both(p: Params, q: Params, c: usize, s: usize, e: usize, t: usize) -> Result<(), Refused>
    ensures { result ≡ both_lent_answer p q c s e t }
{
    if !p.check() || !q.check() {
        return Err(Refused(Refusal::Param, 0));
    }
    if !p.same(q) {
        return Err(Refused(Refusal::Mismatch, 0));
    }
    p.judge_dimensions(c, s)?;
    p.judge_dimensions(e, t)
}

// The first index at which a bucket of either sketch is outside its limits.
fn first_damaged(
    counts: &[i32],
    idsums: &[u32],
    other_counts: &[i32],
    other_idsums: &[u32],
) -> Option<usize>
    requires { (length idsums.now ≡ length counts.now) × (length other_counts.now ≡ length counts.now) × (length other_idsums.now ≡ length counts.now) }
    ensures { result ≡ found (length counts.now) (either_damaged (sketch counts.now idsums.now) (sketch other_counts.now other_idsums.now)) }
{
    for i in 0..counts.len() {
        if !undamaged(counts[i], idsums[i]) {
            return Some(i);
        }
        if !undamaged(other_counts[i], other_idsums[i]) {
            return Some(i);
        }
    }
    None
}

// The first index at which the sum or the difference of the counts leaves the limits.
fn first_leaving(minus: bool, counts: &[i32], other_counts: &[i32]) -> Option<usize>
    requires { length other_counts.now ≡ length counts.now }
    ensures { result ≡ found (length counts.now) (leaves minus counts.now other_counts.now) }
{
    for i in 0..counts.len() {
        if !within(plus_minus(minus, counts[i], other_counts[i])) {
            return Some(i);
        }
    }
    None
}

// Whether every bucket of both sketches is small. Those that are not are counted, without an early end, so that the compiler can do
// several buckets at once.
fn all_small(counts: &[i32], idsums: &[u32], other_counts: &[i32], other_idsums: &[u32]) -> bool
    requires idsums_len { (length idsums.now ≡ length counts.now) × (length other_counts.now ≡ length counts.now) × (length other_idsums.now ≡ length counts.now) }
    requires counts_len_bound { length counts.now ≤ 65536 }
    ensures { result ≡ below (length counts.now) (λ k. small_at (sketch counts.now idsums.now) k && small_at (sketch other_counts.now other_idsums.now) k) }
{
    let mut large: u32 = 0;
    for i in 0..counts.len() {
        if !is_small(counts[i], idsums[i]) {
            large += 1;
        }
        if !is_small(other_counts[i], other_idsums[i]) {
            large += 1;
        }
    }
    large == 0
}

// The answer, which alters nothing. Where all buckets are small, no more is to be looked at.
fn judge(
    minus: bool,
    p: Params,
    q: Params,
    counts: &[i32],
    idsums: &[u32],
    other_counts: &[i32],
    other_idsums: &[u32],
) -> Result<(), Refused>
    ensures { result ≡ combine_answer minus p q (sketch counts.now idsums.now) (sketch other_counts.now other_idsums.now) }
{
    judge_both(
        p,
        q,
        counts.len(),
        idsums.len(),
        other_counts.len(),
        other_idsums.len(),
    )?;
    if all_small(counts, idsums, other_counts, other_idsums) {
        return Ok(());
    }
    if let Some(x) = first_damaged(counts, idsums, other_counts, other_idsums) {
        return Err(Refused(Refusal::Damage, x));
    }
    if let Some(y) = first_leaving(minus, counts, other_counts) {
        return Err(Refused(Refusal::Range, y));
    }
    Ok(())
}

fn put_all(
    minus: bool,
    counts: &mut [i32],
    idsums: &mut [u32],
    other_counts: &[i32],
    other_idsums: &[u32],
)
    requires idsums_len { (length idsums.old ≡ length counts.old) × (length other_counts.now ≡ length counts.old) × (length other_idsums.now ≡ length counts.old) }
    requires by_index { (k : ℕ) → k < length counts.old → in_limits (plus_minus minus (get_or counts.old k (pos 0)) (get_or other_counts.now k (pos 0))) ≡ true }
    requires by_index_2 { (k : ℕ) → k < length counts.old → (get_or idsums.old k 0 < prime) × (get_or other_idsums.now k 0 < prime) }
    ensures { sketch counts.new idsums.new ≡ combined minus (sketch counts.old idsums.old) (sketch other_counts.now other_idsums.now) }
{
    for i in 0..counts.len() {
        counts[i] = plus_minus(minus, counts[i], other_counts[i]) as i32;
        idsums[i] = idsum_plus_minus(minus, idsums[i], other_idsums[i]);
    }
}

// Judge, then do.
fn combine(
    minus: bool,
    p: Params,
    q: Params,
    counts: &mut [i32],
    idsums: &mut [u32],
    other_counts: &[i32],
    other_idsums: &[u32],
) -> Result<(), Refused>
    ensures { Combined minus p q (sketch counts.old idsums.old) (sketch other_counts.now other_idsums.now) result (sketch counts.new idsums.new) }
{
    judge(minus, p, q, counts, idsums, other_counts, other_idsums)?;
    put_all(minus, counts, idsums, other_counts, other_idsums);
    Ok(())
}

// The first sketch, of parameters p, with the second, of parameters q, added.
pub fn add(
    p: Params,
    q: Params,
    counts: &mut [i32],
    idsums: &mut [u32],
    other_counts: &[i32],
    other_idsums: &[u32],
) -> Result<(), Refused>
    ensures { Combined false p q (sketch counts.old idsums.old) (sketch other_counts.now other_idsums.now) result (sketch counts.new idsums.new) }
{
    combine(false, p, q, counts, idsums, other_counts, other_idsums)
}

// The first sketch, of parameters p, less the second, of parameters q.
pub fn subtract(
    p: Params,
    q: Params,
    counts: &mut [i32],
    idsums: &mut [u32],
    other_counts: &[i32],
    other_idsums: &[u32],
) -> Result<(), Refused>
    ensures { Combined true p q (sketch counts.old idsums.old) (sketch other_counts.now other_idsums.now) result (sketch counts.new idsums.new) }
{
    combine(true, p, q, counts, idsums, other_counts, other_idsums)
}
