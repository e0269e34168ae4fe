// Folding a stored sketch: the sketch with fewer buckets an array, in the lent slices of the larger one. Every call takes every input. What
// cannot be done is refused by number, and a refusal alters nothing.
#![tactic(auto)]

ghost use Rattle.std.specs.Prelude.{◌≡◌, true, not, ◌&&◌, cond, ℕ, ◌+◌, ◌*◌, ◌<◌, ◌≤◌, ltb, pos, length, get_or};
ghost use Rattle.field.specs.Residue.{residue};
ghost use Rattle.params.specs.Lists.{below, found, map_from, touched};
ghost use Rattle.params.specs.Params.{prime};
ghost use Rattle.buckets.specs.Buckets.{in_limits, damaged_of};
ghost use Rattle.sketch.specs.Sketch.{sketch};
ghost use Rattle.fold.specs.Fold.{total, divides as «divides_of», whole_count, whole_idsum, unfit_at, fold_buckets_answer, fold_answer, Folded, Foldable};

use buckets::{first_damaged, undamaged, within};
use params::{PRIME, Params, Refusal, Refused};

// Whether m2 is not 0 and divides m.
fn divides(m2: usize, m: usize) -> bool
    ensures { result ≡ «divides_of» m2 m }
{
    1 <= m2 && m % m2 == 0
}

// Whether n buckets, from `start` on, each `step` behind the one before it, are undamaged, and their whole sum is within the limits.
fn sources_fit(counts: &[i32], idsums: &[u32], start: usize, step: usize, n: usize) -> bool
    requires step_bound { (step ≤ 16384) × (n ≤ 16384) × (length counts.now ≤ 65536) × (length idsums.now ≡ length counts.now) }
    requires by_index { (q : ℕ) → q < n → start + q * step < length counts.now }
    ensures { result ≡ (below n (λ q. not (damaged_of counts.now idsums.now (start + q * step))) && in_limits (total n (λ q. get_or counts.now (start + q * step) (pos 0)))) }
{
    let mut count: i64 = 0;
    for q in 0..n {
        let s = start + q * step;
        if !undamaged(counts[s], idsums[s]) {
            return false;
        }
        count += counts[s] as i64;
    }
    within(count)
}

// The first bucket of the folded sketch that has a damaged source or a whole sum outside the limits. The first source of a bucket stands at
// its position, in the same array.
fn first_unfit(d: usize, m: usize, m2: usize, counts: &[i32], idsums: &[u32]) -> Option<usize>
    requires { Foldable d m m2 (length counts.now) (length idsums.now) }
    ensures { result ≡ found (d * m2) (unfit_at d m m2 (sketch counts.now idsums.now)) }
{
    let n = m / m2;
    for i in 0..d {
        for j in 0..m2 {
            if !sources_fit(counts, idsums, i * m + j, m2, n) {
                return Some(i * m2 + j);
            }
        }
    }
    None
}

// Judges the buckets. One pass over all of them tells whether anything is at fault. Where something is, damage is looked for, which comes
// first; where there is none, the pass has found the first whole sum that leaves the limits.
fn judge_buckets(p: Params, m2: usize, counts: &[i32], idsums: &[u32]) -> Result<(), Refused>
    requires { Foldable p.d p.m m2 (length counts.now) (length idsums.now) }
    ensures { result ≡ fold_buckets_answer p m2 (sketch counts.now idsums.now) }
{
    let Some(unfit) = first_unfit(p.d, p.m, m2, counts, idsums) else {
        return Ok(());
    };
    let damaged = first_damaged(counts, idsums);
    if damaged < counts.len() {
        return Err(Refused(Refusal::Damage, damaged));
    }
    Err(Refused(Refusal::Range, unfit))
}

// What a fold answers. Nothing is altered.
fn judge(p: Params, m2: usize, counts: &[i32], idsums: &[u32]) -> Result<(), Refused>
    ensures { result ≡ fold_answer p m2 (sketch counts.now idsums.now) }
{
    p.judge_lent(counts.len(), idsums.len())?;
    if !divides(m2, p.m) {
        return Err(Refused(Refusal::Fold, 0));
    }
    judge_buckets(p, m2, counts, idsums)
}

// The whole sums of the buckets that go into one.
#[derive(Clone, Copy)]
struct Sums {
    count: i64,
    idsum: u64,
}

// The sums over n buckets, from `start` on, each `step` behind the one before it.
fn sum_of(counts: &[i32], idsums: &[u32], start: usize, step: usize, n: usize) -> Sums
    requires step_bound { (step ≤ 16384) × (n ≤ 16384) × (length counts.now ≤ 65536) × (length idsums.now ≡ length counts.now) }
    requires by_index { (q : ℕ) → q < n → start + q * step < length counts.now }
    ensures count_value { result.count ≡ total n (λ q. get_or counts.now (start + q * step) (pos 0)) }
    ensures idsum_value { pos result.idsum ≡ total n (λ q. pos (get_or idsums.now (start + q * step) 0)) }
{
    let mut count: i64 = 0;
    let mut idsum: u64 = 0;
    // The index runs along: with a product in each turn, as above, where the test for damage outweighs it, this loop takes a third more time.
    let mut s = start;
    for _ in 0..n {
        count += counts[s] as i64;
        idsum += idsums[s] as u64;
        s += step;
    }
    Sums { count, idsum }
}

// Each bucket of the folded sketch is stored where it belongs, in rising order: each source of a later one lies behind it.
fn gather(d: usize, m: usize, m2: usize, counts: &mut [i32], idsums: &mut [u32])
    requires foldable { Foldable d m m2 (length counts.old) (length idsums.old) }
    requires by_index { (k : ℕ) → k < d * m2 → in_limits (whole_count d m m2 counts.old k) ≡ true }
    ensures counts_after { counts.new ≡ touched (λ k. ltb k (d * m2)) (λ k x. whole_count d m m2 counts.old k) counts.old }
    ensures idsums_after { idsums.new ≡ touched (λ k. ltb k (d * m2)) (λ k x. residue prime (whole_idsum d m m2 idsums.old k)) idsums.old }
{
    let n = m / m2;
    for i in 0..d {
        for j in 0..m2 {
            let k = i * m2 + j;
            let sums = sum_of(counts, idsums, i * m + j, m2, n);
            counts[k] = sums.count as i32;
            idsums[k] = (sums.idsum % PRIME as u64) as u32;
        }
    }
}

// Zeros from `first` on.
fn clear_rest(first: usize, counts: &mut [i32], idsums: &mut [u32])
    requires { (length idsums.old ≡ length counts.old) × (first ≤ length counts.old) }
    ensures counts_after { counts.new ≡ map_from 0 (λ k x. cond (ltb k first) x (pos 0)) counts.old }
    ensures idsums_after { idsums.new ≡ map_from 0 (λ k x. cond (ltb k first) x 0) idsums.old }
{
    counts[first..].fill(0);
    idsums[first..].fill(0);
}

// Folds the sketch of parameters p to m2 buckets an array: bucket j of each array is added into bucket j mod m2. The folded sketch is the
// first d * m2 buckets of the lent slices, and the rest is zeros. The answer is its parameters.
pub fn fold(p: Params, counts: &mut [i32], idsums: &mut [u32], m2: usize) -> Result<Params, Refused>
    ensures { Folded p m2 (sketch counts.old idsums.old) result (sketch counts.new idsums.new) }
{
    judge(p, m2, counts, idsums)?;
    gather(p.d, p.m, m2, counts, idsums);
    clear_rest(p.d * m2, counts, idsums);
    Ok(p.resized(m2))
}
