// Fresh sketches, and packets put in and taken out.
ghost use Rattle.std.specs.Prelude.{◌≡◌, true, false, ℕ, ◌+◌, ◌*◌, ◌<◌, ◌≤◌, pos, length, get_or, set, replicate};
ghost use Rattle.field.specs.Residue.{residue};
ghost use Rattle.params.specs.Lists.{below, found};
ghost use Rattle.params.specs.Params.{prime};
ghost use Rattle.params.specs.Positions.{stands_in, WithinArrays};
ghost use Rattle.buckets.specs.Buckets.{in_limits, plus_minus};
ghost use Rattle.sketch.specs.Sketch.{sketch, small_at, damaged_in, leaves_in, flow_buckets_answer, changed_in, Freshened};
ghost use Rattle.sketch.specs.Packets.{packet_answer, entry_answer, Stepped, Inserted, Withdrawn, Unwound, PacketsInserted, AllInserted};

use buckets::{idsum_plus_minus, is_number, is_small, plus_minus, undamaged, weight, within};
use params::{Params, Refusal, Refused};

fn clear(counts: &mut [i32], idsums: &mut [u32])
    requires { length counts.old ≡ length idsums.old }
    ensures counts_after { counts.new ≡ replicate (length counts.old) (pos 0) }
    ensures idsums_after { idsums.new ≡ replicate (length idsums.old) 0 }
{
    counts.fill(0);
    idsums.fill(0);
}

// Zeros everywhere, whatever was there.
pub fn fresh(p: Params, counts: &mut [i32], idsums: &mut [u32]) -> Result<(), Refused>
    ensures { Freshened p (sketch counts.old idsums.old) result (sketch counts.new idsums.new) }
{
    p.judge_lent(counts.len(), idsums.len())?;
    clear(counts, idsums);
    Ok(())
}

// A packet's flow and number are right.
fn packet(p: Params, f: u32, n: u32) -> Result<(), Refused>
    ensures { result ≡ packet_answer p f n }
{
    if !p.is_flow(f) {
        return Err(Refused(Refusal::Flow, 0));
    }
    if !is_number(n) {
        return Err(Refused(Refusal::Count, 0));
    }
    Ok(())
}

// What is judged before any bucket is looked at.
fn entry(p: Params, counts: usize, idsums: usize, f: u32, n: u32) -> Result<(), Refused>
    ensures { result ≡ entry_answer p counts idsums f n }
{
    p.judge_dimensions(counts, idsums)?;
    packet(p, f, n)
}

// Whether each of a flow's buckets is small.
fn all_small(d: usize, m: usize, ks: &[usize; 4], counts: &[i32], idsums: &[u32]) -> bool
    requires { WithinArrays d m ks.now (length counts.now) (length idsums.now) }
    ensures { result ≡ below d (λ i. small_at (sketch counts.now idsums.now) (i * m + get_or ks.now i 0)) }
{
    for i in 0..d {
        let k = i * m + ks[i];
        if !is_small(counts[k], idsums[k]) {
            return false;
        }
    }
    true
}

// The index of the first of a flow's buckets that is outside its limits.
fn first_damaged(
    d: usize,
    m: usize,
    ks: &[usize; 4],
    counts: &[i32],
    idsums: &[u32],
) -> Option<usize>
    requires { WithinArrays d m ks.now (length counts.now) (length idsums.now) }
    ensures { result ≡ found (d * m) (damaged_in (stands_in d m (λ i. get_or ks.now i 0)) (sketch counts.now idsums.now)) }
{
    for i in 0..d {
        let k = i * m + ks[i];
        if !undamaged(counts[k], idsums[k]) {
            return Some(k);
        }
    }
    None
}

// The index of the first of a flow's buckets whose count would leave its limits.
fn first_leaving(
    minus: bool,
    d: usize,
    m: usize,
    ks: &[usize; 4],
    counts: &[i32],
    n: i32,
) -> Option<usize>
    requires { WithinArrays d m ks.now (length counts.now) (length counts.now) }
    ensures { result ≡ found (d * m) (leaves_in (stands_in d m (λ i. get_or ks.now i 0)) minus n counts.now) }
{
    for i in 0..d {
        let k = i * m + ks[i];
        if !within(plus_minus(minus, counts[k], n)) {
            return Some(k);
        }
    }
    None
}

// A flow's buckets are whole and stay within their limits. Where they are small, and n as small, no more is to be looked at.
fn judge(
    minus: bool,
    d: usize,
    m: usize,
    ks: &[usize; 4],
    counts: &[i32],
    idsums: &[u32],
    n: i32,
) -> Result<(), Refused>
    requires { WithinArrays d m ks.now (length counts.now) (length idsums.now) }
    ensures { result ≡ flow_buckets_answer (d * m) (stands_in d m (λ i. get_or ks.now i 0)) minus n (sketch counts.now idsums.now) }
{
    if is_small(n, 0) && all_small(d, m, ks, counts, idsums) {
        return Ok(());
    }
    if let Some(x) = first_damaged(d, m, ks, counts, idsums) {
        return Err(Refused(Refusal::Damage, x));
    }
    if let Some(y) = first_leaving(minus, d, m, ks, counts, n) {
        return Err(Refused(Refusal::Range, y));
    }
    Ok(())
}

// One array's update: n and the weight w go to position j, or come out of it.
fn put(minus: bool, counts: &mut [i32], idsums: &mut [u32], j: usize, n: i32, w: u32)
    requires j_in_bounds { (j < length counts.old) × (j < length idsums.old) }
    requires n_value { in_limits (plus_minus minus (get_or counts.old j (pos 0)) n) ≡ true }
    requires j_bound { (get_or idsums.old j 0 < prime) × (w < prime) }
    ensures counts_after { counts.new ≡ set counts.old j (plus_minus minus (get_or counts.old j (pos 0)) n) }
    ensures idsums_after { idsums.new ≡ set idsums.old j (residue prime (plus_minus minus (pos (get_or idsums.old j 0)) (pos w))) }
{
    counts[j] = plus_minus(minus, counts[j], n) as i32;
    idsums[j] = idsum_plus_minus(minus, idsums[j], w);
}

// Every array's update. An array's stretch is lent on, to be worked on by itself.
fn put_all(
    minus: bool,
    d: usize,
    m: usize,
    ks: &[usize; 4],
    counts: &mut [i32],
    idsums: &mut [u32],
    n: i32,
    w: u32,
)
    requires within_arrays { WithinArrays d m ks.now (length counts.old) (length idsums.old) }
    requires by_index { (i : ℕ) → i < d → in_limits (plus_minus minus (get_or counts.old (i * m + get_or ks.now i 0) (pos 0)) n) ≡ true }
    requires by_index_2 { ((i : ℕ) → i < d → get_or idsums.old (i * m + get_or ks.now i 0) 0 < prime) × (w < prime) }
    ensures { sketch counts.new idsums.new ≡ changed_in (stands_in d m (λ i. get_or ks.now i 0)) minus n w (sketch counts.old idsums.old) }
{
    for i in 0..d {
        let at = i * m;
        let end = at + m;
        put(
            minus,
            &mut counts[at..end],
            &mut idsums[at..end],
            ks[i],
            n,
            w,
        );
    }
}

// n packets of flow f go in, or come out where `minus` is set. Of the parameters only the dimensions are judged, which is cheap:
// who inserts many packets checks the rest once. It goes into each caller, where the choice is made once and, in a loop over packets, so is the judging of
// the dimensions.
#[inline(always)]
pub fn step(
    minus: bool,
    p: Params,
    counts: &mut [i32],
    idsums: &mut [u32],
    f: u32,
    n: u32,
) -> Result<(), Refused>
    ensures { Stepped minus p f n (sketch counts.old idsums.old) result (sketch counts.new idsums.new) }
{
    entry(p, counts.len(), idsums.len(), f, n)?;
    let x = p.sketched(f);
    let mut ks: [usize; 4] = [0; 4];
    p.positions(x, &mut ks);
    let d = p.d;
    let m = p.m;
    judge(minus, d, m, &ks, counts, idsums, n as i32)?;
    put_all(minus, d, m, &ks, counts, idsums, n as i32, weight(x, n));
    Ok(())
}

// Puts n packets of flow f in.
pub fn insert(
    p: Params,
    counts: &mut [i32],
    idsums: &mut [u32],
    f: u32,
    n: u32,
) -> Result<(), Refused>
    ensures { Inserted p f n (sketch counts.old idsums.old) result (sketch counts.new idsums.new) }
{
    if !p.check() {
        return Err(Refused(Refusal::Param, 0));
    }
    step(false, p, counts, idsums, f, n)
}

// Takes n packets of flow f out again.
pub fn withdraw(
    p: Params,
    counts: &mut [i32],
    idsums: &mut [u32],
    f: u32,
    n: u32,
) -> Result<(), Refused>
    ensures { Withdrawn p f n (sketch counts.old idsums.old) result (sketch counts.new idsums.new) }
{
    if !p.check() {
        return Err(Refused(Refusal::Param, 0));
    }
    step(true, p, counts, idsums, f, n)
}

// Takes the first n packets out again, the last of them first: the sketch is then what it was before they went in.
fn withdraw_first(
    p: Params,
    counts: &mut [i32],
    idsums: &mut [u32],
    flows: &[u32],
    numbers: &[u32],
    n: usize,
)
    requires { (n ≤ length flows.now) × (n ≤ length numbers.now) }
    ensures { Unwound p flows.now numbers.now n (sketch counts.old idsums.old) (sketch counts.new idsums.new) }
{
    for i in (0..n).rev() {
        let _ = step(true, p, counts, idsums, flows[i], numbers[i]);
    }
}

// Packets in turn; the first that is refused has those before it taken out again.
fn insert_packets(
    p: Params,
    counts: &mut [i32],
    idsums: &mut [u32],
    flows: &[u32],
    numbers: &[u32],
) -> Result<(), Refused>
    requires { length flows.now ≡ length numbers.now }
    ensures { PacketsInserted p flows.now numbers.now (sketch counts.old idsums.old) result (sketch counts.new idsums.new) }
{
    for i in 0..flows.len() {
        if let Err(refused) = step(false, p, counts, idsums, flows[i], numbers[i]) {
            withdraw_first(p, counts, idsums, flows, numbers, i);
            return Err(refused);
        }
    }
    Ok(())
}

// Puts many packets in: of the flows, each by its number. Where one is refused, the sketch is as it was before the call.
pub fn insert_all(
    p: Params,
    counts: &mut [i32],
    idsums: &mut [u32],
    flows: &[u32],
    numbers: &[u32],
) -> Result<(), Refused>
    ensures { AllInserted p flows.now numbers.now (sketch counts.old idsums.old) result (sketch counts.new idsums.new) }
{
    p.judge_lent(counts.len(), idsums.len())?;
    if flows.len() != numbers.len() {
        return Err(Refused(Refusal::Length, 0));
    }
    insert_packets(p, counts, idsums, flows, numbers)
}
