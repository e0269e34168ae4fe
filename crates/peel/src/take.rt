// One take: whether a flow's counts stay within their limits, its buckets less what was found, and the take as a whole.
ghost use Rattle.std.specs.Prelude.{◌≡◌, true, ℕ, ◌+◌, ◌*◌, ◌<◌, pos, ◌-ℤ◌, length, get_or};
ghost use Rattle.params.specs.Params.{prime};
ghost use Rattle.params.specs.Positions.{WithinArrays};
ghost use Rattle.buckets.specs.Buckets.{in_limits, plus_minus};
ghost use Rattle.peel.specs.Slices.{slices};
ghost use Rattle.peel.specs.Nonzero.{one_if_nonzero, nonzero_buckets, MayLessen, Lessened, Applied};
ghost use Rattle.peel.specs.Rep.{Takes, Took};

use crate::queue::requeue;
use crate::table::credit;
use buckets::{idsum_plus_minus, plus_minus, within};
use params::Params;

// After a take: how many buckets wait, how many are not all zero, and how many entries the table has.
#[derive(Clone, Copy)]
pub(crate) struct Taken {
    pub waiting: usize,
    pub nonzero: usize,
    pub entries: usize,
}

// x more c, or x less c, keeps within the limits.
pub(crate) fn fits(minus: bool, x: i32, c: i32) -> bool
    ensures { result ≡ in_limits (plus_minus minus x c) }
{
    within(plus_minus(minus, x, c))
}

// 1 where a bucket is not all zero.
fn one_if_nonzero(c: i32, s: u32) -> usize
    ensures { result ≡ one_if_nonzero c s }
{
    usize::from(c != 0 || s != 0)
}

// How many buckets are not all zero.
pub(crate) fn count_nonzero(counts: &[i32], idsums: &[u32]) -> usize
    requires { length counts.now ≡ length idsums.now }
    ensures { result ≡ nonzero_buckets counts.now idsums.now }
{
    let mut nonzero = 0;
    for (c, s) in counts.iter().zip(idsums) {
        nonzero += one_if_nonzero(*c, *s);
    }
    nonzero
}

// Bucket j less c and s: how many buckets are not all zero then.
fn take_one(
    counts: &mut [i32],
    idsums: &mut [u32],
    j: usize,
    c: i32,
    s: u32,
    nonzero: usize,
) -> usize
    requires { MayLessen counts.old idsums.old j c s nonzero }
    ensures { Lessened counts.old idsums.old j c s counts.new idsums.new result }
{
    let x = counts[j];
    let y = idsums[j];
    let v = x - c;
    let w = idsum_plus_minus(true, y, s);
    counts[j] = v;
    idsums[j] = w;
    nonzero + one_if_nonzero(v, w) - one_if_nonzero(x, y)
}

// The sketch less c and s in each of a flow's buckets: how many buckets are not all zero then.
pub(crate) fn apply(
    d: usize,
    m: usize,
    ks: &[usize; 4],
    counts: &mut [i32],
    idsums: &mut [u32],
    c: i32,
    s: u32,
    first: usize,
) -> usize
    requires within_arrays { WithinArrays d m ks.now (length counts.old) (length idsums.old) × (first ≡ nonzero_buckets counts.old idsums.old) }
    requires by_index { (i : ℕ) → i < d → in_limits (get_or counts.old (i * m + get_or ks.now i 0) (pos 0) -ℤ c) ≡ true }
    requires by_index_2 { ((i : ℕ) → i < d → get_or idsums.old (i * m + get_or ks.now i 0) 0 < prime) × (s < prime) }
    ensures { Applied d m ks.now c s counts.old idsums.old counts.new idsums.new result }
{
    let mut nonzero = first;
    for i in 0..d {
        let j = i * m + ks[i];
        nonzero = take_one(counts, idsums, j, c, s, nonzero);
    }
    nonzero
}

// Takes flow f, whose positions are ks, whose chain is `chain` and whose slot is `at`, with the count c and the idsum s of the
// popped bucket: from its buckets, into the table, and then its buckets that have a count go to the queue's back.
pub(crate) fn take_flow(
    p: Params,
    ks: &[usize; 4],
    counts: &mut [i32],
    idsums: &mut [u32],
    flows: &mut [u32],
    numbers: &mut [i32],
    queue: &mut [u32],
    marks: &mut [u32],
    head: usize,
    waiting: usize,
    nonzero: usize,
    entries: usize,
    chain: usize,
    at: usize,
    f: u32,
    c: i32,
    s: u32,
) -> Taken
    requires { Takes p (slices counts.old idsums.old flows.old numbers.old queue.old marks.old) head waiting nonzero entries ks.now chain at f c s }
    ensures { Took p (slices counts.old idsums.old flows.old numbers.old queue.old marks.old) head waiting entries f c s result (slices counts.new idsums.new flows.new numbers.new queue.new marks.new) }
{
    let d = p.d;
    let m = p.m;
    let still_nonzero = apply(d, m, ks, counts, idsums, c, s, nonzero);
    let listed = credit(flows, numbers, queue, marks, entries, at, f, chain, c);
    let queued = requeue(d, m, ks, counts, queue, marks, head, waiting);
    Taken {
        waiting: queued,
        nonzero: still_nonzero,
        entries: listed,
    }
}
