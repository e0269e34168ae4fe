// The table of flows: the first n slots of two slices, in the order of first takes. In the walk a slot holds what is sketched for its flow; at
// the end the flows are told. Its slots stand in chains, as many as there are
// buckets, so that a flow is looked up along its own chain alone: `marks[k] / 2` is 1 + the newest slot of chain k, and
// `queue[e] / 65536` is 1 + the next lower slot in the chain of slot e. A slot past the queue's end, in a table with more slots than
// there are buckets, has no room for a link and is scanned: each take then compares as many flows more as there are entries past
// d * m, at most 65536.
ghost use Rattle.std.specs.Prelude.{◌≡◌, true, ◌/◌, ◌<◌, ◌≤◌, ltb, pos, ◌+ℤ◌, length, get_or};
ghost use Rattle.field.specs.Parts.{up, down};
ghost use Rattle.buckets.specs.Buckets.{in_limits};
ghost use Rattle.walk.specs.Walk.{entry_of};
ghost use Rattle.params.specs.Params.{Dimensions};
ghost use Rattle.params.specs.Lists.{touched};
ghost use Rattle.peel.specs.Chains.{chain_by, chain_key, Chained, Linked, Relinked};
ghost use Rattle.peel.specs.Table.{table_of, told_slots, Finds, FindsFrom, Credited, Lists};

use params::{PRIME, Params};

// How many entries a closed table has, the sum of their positive numbers, and that of the negative ones without their sign.
#[derive(Clone, Copy)]
pub(crate) struct Listed {
    pub entries: usize,
    pub lost: u64,
    pub extra: u64,
}

// Which of so many chains a flow belongs to, by its value in an array with the pair a, b, before that is reduced to a position.
// The multiplier is 2^32 over the golden ratio: it parts values that differ by multiples of m, which those of flows at one place do.
fn chain_by(a: u32, b: u32, chains: usize, f: u32) -> usize
    requires { chains ≤ 65536 }
    ensures { result ≡ chain_by a b chains f }
{
    let value = (a as u64 * f as u64 + b as u64) % PRIME as u64;
    let spread = value * 2654435769 % 4294967296 / 65536;
    (spread * chains as u64 / 65536) as usize
}

// The chain of flow f. It goes by the pair of array 1, so that who does not know the parameters cannot foresee it.
pub(crate) fn chain_of(p: Params, f: u32) -> usize
    requires { Dimensions p }
    ensures { result ≡ chain_key p f }
{
    let a = p.a;
    let b = p.b;
    chain_by(a[0], b[0], p.d * p.m, f)
}

// The slot of f among those from `first` on and below n, or n.
fn scan(flows: &[u32], first: usize, n: usize, f: u32) -> usize
    requires { n ≤ length flows.now }
    ensures { FindsFrom first flows.now n f result }
{
    (first..n).find(|i| flows[*i] == f).unwrap_or(n)
}

// The slot of f, which belongs to chain k, among the first n, or n.
pub(crate) fn find(flows: &[u32], queue: &[u32], marks: &[u32], n: usize, f: u32, k: usize) -> usize
    requires { Chained (length queue.now) flows.now queue.now marks.now n f k × (n ≤ length flows.now) × (k < length marks.now) }
    ensures { Finds flows.now n f result }
{
    let mut x = (marks[k] / 2) as usize;
    while x != 0 {
        let e = x - 1;
        if flows[e] == f {
            return e;
        }
        x = (queue[e] / 65536) as usize;
    }
    scan(flows, queue.len(), n, f)
}

// Slot e becomes the newest of the chain of k.
fn link(queue: &mut [u32], marks: &mut [u32], e: usize, k: usize)
    requires { (e < length queue.old) × (length queue.old ≤ 65536) × (k < length marks.old) × (get_or marks.old k 0 / 2 ≤ e) }
    ensures { Linked e k queue.old marks.old queue.new marks.new }
{
    queue[e] = marks[k] / 2 * 65536 + queue[e] % 65536;
    marks[k] = (e as u32 + 1) * 2 + marks[k] % 2;
}

// c more for f, whose slot is `at` and which belongs to chain k: the number of entries then.
pub(crate) fn credit(
    flows: &mut [u32],
    numbers: &mut [i32],
    queue: &mut [u32],
    marks: &mut [u32],
    n: usize,
    at: usize,
    f: u32,
    k: usize,
    c: i32,
) -> usize
    requires finds { Finds flows.old n f at × (length numbers.old ≡ length flows.old) × (at < length flows.old) × (n ≤ length flows.old) × (in_limits (entry_of f (table_of flows.old numbers.old n) +ℤ c) ≡ true) }
    requires queue_len_bound { (length queue.old ≤ 65536) × (k < length marks.old) × (get_or marks.old k 0 / 2 ≤ n) }
    ensures { Credited f c flows.old numbers.old n flows.new numbers.new result × Relinked f k flows.old queue.old marks.old n flows.new queue.new marks.new result }
{
    if at < n {
        numbers[at] += c;
        return n;
    }
    flows[at] = f;
    numbers[at] = c;
    if at < queue.len() {
        link(queue, marks, at, k);
    }
    n + 1
}

// A number's part above 0.
fn up(z: i32) -> u64
    ensures { result ≡ up z }
{
    u64::from(z.max(0).unsigned_abs())
}

// Its part below 0, without the sign.
fn down(z: i32) -> u64
    ensures { result ≡ down z }
{
    u64::from(z.min(0).unsigned_abs())
}

// The close: entries with number 0 are dropped, the others keep their order, and all slots past them are 0. It is one pass: an entry that
// is kept moves to the lowest slot that is free; where none before it was dropped it stands there already, and is not written.
pub(crate) fn close(flows: &mut [u32], numbers: &mut [i32], n: usize) -> Listed
    requires { (n ≤ length flows.old) × (length numbers.old ≡ length flows.old) × (length flows.old ≤ 65536) }
    ensures { Lists flows.old numbers.old n result flows.new numbers.new }
{
    let mut entries = 0;
    let mut lost: u64 = 0;
    let mut extra: u64 = 0;
    for i in 0..n {
        let c = numbers[i];
        if c != 0 {
            if entries < i {
                flows[entries] = flows[i];
                numbers[entries] = c;
            }
            entries += 1;
            lost += up(c);
            extra += down(c);
        }
    }
    flows[entries..].fill(0);
    numbers[entries..].fill(0);
    Listed {
        entries,
        lost,
        extra,
    }
}

// The first n slots without their last eight bits: the profile is asked for once, outside the loop.
fn tell_each(flows: &mut [u32], n: usize)
    requires { n ≤ length flows.old }
    ensures { flows.new ≡ touched (λ i. ltb i n) (λ i x. x / 256) flows.old }
{
    for x in &mut flows[..n] {
        *x /= 256;
    }
}

// Tells the flows of the first n slots, which hold what is sketched for them. In the plain profile that is the flow itself.
pub(crate) fn tell(p: Params, flows: &mut [u32], n: usize)
    requires { n ≤ length flows.old }
    ensures { flows.new ≡ told_slots p n flows.old }
{
    if p.fingerprinted() {
        tell_each(flows, n);
    }
}
