// The ring of waiting buckets: `queue[e] % 65536` is the bucket at place e of the ring, for `waiting` places from `head` on, and `marks[k] % 2` is 1
// where bucket k waits. What stands above these belongs to the table's chains, and stays.
ghost use Rattle.std.specs.Prelude.{◌≡◌, ◌+◌, ◌*◌, ◌<◌, ◌≤◌, length};
ghost use Rattle.params.specs.Positions.{WithinArrays};
ghost use Rattle.peel.specs.Ring.{ring_place, Ring, Popped, Joined, Requeued, Started};

// The place i steps after head in a ring of n.
pub(crate) fn ring_place(head: usize, i: usize, n: usize) -> usize
    requires { (head < n) × (i ≤ n) × (n ≤ 65536) }
    ensures { result ≡ ring_place n head i }
{
    if head + i < n { head + i } else { head + i - n }
}

// The head of the queue, whose mark goes.
pub(crate) fn pop(queue: &[u32], marks: &mut [u32], head: usize, waiting: usize) -> usize
    requires { Ring (length queue.now) queue.now marks.old head waiting × (0 < waiting) }
    ensures { Popped (length queue.now) queue.now marks.old marks.new head waiting result }
{
    let k = (queue[head] % 65536) as usize;
    marks[k] = marks[k] / 2 * 2;
    k
}

// k goes to the queue's back, unless it waits already: how many wait then.
fn push(queue: &mut [u32], marks: &mut [u32], head: usize, waiting: usize, k: usize) -> usize
    requires { Ring (length queue.old) queue.old marks.old head waiting × (k < length queue.old) × (length queue.old ≤ 65536) }
    ensures { Joined (length queue.old) k queue.old marks.old head waiting queue.new marks.new result }
{
    if marks[k] % 2 == 0 {
        let at = ring_place(head, waiting, queue.len());
        queue[at] = queue[at] / 65536 * 65536 + k as u32;
        marks[k] = marks[k] / 2 * 2 + 1;
        return waiting + 1;
    }
    waiting
}

// In rising array order, a flow's buckets that have a count go to the queue's back: how many wait then.
pub(crate) fn requeue(
    d: usize,
    m: usize,
    ks: &[usize; 4],
    counts: &[i32],
    queue: &mut [u32],
    marks: &mut [u32],
    head: usize,
    first: usize,
) -> usize
    requires { WithinArrays d m ks.now (length counts.now) (length counts.now) × Ring (d * m) queue.old marks.old head first }
    ensures { Requeued d m ks.now counts.now queue.old marks.old head first queue.new marks.new result }
{
    let mut waiting = first;
    for i in 0..d {
        let j = i * m + ks[i];
        if counts[j] != 0 {
            waiting = push(queue, marks, head, waiting, j);
        }
    }
    waiting
}

// Every bucket with a count goes to an empty queue, in rising index: how many there are.
pub(crate) fn start(counts: &[i32], queue: &mut [u32], marks: &mut [u32]) -> usize
    requires { (length counts.now ≡ length queue.old) × (length marks.old ≡ length queue.old) × (0 < length queue.old) × (length queue.old ≤ 65536) }
    ensures { Started counts.now (length queue.old) queue.new marks.new result }
{
    queue.fill(0);
    marks.fill(0);
    let mut waiting = 0;
    for (i, c) in counts.iter().enumerate() {
        if *c != 0 {
            waiting = push(queue, marks, 0, waiting, i);
        }
    }
    waiting
}
