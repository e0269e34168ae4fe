// The walk: a loop that yields its ending, out of the nested range test over the arrays too.
ghost use Rattle.std.specs.Prelude.{◌+◌, ◌<◌, length};
ghost use Rattle.sketch.specs.Sketch.{sketch};
ghost use Rattle.walk.specs.Walk.{run, walk as «walk_of»};
ghost use Rattle.walk.specs.Purity.{rule_of};
ghost use Rattle.peel.specs.Slices.{slices};
ghost use Rattle.peel.specs.Rep.{Holds, Peelable, state_of, Walks};

use crate::queue::{pop, ring_place, start};
use crate::table::{chain_of, find};
use crate::take::{Taken, count_nonzero, fits, take_flow};
use params::Params;
use walk::Ending;

// How a walk ended, after how many pops, and how many entries its table has.
#[derive(Clone, Copy)]
pub(crate) struct Walked {
    pub ending: Ending,
    pub pops: u32,
    pub entries: usize,
}

// The walk from a queue of `first_waiting` buckets, where `first_nonzero` buckets are not all zero.
fn walk(
    p: Params,
    counts: &mut [i32],
    idsums: &mut [u32],
    flows: &mut [u32],
    numbers: &mut [i32],
    queue: &mut [u32],
    marks: &mut [u32],
    first_waiting: usize,
    first_nonzero: usize,
    allowance: u32,
) -> Walked
    requires { Holds p (slices counts.old idsums.old flows.old numbers.old queue.old marks.old) 0 first_waiting first_nonzero 0 }
    ensures { Walks (run (rule_of p) (length flows.old) allowance 0 (state_of (slices counts.old idsums.old flows.old numbers.old queue.old marks.old) 0 first_waiting 0)) (length flows.old) result (slices counts.new idsums.new flows.new numbers.new queue.new marks.new) }
{
    let d = p.d;
    let m = p.m;
    let size = queue.len();
    let slots = flows.len();
    let mut ks: [usize; 4] = [0; 4];
    let mut head: usize = 0;
    let mut waiting = first_waiting;
    let mut nonzero = first_nonzero;
    let mut entries: usize = 0;
    let mut pops: u32 = 0;
    let ending = 'walk: loop {
        if nonzero == 0 {
            break Ending::Clean;
        }
        if waiting == 0 {
            break Ending::Stuck;
        }
        if pops == allowance {
            break Ending::Spent;
        }
        pops += 1;
        let k = pop(queue, marks, head, waiting);
        head = ring_place(head, 1, size);
        waiting -= 1;
        let c = counts[k];
        let s = idsums[k];
        if let Some(f) = walk::test(p, k, c, s) {
            p.positions(f, &mut ks);
            for i in 0..d {
                let j = i * m + ks[i];
                if !fits(true, counts[j], c) {
                    break 'walk Ending::Range;
                }
            }
            let chain = chain_of(p, f);
            let at = find(flows, queue, marks, entries, f, chain);
            if at < entries {
                if !fits(false, numbers[at], c) {
                    break 'walk Ending::Range;
                }
            } else if at == slots {
                break 'walk Ending::Full;
            }
            Taken {
                waiting,
                nonzero,
                entries,
            } = take_flow(
                p, &ks, counts, idsums, flows, numbers, queue, marks, head, waiting, nonzero,
                entries, chain, at, f, c, s,
            );
        }
    };
    Walked {
        ending,
        pops,
        entries,
    }
}

// The whole walk: every bucket with a count waits at the start.
pub(crate) fn walk_whole(
    p: Params,
    counts: &mut [i32],
    idsums: &mut [u32],
    flows: &mut [u32],
    numbers: &mut [i32],
    queue: &mut [u32],
    marks: &mut [u32],
    allowance: u32,
) -> Walked
    requires { Peelable p (slices counts.old idsums.old flows.old numbers.old queue.old marks.old) }
    ensures { Walks («walk_of» (rule_of p) (length flows.old) allowance (sketch counts.old idsums.old)) (length flows.old) result (slices counts.new idsums.new flows.new numbers.new queue.new marks.new) }
{
    let waiting = start(counts, queue, marks);
    let nonzero = count_nonzero(counts, idsums);
    walk(
        p, counts, idsums, flows, numbers, queue, marks, waiting, nonzero, allowance,
    )
}
