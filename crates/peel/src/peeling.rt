// Peeling, whole: the refusals, then the start, the walk and the close.
ghost use Rattle.std.specs.Prelude.{◌≡◌, length};
ghost use Rattle.sketch.specs.Sketch.{sketch};
ghost use Rattle.walk.specs.Walk.{walk as «walk_of»};
ghost use Rattle.walk.specs.Purity.{rule_of};
ghost use Rattle.peel.specs.Slices.{slices};
ghost use Rattle.peel.specs.Rep.{Peelable, Leaves};
ghost use Rattle.peel.specs.Peel.{walk_lent_answer, peel_answer, Peels};

use crate::table::{close, tell};
use crate::walking::walk_whole;
use buckets::first_damaged;
use params::{Params, Refusal, Refused};
use walk::Ending;

// What a walk found: its ending, the entries of its closed table, the packets lost by its account (the sum of the positive counts) and the
// extra ones (the sum of the negative counts, without their sign), and the pops made.
#[derive(Clone, Copy, Debug, PartialEq, Eq)]
pub struct Figures {
    pub ending: Ending,
    pub entries: usize,
    pub lost: u64,
    pub extra: u64,
    pub pops: u32,
}

// The answer of the lengths that a walk is lent: those of a sketch's counts and idsums, of the table's two slices, of the queue
// and of the marks.
pub fn judge_walk_lent(
    p: Params,
    counts: usize,
    idsums: usize,
    flows: usize,
    numbers: usize,
    queue: usize,
    marks: usize,
) -> Result<(), Refused>
    ensures { result ≡ walk_lent_answer p counts idsums flows numbers queue marks }
{
    p.judge_lent(counts, idsums)?;
    if queue != counts || marks != counts || flows != numbers || 65536 < flows {
        return Err(Refused(Refusal::Length, 0));
    }
    Ok(())
}

// The answer, which alters nothing.
fn judge(
    p: Params,
    counts: &[i32],
    idsums: &[u32],
    flows: usize,
    numbers: usize,
    queue: usize,
    marks: usize,
) -> Result<(), Refused>
    ensures { result ≡ peel_answer p (sketch counts.now idsums.now) flows numbers queue marks }
{
    judge_walk_lent(p, counts.len(), idsums.len(), flows, numbers, queue, marks)?;
    let x = first_damaged(counts, idsums);
    if x < counts.len() {
        return Err(Refused(Refusal::Damage, x));
    }
    Ok(())
}

// The walk and the close, where nothing is refused; then the flows are told.
fn unravel(
    p: Params,
    counts: &mut [i32],
    idsums: &mut [u32],
    flows: &mut [u32],
    numbers: &mut [i32],
    queue: &mut [u32],
    marks: &mut [u32],
    allowance: u32,
) -> Figures
    requires { Peelable p (slices counts.old idsums.old flows.old numbers.old queue.old marks.old) }
    ensures { Leaves p («walk_of» (rule_of p) (length flows.old) allowance (sketch counts.old idsums.old)) result (slices counts.new idsums.new flows.new numbers.new queue.new marks.new) }
{
    let walked = walk_whole(p, counts, idsums, flows, numbers, queue, marks, allowance);
    let listed = close(flows, numbers, walked.entries);
    tell(p, flows, listed.entries);
    queue.fill(0);
    marks.fill(0);
    Figures {
        ending: walked.ending,
        entries: listed.entries,
        lost: listed.lost,
        extra: listed.extra,
        pops: walked.pops,
    }
}

// Peels a sketch into a table, which takes as many flows as its slices are long, with an allowance of pops. The sketch then
// holds what remains; table slots past the last entry, the queue and the marks are all 0.
pub fn peel(
    p: Params,
    counts: &mut [i32],
    idsums: &mut [u32],
    table_flows: &mut [u32],
    table_counts: &mut [i32],
    queue: &mut [u32],
    marks: &mut [u32],
    allowance: u32,
) -> Result<Figures, Refused>
    ensures { Peels p allowance (slices counts.old idsums.old table_flows.old table_counts.old queue.old marks.old) result (slices counts.new idsums.new table_flows.new table_counts.new queue.new marks.new) }
{
    judge(
        p,
        counts,
        idsums,
        table_flows.len(),
        table_counts.len(),
        queue.len(),
        marks.len(),
    )?;
    Ok(unravel(
        p,
        counts,
        idsums,
        table_flows,
        table_counts,
        queue,
        marks,
        allowance,
    ))
}
