// The downstream's sketch taken from the upstream's, and the difference peeled.
ghost use Rattle.std.specs.Prelude.{◌≡◌, true};
ghost use Rattle.params.specs.Answers.{kept};
ghost use Rattle.sketch.specs.Sketch.{sketch};
ghost use Rattle.sums.specs.Sums.{combined};
ghost use Rattle.peel.specs.Slices.{slices};
ghost use Rattle.settle.specs.Settling.{settle_answer, Settles};

use params::{Params, Refused};
use peel::peeling::{Figures, judge_walk_lent, peel};
use sums::subtract;

// Takes the downstream's sketch from the upstream's. The lengths that the walk needs are judged before, so that a refusal of them
// alters nothing either.
fn difference(
    p: Params,
    up_counts: &mut [i32],
    up_idsums: &mut [u32],
    down_counts: &[i32],
    down_idsums: &[u32],
    flows: usize,
    numbers: usize,
    queue: usize,
    marks: usize,
) -> Result<(), Refused>
    ensures { (result ≡ settle_answer p (sketch up_counts.old up_idsums.old) (sketch down_counts.now down_idsums.now) flows numbers queue marks) × (sketch up_counts.new up_idsums.new ≡ kept result (sketch up_counts.old up_idsums.old) (combined true (sketch up_counts.old up_idsums.old) (sketch down_counts.now down_idsums.now))) }
{
    judge_walk_lent(
        p,
        up_counts.len(),
        up_idsums.len(),
        flows,
        numbers,
        queue,
        marks,
    )?;
    subtract(p, p, up_counts, up_idsums, down_counts, down_idsums)
}

// Takes the downstream's sketch from the upstream's and peels the difference into a table, with 8 * d * m pops. The upstream's
// sketch then holds what remains.
pub fn settle(
    p: Params,
    up_counts: &mut [i32],
    up_idsums: &mut [u32],
    down_counts: &[i32],
    down_idsums: &[u32],
    table_flows: &mut [u32],
    table_counts: &mut [i32],
    queue: &mut [u32],
    marks: &mut [u32],
) -> Result<Figures, Refused>
    ensures { Settles p (sketch down_counts.now down_idsums.now) (slices up_counts.old up_idsums.old table_flows.old table_counts.old queue.old marks.old) result (slices up_counts.new up_idsums.new table_flows.new table_counts.new queue.new marks.new) }
{
    difference(
        p,
        up_counts,
        up_idsums,
        down_counts,
        down_idsums,
        table_flows.len(),
        table_counts.len(),
        queue.len(),
        marks.len(),
    )?;
    peel(
        p,
        up_counts,
        up_idsums,
        table_flows,
        table_counts,
        queue,
        marks,
        (8 * (p.d * p.m)) as u32,
    )
}
