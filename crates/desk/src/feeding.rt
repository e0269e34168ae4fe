// Records taken as they come: those of the upstream stream go into one sketch, those of the downstream one into another.
ghost use Rattle.std.specs.Prelude.{◌≡◌};
ghost use Rattle.params.specs.Answers.{first};
ghost use Rattle.params.specs.Params.{lent_answer};
ghost use Rattle.sketch.specs.Sketch.{sketch};
ghost use Rattle.desk.specs.Desk.{TakesRecords, Feeds};

use crate::stages::{end_stage, head_stage, nothing_stage, packets_stage};
use crate::states::{Fed, State, offsets_fit, turn_down};
use params::{Params, Refused};

// Takes all whole records of the bytes at hand, up to one at fault; their first byte is the next of the input. Says how many bytes that used. The
// rest is to be at hand again, with more behind it, at the next call. Parameters that break a rule and wrong lengths are refused before anything is taken; how many
// buckets there are is judged with the heads.
pub fn feed(
    p: Params,
    s: State,
    up_counts: &mut [i32],
    up_idsums: &mut [u32],
    down_counts: &mut [i32],
    down_idsums: &mut [u32],
    bytes: &[u8],
) -> Fed
    ensures { Feeds p bytes.now (sketch up_counts.old up_idsums.old) (sketch down_counts.old down_idsums.old) s result (sketch up_counts.new up_idsums.new) (sketch down_counts.new down_idsums.new) }
{
    let lent = judge_both(
        p,
        up_counts.len(),
        up_idsums.len(),
        down_counts.len(),
        down_idsums.len(),
    );
    if let Err(Refused(refusal, _)) = lent {
        return Fed {
            state: turn_down(refusal, s),
            used: 0,
        };
    }
    take_records(p, s, up_counts, up_idsums, down_counts, down_idsums, bytes)
}

// The parameters, and the lengths of both sketches.
fn judge_both(
    p: Params,
    up_counts: usize,
    up_idsums: usize,
    down_counts: usize,
    down_idsums: usize,
) -> Result<(), Refused>
    ensures { result ≡ first (lent_answer p up_counts up_idsums) (lent_answer p down_counts down_idsums) }
{
    p.judge_lent(up_counts, up_idsums)?;
    p.judge_lent(down_counts, down_idsums)
}

// Takes the records, stage after stage.
fn take_records(
    p: Params,
    s: State,
    up_counts: &mut [i32],
    up_idsums: &mut [u32],
    down_counts: &mut [i32],
    down_idsums: &mut [u32],
    bytes: &[u8],
) -> Fed
    ensures { TakesRecords p bytes.now (sketch up_counts.old up_idsums.old) (sketch down_counts.old down_idsums.old) s result (sketch up_counts.new up_idsums.new) (sketch down_counts.new down_idsums.new) }
{
    if !offsets_fit(s, bytes.len()) {
        return Fed { state: s, used: 0 };
    }
    let from = s.at;
    let upstream_taken = packets_stage(false, p, s, up_counts, up_idsums, bytes);
    let i = upstream_taken.at - from;
    let upstream_ended = end_stage(upstream_taken, &bytes[i..]);
    let j = upstream_ended.at - from;
    let headed = head_stage(p, upstream_ended, &bytes[j..]);
    let k = headed.at - from;
    let downstream_taken = packets_stage(true, p, headed, down_counts, down_idsums, &bytes[k..]);
    let l = downstream_taken.at - from;
    let downstream_ended = end_stage(downstream_taken, &bytes[l..]);
    let m = downstream_ended.at - from;
    let fed = nothing_stage(downstream_ended, &bytes[m..]);
    Fed {
        state: fed,
        used: fed.at - from,
    }
}
