// Where the reading of two streams stands: before the first record, on the way, and at the end of the input.
ghost use Rattle.std.specs.Prelude.{◌≡◌, ◌&&◌, ◌+◌, ltb};
ghost use Rattle.desk.specs.Desk.{started, stopped, stage_turned_down, turned_down, finish_answer};

use files::heads::head_length;
use params::{Params, Refusal, Refused};

// What is due next: packets or the end of the upstream stream, the downstream one's head, its packets or end, or nothing more; or
// the refusal of the input.
#[derive(Clone, Copy, Debug, PartialEq, Eq)]
pub enum Stage {
    UpstreamPackets,
    DownstreamHead,
    DownstreamPackets,
    Nothing,
    Refused(Refusal),
}

// What is due, the offset of the next byte in the whole input, and how many records stood since the head. The offset is that of
// the record at fault where the input is refused.
#[derive(Clone, Copy, Debug, PartialEq, Eq)]
pub struct State {
    pub stage: Stage,
    pub at: usize,
    pub records: usize,
}

// A state, and how many bytes were used on the way to it.
#[derive(Clone, Copy, Debug, PartialEq, Eq)]
pub struct Fed {
    pub state: State,
    pub used: usize,
}

// The state after the first head, whose parameters these are.
pub fn start(p: Params) -> State
    ensures { result ≡ started p }
{
    State {
        stage: Stage::UpstreamPackets,
        at: head_length(p),
        records: 0,
    }
}

// The input is refused for what stands next.
pub(crate) fn stop(refusal: Refusal, s: State) -> State
    ensures { result ≡ stopped refusal s }
{
    State {
        stage: Stage::Refused(refusal),
        ..s
    }
}

// A refusal that is there already stays.
fn stage_turned_down(refusal: Refusal, stage: Stage) -> Stage
    ensures { result ≡ stage_turned_down refusal stage }
{
    match stage {
        Stage::Refused(_) => stage,
        _ => Stage::Refused(refusal),
    }
}

// The input is refused for what a caller lent, unless it is refused already.
pub(crate) fn turn_down(refusal: Refusal, s: State) -> State
    ensures { result ≡ turned_down refusal s }
{
    State {
        stage: stage_turned_down(refusal, s.stage),
        ..s
    }
}

// Whether 64 bits hold the offsets and the numbers of records that so many bytes can lead to.
pub(crate) fn offsets_fit(s: State, len: usize) -> bool
    ensures { result ≡ (ltb (s.at + len) 18446744073709551616 && ltb (s.records + len) 18446744073709551616) }
{
    len <= usize::MAX - s.at && len <= usize::MAX - s.records
}

// Judges the end of the input: nothing more was due, or the place and the number of what is at fault.
pub fn finish(s: State) -> Result<(), Refused>
    ensures { result ≡ finish_answer s.stage s.at }
{
    match s.stage {
        Stage::Nothing => Ok(()),
        Stage::Refused(refusal) => Err(Refused(refusal, s.at)),
        _ => Err(Refused(Refusal::Form, s.at)),
    }
}
