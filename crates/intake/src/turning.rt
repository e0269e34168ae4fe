// One turn of the reading.
ghost use Rattle.sketch.specs.Sketch.{sketch};
ghost use Rattle.intake.specs.Intake.{Turns};

use crate::moving::to_front;
use desk::feeding::feed;
use desk::states::State;
use params::Params;

// The state that a turn leads to, and how many bytes are held then.
#[derive(Clone, Copy, Debug, PartialEq, Eq)]
pub struct Turned {
    pub state: State,
    pub held: usize,
}

// Takes all whole records of the first `held` bytes, up to one at fault, and moves the bytes behind them to the front.
pub fn turn(
    p: Params,
    s: State,
    up_counts: &mut [i32],
    up_idsums: &mut [u32],
    down_counts: &mut [i32],
    down_idsums: &mut [u32],
    buf: &mut [u8],
    held: usize,
) -> Turned
    ensures { Turns p buf.old held (sketch up_counts.old up_idsums.old) (sketch down_counts.old down_idsums.old) s result (sketch up_counts.new up_idsums.new) (sketch down_counts.new down_idsums.new) buf.new }
{
    let end = held.min(buf.len());
    let fed = feed(
        p,
        s,
        up_counts,
        up_idsums,
        down_counts,
        down_idsums,
        &buf[0..end],
    );
    Turned {
        state: fed.state,
        held: to_front(buf, fed.used, held),
    }
}
