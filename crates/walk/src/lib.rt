// The walk that peels a sketch: how it may end, and the test of a popped bucket. What the walk is stands in specs/Walk.antt,
// and what holds of it in proofs/; the crate `peel` does it.
#![tactic(auto)]

ghost use Rattle.std.specs.Prelude.{◌≡◌};
ghost use Rattle.walk.specs.Purity.{guarded_test};

use params::{PRIME, Params};

// How a walk ends.
#[derive(Clone, Copy, Debug, PartialEq, Eq)]
pub enum Ending {
    Clean = 1,
    Stuck = 2,
    Spent = 3,
    Range = 5,
    Full = 6,
}

// The purity test of bucket k with count c and idsum s: what is sketched for its flow, where it is pure. Where the dimensions break a rule, nothing is pure. The pairs are not
// judged, and any count and idsum is taken. A bucket whose count is a multiple of the prime is not pure; within the limits that
// count is 0. Nor is one whose number is not what is sketched for a flow.
pub fn test(p: Params, k: usize, c: i32, s: u32) -> Option<u32>
    ensures { result ≡ guarded_test p k c s }
{
    if field::raise(PRIME, c) == 0 {
        return None;
    }
    let x = field::flow(PRIME, c, s);
    (p.is_sketched(x) && p.sketched_stands(x, k)).then_some(x)
}
