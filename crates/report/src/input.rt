// The input: one read at a time, and its records taken as they come.
ghost use Rattle.std.specs.Prelude.{◌≤◌, length};
ghost use Rattle.report.specs.Input.{came, ReadOn};

use desk::states::{Stage, State, start};
use intake::moving::to_front;
use intake::opening::head_settled;
use intake::turning::turn;
use params::Params;
use std::io::{ErrorKind, Read};

// A proved loop has to end, and nothing says that the input does. No run makes so many turns: each is a read.
const TURNS: u64 = u64::MAX;

// A read failed.
#[derive(Clone, Copy, Debug)]
pub(crate) struct ReadFailed;

// Reads until the bytes at hand settle the first head or the input ends, and returns how many they are.
pub(crate) fn read_head<R: Read>(input: &mut R, buf: &mut [u8]) -> Result<usize, ReadFailed> {
    let mut held = 0;
    for _ in 0..TURNS {
        if head_settled(&buf[0..held]) {
            break;
        }
        let Some(n) = read_on(input, buf, held)? else {
            break;
        };
        held += n;
    }
    Ok(held)
}

// Takes the records of both streams. The first head, which is judged already, stands first in buf with more bytes of the input
// behind it, `got` in all.
pub(crate) fn take<R: Read>(
    input: &mut R,
    p: Params,
    up_counts: &mut [i32],
    up_idsums: &mut [u32],
    down_counts: &mut [i32],
    down_idsums: &mut [u32],
    buf: &mut [u8],
    got: usize,
) -> Result<State, ReadFailed> {
    let mut s = start(p);
    let mut held = to_front(buf, s.at, got);
    for _ in 0..TURNS {
        let turned = turn(
            p,
            s,
            up_counts,
            up_idsums,
            down_counts,
            down_idsums,
            buf,
            held,
        );
        s = turned.state;
        held = turned.held;
        // nothing more is read of an input that is refused
        if matches!(s.stage, Stage::Refused(_)) {
            break;
        }
        let Some(n) = read_on(input, buf, held)? else {
            break;
        };
        held += n;
    }
    Ok(s)
}

// One read, behind the bytes that are held, which stay as they are. There is always room for it, save where 64 bits do not hold the offsets any
// more and nothing is taken; then nothing more is read.
fn read_on<R: Read>(input: &mut R, buf: &mut [u8], held: usize) -> Result<Option<usize>, ReadFailed>
    ensures { ReadOn buf.old held result buf.new }
{
    if buf.len() <= held {
        return Err(ReadFailed);
    }
    read_into(input, &mut buf[held..])
}

// One read: how many bytes it gave, or none where the input has ended. One that a signal interrupted gives 0 bytes, and is neither a failure nor the
// end.
fn read_into<R: Read>(input: &mut R, part: &mut [u8]) -> Result<Option<usize>, ReadFailed>
    ensures { came result ≤ length part.new }
{
    match input.read(part) {
        Ok(0) => Ok(None),
        Ok(n) => Ok(Some(n)),
        Err(e) if e.kind() == ErrorKind::Interrupted => Ok(Some(0)),
        Err(_) => Err(ReadFailed),
    }
}
