// The lines of the report. A line is written at the start of the output and its length returned. Where the output is
// shorter than LINE_ROOM, nothing is written and 0 returned.
ghost use Rattle.lines.specs.Lines.{loss_line, left_line, end_line, refused_line, line_fits, Lined};

use crate::text::{put, put_ending, put_named, put_named_signed};
use params::Refusal;
use walk::Ending;

// No line is longer than so many bytes.
pub const LINE_ROOM: usize = 80;

// loss FLOW COUNT
pub fn loss_line(out: &mut [u8], flow: u32, count: i32) -> usize
    ensures { Lined (line_fits out.old) (loss_line flow count) out.old result out.new }
{
    if out.len() < LINE_ROOM {
        return 0;
    }
    let mut at = put_named(out, 0, b"loss ", flow as u64);
    at = put_named_signed(out, at, b" ", count as i64);
    put(out, at, b"\n")
}

// left INDEX COUNT IDSUM
pub fn left_line(out: &mut [u8], index: usize, count: i32, idsum: u32) -> usize
    ensures { Lined (line_fits out.old) (left_line index count idsum) out.old result out.new }
{
    if out.len() < LINE_ROOM {
        return 0;
    }
    let mut at = put_named(out, 0, b"left ", index as u64);
    at = put_named_signed(out, at, b" ", count as i64);
    at = put_named(out, at, b" ", idsum as u64);
    put(out, at, b"\n")
}

// end ENDING pops N lost N extra N
pub fn end_line(out: &mut [u8], ending: Ending, pops: u32, lost: u64, extra: u64) -> usize
    ensures { Lined (line_fits out.old) (end_line ending pops lost extra) out.old result out.new }
{
    if out.len() < LINE_ROOM {
        return 0;
    }
    let mut at = put(out, 0, b"end ");
    at = put_ending(out, at, ending);
    at = put_named(out, at, b" pops ", pops as u64);
    at = put_named(out, at, b" lost ", lost);
    at = put_named(out, at, b" extra ", extra);
    put(out, at, b"\n")
}

// refused NUMBER at BYTE
pub fn refused_line(out: &mut [u8], refusal: Refusal, byte: usize) -> usize
    ensures { Lined (line_fits out.old) (refused_line refusal byte) out.old result out.new }
{
    if out.len() < LINE_ROOM {
        return 0;
    }
    let number = refusal.number() as u64;
    let mut at = put_named(out, 0, b"refused ", number);
    at = put_named(out, at, b" at ", byte as u64);
    put(out, at, b"\n")
}
