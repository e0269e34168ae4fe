// A whole report: the lines of the table, then those of what is left, then the end. There must be LINE_ROOM bytes
// for each entry, each bucket and the end.
ghost use Rattle.std.specs.Prelude.{◌≡◌, ◌+◌, ◌*◌, ◌≤◌, length};
ghost use Rattle.lines.specs.Lines.{loss_line, line_room, Lined};
ghost use Rattle.lines.specs.Reports.{loss_lines, left_if_any, left_lines, report_text, report_fits};
ghost use Rattle.lines.specs.Texts.{TextWritten};

use crate::lines::{LINE_ROOM, end_line, left_line, loss_line};
use buckets::all_zero;
use walk::Ending;

// Whether a report can be written: of so many bytes, entries of a table, and buckets.
fn fits(
    out: usize,
    flows: usize,
    numbers: usize,
    entries: usize,
    counts: usize,
    idsums: usize,
) -> bool
    ensures { result ≡ report_fits out flows numbers entries counts idsums }
{
    let lines = out / LINE_ROOM;
    entries <= flows
        && entries <= numbers
        && idsums == counts
        && entries < lines
        && counts < lines - entries
}

// A line for an entry, from an offset on; the offset after it is returned, as by the functions below.
fn put_loss(out: &mut [u8], at: usize, flow: u32, count: i32) -> usize
    requires { at + line_room ≤ length out.old }
    ensures text_written { TextWritten (loss_line flow count) out.old at result out.new }
    ensures upper_bound { result ≤ at + line_room }
{
    at + loss_line(&mut out[at..], flow, count)
}

// A line for a bucket that is not all zero.
fn put_left(out: &mut [u8], at: usize, index: usize, count: i32, idsum: u32) -> usize
    requires { at + line_room ≤ length out.old }
    ensures text_written { TextWritten (left_if_any index count idsum) out.old at result out.new }
    ensures upper_bound { result ≤ at + line_room }
{
    if all_zero(count, idsum) {
        return at;
    }
    at + left_line(&mut out[at..], index, count, idsum)
}

// The lines of the table.
fn put_losses(out: &mut [u8], from: usize, flows: &[u32], numbers: &[i32], entries: usize) -> usize
    requires entries_in_bounds { from + line_room * entries ≤ length out.old }
    requires entries_in_bounds_2 { entries ≤ length flows.now }
    requires entries_in_bounds_3 { entries ≤ length numbers.now }
    ensures text_written { TextWritten (loss_lines flows.now numbers.now entries) out.old from result out.new }
    ensures upper_bound { result ≤ from + line_room * entries }
{
    let mut at = from;
    for i in 0..entries {
        at = put_loss(out, at, flows[i], numbers[i]);
    }
    at
}

// The lines of what is left.
fn put_lefts(out: &mut [u8], from: usize, counts: &[i32], idsums: &[u32]) -> usize
    requires counts_in_bounds { from + line_room * length counts.now ≤ length out.old }
    requires idsums_len { length idsums.now ≡ length counts.now }
    ensures text_written { TextWritten (left_lines counts.now idsums.now (length counts.now)) out.old from result out.new }
    ensures upper_bound { result ≤ from + line_room * length counts.now }
{
    let mut at = from;
    for i in 0..counts.len() {
        at = put_left(out, at, i, counts[i], idsums[i]);
    }
    at
}

// Writes the report of a walk: of the table's first entries, the buckets that are left, and the ending. Its length is returned, or 0
// where it does not fit, and nothing is written then.
pub fn report(
    out: &mut [u8],
    flows: &[u32],
    numbers: &[i32],
    entries: usize,
    counts: &[i32],
    idsums: &[u32],
    ending: Ending,
    pops: u32,
    lost: u64,
    extra: u64,
) -> usize
    ensures { Lined (report_fits (length out.old) (length flows.now) (length numbers.now) entries (length counts.now) (length idsums.now)) (report_text flows.now numbers.now entries counts.now idsums.now ending pops lost extra) out.old result out.new }
{
    let room = fits(
        out.len(),
        flows.len(),
        numbers.len(),
        entries,
        counts.len(),
        idsums.len(),
    );
    if !room {
        return 0;
    }
    let mut at = put_losses(out, 0, flows, numbers, entries);
    at = put_lefts(out, at, counts, idsums);
    at + end_line(&mut out[at..], ending, pops, lost, extra)
}
