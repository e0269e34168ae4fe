// A sketch file read: it takes the place of a lent sketch's content.
ghost use Rattle.std.specs.Prelude.{◌≡◌, length, set};
ghost use Rattle.sketch.specs.Sketch.{sketch};
ghost use Rattle.sketchfile.specs.Reading.{buckets_in, bucket_answer, buckets_judged, stored, SketchRead};

use buckets::{all_zero, undamaged};
use files::ends::judge_end;
use files::fields::bucket_at;
use files::heads::{head_length_in, judge_parameters};
use files::records::BUCKET_LENGTH;
use params::{Params, Refusal, Refused};
use sketch::packets::fresh;

// One bucket record at an offset, in a sketch of `size` buckets, where no index below `low` may stand.
fn judge_bucket(
    size: usize,
    low: usize,
    at: usize,
    index: usize,
    c: i32,
    s: u32,
) -> Result<(), Refused>
    ensures { result ≡ bucket_answer size low at index c s }
{
    if !undamaged(c, s) {
        return Err(Refused(Refusal::Damage, at));
    }
    if size <= index || index < low || all_zero(c, s) {
        return Err(Refused(Refusal::Form, at));
    }
    Ok(())
}

// The records after the head, of a sketch of `size` buckets.
fn judge_records(size: usize, bytes: &[u8]) -> Result<(), Refused>
    ensures { result ≡ buckets_judged size bytes.now }
{
    let mut at = head_length_in(bytes);
    let mut n = 0;
    let mut low = 0;
    while let Some((index, c, s)) = bucket_at(bytes, at) {
        judge_bucket(size, low, at, index as usize, c, s)?;
        low = index as usize + 1;
        at += BUCKET_LENGTH;
        n += 1;
    }
    judge_end(bytes, at, n)
}

// Stores one bucket; nothing where its index is past the last.
fn set_bucket(counts: &mut [i32], idsums: &mut [u32], k: usize, c: i32, s: u32)
    requires { length counts.old ≡ length idsums.old }
    ensures counts_after { counts.new ≡ set counts.old k c }
    ensures idsums_after { idsums.new ≡ set idsums.old k s }
{
    if counts.len() <= k {
        return;
    }
    counts[k] = c;
    idsums[k] = s;
}

// Stores the file's buckets. Each index is judged where it is used, so that this pass is safe whatever the one before it found.
fn store(counts: &mut [i32], idsums: &mut [u32], bytes: &[u8])
    requires { length counts.old ≡ length idsums.old }
    ensures { sketch counts.new idsums.new ≡ stored bytes.now (buckets_in bytes.now) (sketch counts.old idsums.old) }
{
    let mut at = head_length_in(bytes);
    while let Some((index, c, s)) = bucket_at(bytes, at) {
        set_bucket(counts, idsums, index as usize, c, s);
        at += BUCKET_LENGTH;
    }
}

// Reads a sketch file with the parameters p. The old content is not looked at, and a refusal alters nothing.
pub fn read_sketch(
    p: Params,
    counts: &mut [i32],
    idsums: &mut [u32],
    bytes: &[u8],
) -> Result<(), Refused>
    ensures { SketchRead p bytes.now (sketch counts.old idsums.old) result (sketch counts.new idsums.new) }
{
    judge_parameters(p, bytes)?;
    p.judge_lent(counts.len(), idsums.len())?;
    judge_records(counts.len(), bytes)?;
    fresh(p, counts, idsums)?;
    store(counts, idsums, bytes);
    Ok(())
}
