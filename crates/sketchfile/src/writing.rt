// The one file of a sketch, written.
ghost use Rattle.std.specs.Prelude.{◌≡◌, ◌+◌, ◌*◌, ◌≤◌, length};
ghost use Rattle.sketch.specs.Sketch.{sketch};
ghost use Rattle.files.specs.Bytes.{overwritten};
ghost use Rattle.files.specs.Records.{bucket_length};
ghost use Rattle.sketchfile.specs.Writing.{buckets_bytes, nonzero_from, sketch_write_answer, SketchWritten};

use buckets::{all_zero, first_damaged};
use files::heads::head_length;
use files::records::{BUCKET_LENGTH, END_LENGTH};
use files::writing::{put_bucket, put_end, put_head};
use params::{Params, Refusal, Refused};

// How many buckets are not all zero.
fn nonzero_buckets(counts: &[i32], idsums: &[u32]) -> usize
    requires { length counts.now ≡ length idsums.now }
    ensures { (result ≡ nonzero_from 0 (length counts.now) (sketch counts.now idsums.now)) × (result ≤ length counts.now) }
{
    let mut n = 0;
    for k in 0..counts.len() {
        if !all_zero(counts[k], idsums[k]) {
            n += 1;
        }
    }
    n
}

// The answer, which alters nothing; `room` is the length of the output.
fn judge(p: Params, counts: &[i32], idsums: &[u32], room: usize) -> Result<(), Refused>
    ensures { result ≡ sketch_write_answer p (sketch counts.now idsums.now) room }
{
    p.judge_lent(counts.len(), idsums.len())?;
    if room < head_length(p) + BUCKET_LENGTH * nonzero_buckets(counts, idsums) + END_LENGTH {
        return Err(Refused(Refusal::Length, 0));
    }
    let x = first_damaged(counts, idsums);
    if x < counts.len() {
        return Err(Refused(Refusal::Damage, x));
    }
    Ok(())
}

// The bucket records, from an offset on; gives the offset after them.
fn put_all(out: &mut [u8], first: usize, counts: &[i32], idsums: &[u32]) -> usize
    requires counts_len { (length counts.now ≡ length idsums.now) × (length counts.now ≤ 65536) }
    requires idsums_in_bounds { first + bucket_length * nonzero_from 0 (length counts.now) (sketch counts.now idsums.now) ≤ length out.old }
    ensures value { result ≡ first + bucket_length * nonzero_from 0 (length counts.now) (sketch counts.now idsums.now) }
    ensures out_after { out.new ≡ overwritten out.old first (buckets_bytes 0 (length counts.now) (sketch counts.now idsums.now)) }
{
    let mut at = first;
    for k in 0..counts.len() {
        if !all_zero(counts[k], idsums[k]) {
            put_bucket(out, at, k as u32, counts[k], idsums[k]);
            at += BUCKET_LENGTH;
        }
    }
    at
}

// Writes the file of a sketch; the rest of the output is not touched.
pub fn write_sketch(
    p: Params,
    counts: &[i32],
    idsums: &[u32],
    out: &mut [u8],
) -> Result<usize, Refused>
    ensures { SketchWritten p (sketch counts.now idsums.now) out.old result out.new }
{
    judge(p, counts, idsums, out.len())?;
    let first = head_length(p);
    put_head(out, p);
    let at = put_all(out, first, counts, idsums);
    let n = (at - first) / BUCKET_LENGTH;
    put_end(out, at, n as u32);
    Ok(at + END_LENGTH)
}
