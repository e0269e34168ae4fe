// Records written into lent bytes, each whole or not at all.
ghost use Rattle.std.specs.Prelude.{◌≡◌, true, cond, ◌++◌, leb, ◌+◌, ◌≤◌, ◌<◌, length};
ghost use Rattle.params.specs.Params.{good_params};
ghost use Rattle.files.specs.Bytes.{word_bytes, count_word, overwritten};
ghost use Rattle.files.specs.Layout.{arrays_bytes, head_bytes, packet_bytes, bucket_bytes, end_bytes};
ghost use Rattle.files.specs.Records.{record_length, head_kind};
ghost use Rattle.files.specs.Writing.{written};

use crate::fields::{
    ARRAYS_IN_BODY, BUCKETS_IN_BODY, COUNT_IN_BODY, FLOW_IN_BODY, IDSUM_IN_BODY, INDEX_IN_BODY,
    MULTIPLIER_1_IN_BODY, MULTIPLIER_2_IN_BODY, MULTIPLIER_3_IN_BODY, MULTIPLIER_4_IN_BODY,
    MULTIPLIER_5_IN_BODY, NUMBER_IN_BODY, RECORDS_IN_BODY,
};
use crate::heads::{head_kind, head_length};
use crate::records::{BUCKET, BUCKET_LENGTH, END, END_LENGTH, PACKETS, PACKETS_LENGTH};
use params::Params;

// Where the fields of a record stand, counted from its kind byte.
const FLOW_AT: usize = 1 + FLOW_IN_BODY;

const NUMBER_AT: usize = 1 + NUMBER_IN_BODY;

const INDEX_AT: usize = 1 + INDEX_IN_BODY;

const COUNT_AT: usize = 1 + COUNT_IN_BODY;

const IDSUM_AT: usize = 1 + IDSUM_IN_BODY;

const RECORDS_AT: usize = 1 + RECORDS_IN_BODY;

const ARRAYS_AT: usize = 1 + ARRAYS_IN_BODY;

const BUCKETS_AT: usize = 1 + BUCKETS_IN_BODY;

const MULTIPLIER_1_AT: usize = 1 + MULTIPLIER_1_IN_BODY;

const MULTIPLIER_2_AT: usize = 1 + MULTIPLIER_2_IN_BODY;

const MULTIPLIER_3_AT: usize = 1 + MULTIPLIER_3_IN_BODY;

const MULTIPLIER_4_AT: usize = 1 + MULTIPLIER_4_IN_BODY;

const MULTIPLIER_5_AT: usize = 1 + MULTIPLIER_5_IN_BODY;

// A count as 32 bits, in two's complement.
fn count_word(c: i32) -> u32
    ensures { result ≡ count_word c }
{
    c.cast_unsigned()
}

// Whether so many bytes from an offset on lie within the output.
fn fits(long: usize, at: usize, bytes: usize) -> bool
    ensures { result ≡ leb (at + bytes) long }
{
    at.checked_add(bytes).is_some_and(|end| end <= long)
}

// Four bytes, the highest first.
fn put_word(out: &mut [u8], at: usize, n: u32)
    requires { at + 4 ≤ length out.old }
    ensures { out.new ≡ overwritten out.old at (word_bytes n) }
{
    out[at..at + 4].copy_from_slice(&n.to_be_bytes());
}

// A pair of a head.
fn put_pair(out: &mut [u8], at: usize, a: u32, b: u32)
    requires { at + 8 ≤ length out.old }
    ensures { out.new ≡ overwritten out.old at (word_bytes a ++ word_bytes b) }
{
    put_word(out, at, a);
    put_word(out, at + 4, b);
}

// A head of a kind up to its fourth pair, at the start.
fn put_arrays(out: &mut [u8], kind: u8, p: Params)
    requires { (good_params p ≡ true) × (record_length head_kind ≤ length out.old) }
    ensures { out.new ≡ overwritten out.old 0 (arrays_bytes kind p) }
{
    let Params { d, m, a, b, .. } = p;
    out[0] = kind;
    out[ARRAYS_AT] = d as u8;
    put_word(out, BUCKETS_AT, m as u32);
    put_pair(out, MULTIPLIER_1_AT, a[0], b[0]);
    put_pair(out, MULTIPLIER_2_AT, a[1], b[1]);
    put_pair(out, MULTIPLIER_3_AT, a[2], b[2]);
    put_pair(out, MULTIPLIER_4_AT, a[3], b[3]);
}

// A head at the start; nothing where the parameters break a rule.
pub fn put_head(out: &mut [u8], p: Params)
    ensures { out.new ≡ cond (good_params p) (written out.old 0 (head_bytes p)) out.old }
{
    if !p.check() {
        return;
    }
    if out.len() < head_length(p) {
        return;
    }
    put_arrays(out, head_kind(p), p);
    if p.fingerprinted() {
        put_pair(out, MULTIPLIER_5_AT, p.a5, p.b5);
    }
}

// n packets of flow f.
pub fn put_packets(out: &mut [u8], at: usize, f: u32, n: u32)
    ensures { out.new ≡ written out.old at (packet_bytes f n) }
{
    if !fits(out.len(), at, PACKETS_LENGTH) {
        return;
    }
    out[at] = PACKETS;
    put_word(out, at + FLOW_AT, f);
    put_word(out, at + NUMBER_AT, n);
}

// Bucket k with its count and its idsum.
pub fn put_bucket(out: &mut [u8], at: usize, k: u32, c: i32, s: u32)
    ensures { out.new ≡ written out.old at (bucket_bytes k c s) }
{
    if !fits(out.len(), at, BUCKET_LENGTH) {
        return;
    }
    out[at] = BUCKET;
    put_word(out, at + INDEX_AT, k);
    put_word(out, at + COUNT_AT, count_word(c));
    put_word(out, at + IDSUM_AT, s);
}

// The end, after n records.
pub fn put_end(out: &mut [u8], at: usize, n: u32)
    ensures { out.new ≡ written out.old at (end_bytes n) }
{
    if !fits(out.len(), at, END_LENGTH) {
        return;
    }
    out[at] = END;
    put_word(out, at + RECORDS_AT, n);
}
