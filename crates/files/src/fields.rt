// What a body says: packets of a flow, a bucket, or an end; and where its fields stand, counted from its first byte.
ghost use Rattle.std.specs.Prelude.{◌≡◌};
ghost use Rattle.files.specs.Bytes.{count_of};
ghost use Rattle.files.specs.Layout.{packets_in_body, bucket_in_body, end_in_body, packets_at, bucket_at, end_at};

use crate::records::{BUCKET, BUCKET_BODY, END, END_BODY, PACKETS, PACKETS_BODY, body_of, word};

// Packets: the flow and the number.
pub(crate) const FLOW_IN_BODY: usize = 0;

pub(crate) const NUMBER_IN_BODY: usize = FLOW_IN_BODY + 4;

// A bucket: its index, its count and its idsum.
pub(crate) const INDEX_IN_BODY: usize = 0;

pub(crate) const COUNT_IN_BODY: usize = INDEX_IN_BODY + 4;

pub(crate) const IDSUM_IN_BODY: usize = COUNT_IN_BODY + 4;

// An end: how many records stood since the head.
pub(crate) const RECORDS_IN_BODY: usize = 0;

// A head: d, m, and the multiplier and the offset of each pair. The fifth stands in a head of kind 10 alone.
pub(crate) const ARRAYS_IN_BODY: usize = 0;

pub(crate) const BUCKETS_IN_BODY: usize = ARRAYS_IN_BODY + 1;

pub(crate) const MULTIPLIER_1_IN_BODY: usize = BUCKETS_IN_BODY + 4;

pub(crate) const OFFSET_1_IN_BODY: usize = MULTIPLIER_1_IN_BODY + 4;

pub(crate) const MULTIPLIER_2_IN_BODY: usize = OFFSET_1_IN_BODY + 4;

pub(crate) const OFFSET_2_IN_BODY: usize = MULTIPLIER_2_IN_BODY + 4;

pub(crate) const MULTIPLIER_3_IN_BODY: usize = OFFSET_2_IN_BODY + 4;

pub(crate) const OFFSET_3_IN_BODY: usize = MULTIPLIER_3_IN_BODY + 4;

pub(crate) const MULTIPLIER_4_IN_BODY: usize = OFFSET_3_IN_BODY + 4;

pub(crate) const OFFSET_4_IN_BODY: usize = MULTIPLIER_4_IN_BODY + 4;

pub(crate) const MULTIPLIER_5_IN_BODY: usize = OFFSET_4_IN_BODY + 4;

pub(crate) const OFFSET_5_IN_BODY: usize = MULTIPLIER_5_IN_BODY + 4;

// The count that 32 bits stand for in two's complement.
fn count_of(n: u32) -> i32
    ensures { result ≡ count_of n }
{
    n.cast_signed()
}

// What a body says: a flow and a number of its packets, or none where it has not as many bytes as a body of packets.
pub fn packets_in(body: &[u8]) -> Option<(u32, u32)>
    ensures { result ≡ packets_in_body body.now }
{
    if body.len() != PACKETS_BODY {
        return None;
    }
    Some((word(body, FLOW_IN_BODY), word(body, NUMBER_IN_BODY)))
}

// The index, the count and the idsum of a bucket, likewise.
pub fn bucket_in(body: &[u8]) -> Option<(u32, i32, u32)>
    ensures { result ≡ bucket_in_body body.now }
{
    if body.len() != BUCKET_BODY {
        return None;
    }
    let count = count_of(word(body, COUNT_IN_BODY));
    Some((word(body, INDEX_IN_BODY), count, word(body, IDSUM_IN_BODY)))
}

// How many records an end says there were, likewise.
pub fn end_in(body: &[u8]) -> Option<u32>
    ensures { result ≡ end_in_body body.now }
{
    if body.len() != END_BODY {
        return None;
    }
    Some(word(body, RECORDS_IN_BODY))
}

// And the body of the record at an offset.
pub fn packets_at(bytes: &[u8], at: usize) -> Option<(u32, u32)>
    ensures { result ≡ packets_at bytes.now at }
{
    packets_in(body_of(bytes, at, PACKETS))
}

pub fn bucket_at(bytes: &[u8], at: usize) -> Option<(u32, i32, u32)>
    ensures { result ≡ bucket_at bytes.now at }
{
    bucket_in(body_of(bytes, at, BUCKET))
}

pub fn end_at(bytes: &[u8], at: usize) -> Option<u32>
    ensures { result ≡ end_at bytes.now at }
{
    end_in(body_of(bytes, at, END))
}
