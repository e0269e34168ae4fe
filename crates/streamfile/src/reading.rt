// A stream file read into a lent sketch: its packets are inserted in turn.
ghost use Rattle.std.specs.Prelude.{◌≡◌, ◌≤◌};
ghost use Rattle.sketch.specs.Sketch.{sketch};
ghost use Rattle.sketch.specs.Packets.{Unwound};
ghost use Rattle.streamfile.specs.Streams.{packets_in, flows_in, numbers_in, RecordsRead, StreamRead};

use buckets::first_damaged;
use files::ends::judge_end;
use files::fields::packets_at;
use files::heads::{head_length_in, judge_parameters};
use files::records::PACKETS_LENGTH;
use params::{Params, Refusal, Refused};
use sketch::packets::step;

// Takes the first n packets of the file out again, the last of them first: the sketch is then what it was before they went in.
fn withdraw_packets(p: Params, counts: &mut [i32], idsums: &mut [u32], bytes: &[u8], n: usize)
    requires { n ≤ packets_in bytes.now }
    ensures { Unwound p (flows_in bytes.now) (numbers_in bytes.now) n (sketch counts.old idsums.old) (sketch counts.new idsums.new) }
{
    let first = head_length_in(bytes);
    for i in (0..n).rev() {
        let Some((flow, number)) = packets_at(bytes, first + PACKETS_LENGTH * i) else {
            return;
        };
        let _ = step(true, p, counts, idsums, flow, number);
    }
}

// The records after the head. One that is refused has the packets before it taken out again.
fn read_records(
    p: Params,
    counts: &mut [i32],
    idsums: &mut [u32],
    bytes: &[u8],
) -> Result<(), Refused>
    ensures { RecordsRead p bytes.now (sketch counts.old idsums.old) result (sketch counts.new idsums.new) }
{
    let mut at = head_length_in(bytes);
    let mut n = 0;
    while let Some((flow, number)) = packets_at(bytes, at) {
        if let Err(Refused(refusal, _)) = step(false, p, counts, idsums, flow, number) {
            withdraw_packets(p, counts, idsums, bytes, n);
            return Err(Refused(refusal, at));
        }
        at += PACKETS_LENGTH;
        n += 1;
    }
    if let Err(refused) = judge_end(bytes, at, n) {
        withdraw_packets(p, counts, idsums, bytes, n);
        return Err(refused);
    }
    Ok(())
}

// Inserts the packets of a stream file into a sketch with its head's parameters. After a refusal the sketch is as it was.
pub fn read_stream(
    p: Params,
    counts: &mut [i32],
    idsums: &mut [u32],
    bytes: &[u8],
) -> Result<(), Refused>
    ensures { StreamRead p bytes.now (sketch counts.old idsums.old) result (sketch counts.new idsums.new) }
{
    judge_parameters(p, bytes)?;
    p.judge_lent(counts.len(), idsums.len())?;
    let x = first_damaged(counts, idsums);
    if x < counts.len() {
        return Err(Refused(Refusal::Damage, x));
    }
    read_records(p, counts, idsums, bytes)
}
