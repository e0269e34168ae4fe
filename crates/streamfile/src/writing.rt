// A stream file written from flows and numbers.
ghost use Rattle.std.specs.Prelude.{◌≡◌, ◌+◌, ◌*◌, ◌≤◌, length};
ghost use Rattle.params.specs.Lists.{below};
ghost use Rattle.files.specs.Bytes.{overwritten};
ghost use Rattle.files.specs.Records.{packets_length};
ghost use Rattle.streamfile.specs.Writing.{packets_bytes, is_flow_at, is_number_at, stream_write_answer, StreamWritten};

use buckets::is_number;
use files::heads::head_length;
use files::records::{END_LENGTH, PACKETS_LENGTH};
use files::writing::{put_end, put_head, put_packets};
use params::{Params, Refusal, Refused};

// Whether all of these are numbers of flows.
fn all_flows(p: Params, flows: &[u32]) -> bool
    ensures { result ≡ below (length flows.now) (is_flow_at p flows.now) }
{
    flows.iter().all(|f| p.is_flow(*f))
}

// Whether all of these are numbers of packets.
fn all_numbers(numbers: &[u32]) -> bool
    ensures { result ≡ below (length numbers.now) (is_number_at numbers.now) }
{
    numbers.iter().all(|n| is_number(*n))
}

// The answer, which alters nothing; `room` is the length of the output.
fn judge(p: Params, flows: &[u32], numbers: &[u32], room: usize) -> Result<(), Refused>
    ensures { result ≡ stream_write_answer p flows.now numbers.now room }
{
    if !p.check() {
        return Err(Refused(Refusal::Param, 0));
    }
    let n = flows.len();
    if n != numbers.len() || 65536 < n {
        return Err(Refused(Refusal::Length, 0));
    }
    if room < head_length(p) + PACKETS_LENGTH * n + END_LENGTH {
        return Err(Refused(Refusal::Length, 0));
    }
    if !all_flows(p, flows) {
        return Err(Refused(Refusal::Flow, 0));
    }
    if !all_numbers(numbers) {
        return Err(Refused(Refusal::Count, 0));
    }
    Ok(())
}

// The packet records, from an offset on.
fn put_all(out: &mut [u8], first: usize, flows: &[u32], numbers: &[u32])
    requires flows_len { length flows.now ≡ length numbers.now }
    requires flows_in_bounds { first + packets_length * length flows.now ≤ length out.old }
    ensures { out.new ≡ overwritten out.old first (packets_bytes flows.now numbers.now) }
{
    let mut at = first;
    for i in 0..flows.len() {
        put_packets(out, at, flows[i], numbers[i]);
        at += PACKETS_LENGTH;
    }
}

// Writes the stream file of these flows, each by its number; the rest of the output is not touched.
pub fn write_stream(
    p: Params,
    flows: &[u32],
    numbers: &[u32],
    out: &mut [u8],
) -> Result<usize, Refused>
    ensures { StreamWritten p flows.now numbers.now out.old result out.new }
{
    judge(p, flows, numbers, out.len())?;
    let n = flows.len();
    let first = head_length(p);
    put_head(out, p);
    put_all(out, first, flows, numbers);
    let at = first + PACKETS_LENGTH * n;
    put_end(out, at, n as u32);
    Ok(at + END_LENGTH)
}
