// report: reads an upstream stream file and, directly after it, a downstream one from standard input, and prints the flows that
// were lost on the way, what remains unexplained, and how the walk ended; or where and why the input is refused.
// A read or a write that fails is named on standard error; where a read fails there is no report.
// Tests of what always holds, as that a part lies within its slice, stand in place of proofs; parts that start at 0 mostly say so,
// since the check then finds their length by itself.
#![tactic(auto)]

mod input; // one read at a time; records as they come, into two sketches
mod output; // the lines, all at once

use desk::heads::begin;
use desk::states::finish;
use params::{Params, Refused};
use settle::settling::settle;

// As many buckets as a report takes; a head with more is refused.
const MOST: usize = desk::heads::MOST_BUCKETS;

// So many bytes of the input are held at most.
const BUFFER_BYTES: usize = 65536;

fn main(rt: HostRuntime) {
    let mut buf = [0u8; BUFFER_BYTES];
    open(&rt, &mut buf);
}

// Reads the first head and judges it.
fn open(rt: &HostRuntime, buf: &mut [u8]) {
    let mut input = rt.stdin();
    let Ok(got) = input::read_head(&mut input, buf) else {
        output::cannot_read(rt);
        return;
    };
    if buf.len() < got {
        return;
    }
    match begin(&buf[0..got]) {
        Err(Refused(refusal, at)) => output::refusal(rt, refusal, at),
        Ok(p) => two_sketches(rt, p, buf, got),
    }
}

// Room for the sketches of both streams. The head stands first in buf, which holds `got` bytes of the input.
fn two_sketches(rt: &HostRuntime, p: Params, buf: &mut [u8], got: usize) {
    let mut up_counts: [i32; MOST] = [0; MOST];
    let mut up_idsums: [u32; MOST] = [0; MOST];
    let mut down_counts: [i32; MOST] = [0; MOST];
    let mut down_idsums: [u32; MOST] = [0; MOST];
    let size = p.size();
    if MOST < size {
        return;
    }
    compare(
        rt,
        p,
        &mut up_counts[0..size],
        &mut up_idsums[0..size],
        &mut down_counts[0..size],
        &mut down_idsums[0..size],
        buf,
        got,
    );
}

// Fills both sketches, and reports their difference where the input is not refused.
fn compare(
    rt: &HostRuntime,
    p: Params,
    up_counts: &mut [i32],
    up_idsums: &mut [u32],
    down_counts: &mut [i32],
    down_idsums: &mut [u32],
    buf: &mut [u8],
    got: usize,
) {
    let mut input = rt.stdin();
    let taken = input::take(
        &mut input,
        p,
        up_counts,
        up_idsums,
        down_counts,
        down_idsums,
        buf,
        got,
    );
    let Ok(s) = taken else {
        output::cannot_read(rt);
        return;
    };
    match finish(s) {
        Err(Refused(refusal, at)) => output::refusal(rt, refusal, at),
        Ok(()) => a_table(rt, p, up_counts, up_idsums, down_counts, down_idsums),
    }
}

// Room for the table and for what the walk needs.
fn a_table(
    rt: &HostRuntime,
    p: Params,
    up_counts: &mut [i32],
    up_idsums: &mut [u32],
    down_counts: &[i32],
    down_idsums: &[u32],
) {
    let mut flows: [u32; MOST] = [0; MOST];
    let mut numbers: [i32; MOST] = [0; MOST];
    let mut queue: [u32; MOST] = [0; MOST];
    let mut marks: [u32; MOST] = [0; MOST];
    let size = p.size();
    if MOST < size {
        return;
    }
    print(
        rt,
        p,
        up_counts,
        up_idsums,
        down_counts,
        down_idsums,
        &mut flows[0..size],
        &mut numbers[0..size],
        &mut queue[0..size],
        &mut marks[0..size],
    );
}

// Subtracts, peels, and prints what came out.
fn print(
    rt: &HostRuntime,
    p: Params,
    up_counts: &mut [i32],
    up_idsums: &mut [u32],
    down_counts: &[i32],
    down_idsums: &[u32],
    flows: &mut [u32],
    numbers: &mut [i32],
    queue: &mut [u32],
    marks: &mut [u32],
) {
    let settled = settle(
        p,
        up_counts,
        up_idsums,
        down_counts,
        down_idsums,
        flows,
        numbers,
        queue,
        marks,
    );
    match settled {
        // no input leads here: the sketches hold no damage, and their difference does not leave the range
        Err(Refused(refusal, _)) => output::refusal(rt, refusal, 0),
        Ok(figures) => output::report(rt, flows, numbers, up_counts, up_idsums, figures),
    }
}
