// The stages of the reading, each where it is due: the packets of a stream and its end, the downstream head, and nothing more.
ghost use Rattle.std.specs.Prelude.{◌≡◌, true};
ghost use Rattle.sketch.specs.Sketch.{sketch};
ghost use Rattle.files.specs.Records.{record_at, is_kind, is_head, end_kind};
ghost use Rattle.desk.specs.Desk.{is_due, packets_due, stage_after, after_end, taken as «TakenOf», taken_answer, after_taken, due_of, due_end, due_head, end_state, end_stage, head_state, head_stage, nothing_stage, packets_stage, packets_sketch, offsets_fit};

use crate::heads::judge_downstream_head;
use crate::states::{Stage, State, stop};
use files::fields::{end_at, packets_at};
use files::heads::head_length;
use files::records::{END, END_LENGTH, EXTENDED_HEAD, HEAD, PACKETS, PACKETS_LENGTH, is_kind};
use params::{Params, Refusal, Refused};
use sketch::packets::step;

// What stands where a record of a kind is due: it, not yet all of it, or something else.
#[derive(Clone, Copy, Debug, PartialEq, Eq)]
pub(crate) enum Due {
    Here,
    NotYet,
    Other,
}

// How many packets were taken, and the answer for the next.
#[derive(Clone, Copy)]
pub(crate) struct Run {
    pub taken: usize,
    pub answer: Result<(), Refused>,
}

// Takes the packet records that stand first, up to one that is refused.
fn take_packets(p: Params, counts: &mut [i32], idsums: &mut [u32], bytes: &[u8]) -> Run
    ensures value { result ≡ record { taken = «TakenOf» p bytes.now (sketch counts.old idsums.old); answer = taken_answer p bytes.now (sketch counts.old idsums.old) } }
    ensures sketch_after { sketch counts.new idsums.new ≡ after_taken p bytes.now (sketch counts.old idsums.old) }
{
    let mut at = 0;
    let mut taken = 0;
    while let Some((flow, number)) = packets_at(bytes, at) {
        let answer = step(false, p, counts, idsums, flow, number);
        if answer.is_err() {
            return Run { taken, answer };
        }
        at += PACKETS_LENGTH;
        taken += 1;
    }
    Run {
        taken,
        answer: Ok(()),
    }
}

// Packets of the downstream stream, or of the upstream one, are due.
fn is_due(downstream: bool, stage: Stage) -> bool
    ensures { result ≡ is_due downstream stage }
{
    match stage {
        Stage::UpstreamPackets => !downstream,
        Stage::DownstreamPackets => downstream,
        _ => false,
    }
}

// Packets of either are due.
fn packets_due(stage: Stage) -> bool
    ensures { result ≡ packets_due stage }
{
    matches!(stage, Stage::UpstreamPackets | Stage::DownstreamPackets)
}

// What is due after packets with this answer.
fn stage_after(stage: Stage, answer: Result<(), Refused>) -> Stage
    ensures { result ≡ stage_after stage answer }
{
    match answer {
        Ok(()) => stage,
        Err(Refused(refusal, _)) => Stage::Refused(refusal),
    }
}

// What is due after the end of a stream.
fn after_end(stage: Stage) -> Stage
    ensures { result ≡ after_end stage }
{
    match stage {
        Stage::UpstreamPackets => Stage::DownstreamHead,
        Stage::DownstreamPackets => Stage::Nothing,
        _ => stage,
    }
}

// The packets of the downstream stream, or of the upstream one, where they are due.
pub(crate) fn packets_stage(
    downstream: bool,
    p: Params,
    s: State,
    counts: &mut [i32],
    idsums: &mut [u32],
    bytes: &[u8],
) -> State
    requires { offsets_fit bytes.now s ≡ true }
    ensures value { result ≡ packets_stage downstream p bytes.now (sketch counts.old idsums.old) s }
    ensures sketch_after { sketch counts.new idsums.new ≡ packets_sketch downstream p bytes.now (sketch counts.old idsums.old) s }
{
    if !is_due(downstream, s.stage) {
        return s;
    }
    let run = take_packets(p, counts, idsums, bytes);
    State {
        stage: stage_after(s.stage, run.answer),
        at: s.at + PACKETS_LENGTH * run.taken,
        records: s.records + run.taken,
    }
}

// What stands first, where a record of a kind is due.
fn due_of(kind: u8, bytes: &[u8]) -> Due
    ensures { result ≡ due_of kind bytes.now }
{
    match bytes.first() {
        None => Due::NotYet,
        Some(_) if is_kind(bytes, 0, kind) => Due::Here,
        Some(&first) if first == kind => Due::NotYet,
        Some(_) => Due::Other,
    }
}

// The same where packets are due: an end may stand there, and packets that are not whole yet may.
fn due_end(bytes: &[u8]) -> Due
    ensures { result ≡ due_end bytes.now }
{
    match bytes.first() {
        Some(&PACKETS) => Due::NotYet,
        _ => due_of(END, bytes),
    }
}

// A whole end stands first.
fn take_end(s: State, bytes: &[u8]) -> State
    requires { (is_kind end_kind (record_at bytes.now 0) ≡ true) × (offsets_fit bytes.now s ≡ true) }
    ensures { result ≡ end_state Due.Here bytes.now s }
{
    let Some(number) = end_at(bytes, 0) else {
        return stop(Refusal::Form, s);
    };
    if number as usize != s.records {
        return stop(Refusal::Form, s);
    }
    State {
        stage: after_end(s.stage),
        at: s.at + END_LENGTH,
        records: 0,
    }
}

// The end of a stream, where packets are due.
pub(crate) fn end_stage(s: State, bytes: &[u8]) -> State
    requires { offsets_fit bytes.now s ≡ true }
    ensures { result ≡ end_stage bytes.now s }
{
    if !packets_due(s.stage) {
        return s;
    }
    match due_end(bytes) {
        Due::NotYet => s,
        Due::Other => stop(Refusal::Form, s),
        Due::Here => take_end(s, bytes),
    }
}

// Where a head is due, one of either profile may stand.
fn due_head(bytes: &[u8]) -> Due
    ensures { result ≡ due_head bytes.now }
{
    match bytes.first() {
        Some(&EXTENDED_HEAD) => due_of(EXTENDED_HEAD, bytes),
        _ => due_of(HEAD, bytes),
    }
}

// A whole head stands first.
fn take_head(p: Params, s: State, bytes: &[u8]) -> State
    requires { (is_head (record_at bytes.now 0) ≡ true) × (offsets_fit bytes.now s ≡ true) }
    ensures { result ≡ head_state Due.Here p bytes.now s }
{
    match judge_downstream_head(p, bytes) {
        Ok(()) => State {
            stage: Stage::DownstreamPackets,
            at: s.at + head_length(p),
            records: 0,
        },
        Err(Refused(refusal, _)) => stop(refusal, s),
    }
}

// The downstream head, where it is due.
pub(crate) fn head_stage(p: Params, s: State, bytes: &[u8]) -> State
    requires { offsets_fit bytes.now s ≡ true }
    ensures { result ≡ head_stage p bytes.now s }
{
    let Stage::DownstreamHead = s.stage else {
        return s;
    };
    match due_head(bytes) {
        Due::NotYet => s,
        Due::Other => stop(Refusal::Form, s),
        Due::Here => take_head(p, s, bytes),
    }
}

// Nothing more is due.
pub(crate) fn nothing_stage(s: State, bytes: &[u8]) -> State
    ensures { result ≡ nothing_stage bytes.now s }
{
    let Stage::Nothing = s.stage else {
        return s;
    };
    if !bytes.is_empty() {
        return stop(Refusal::Form, s);
    }
    s
}
