// The head of a file: its parameters, so that a caller can lend slices of the right lengths.
ghost use Rattle.std.specs.Prelude.{◌≡◌, ◌&&◌, ◌⊎◌, ◌+◌, ◌≤◌, eqb, length};
ghost use Rattle.params.specs.Params.{good_params};
ghost use Rattle.files.specs.Bytes.{word as «word_of»};
ghost use Rattle.files.specs.Heads.{head_kind_of, head_length_of, params_in_body, head_of, parameters_answer};
ghost use Rattle.files.specs.Records.{body_length, head_kind, extended_head_kind, head_length_in};

use crate::fields::{
    ARRAYS_IN_BODY, BUCKETS_IN_BODY, MULTIPLIER_1_IN_BODY, MULTIPLIER_2_IN_BODY,
    MULTIPLIER_3_IN_BODY, MULTIPLIER_4_IN_BODY, MULTIPLIER_5_IN_BODY, OFFSET_1_IN_BODY,
    OFFSET_2_IN_BODY, OFFSET_3_IN_BODY, OFFSET_4_IN_BODY, OFFSET_5_IN_BODY,
};
use crate::records::{EXTENDED_HEAD, EXTENDED_HEAD_LENGTH, HEAD, HEAD_LENGTH, body, is_head, word};
use params::{Params, Refusal, Refused};

// The kind of the head that a profile has.
pub(crate) fn head_kind(p: Params) -> u8
    ensures { result ≡ head_kind_of p }
{
    if p.fingerprinted() {
        EXTENDED_HEAD
    } else {
        HEAD
    }
}

// And its length.
pub fn head_length(p: Params) -> usize
    ensures { result ≡ head_length_of p }
{
    if p.fingerprinted() {
        EXTENDED_HEAD_LENGTH
    } else {
        HEAD_LENGTH
    }
}

// The length of the head in a file, by its first byte.
pub fn head_length_in(bytes: &[u8]) -> usize
    ensures { result ≡ head_length_in bytes.now }
{
    if bytes.first() == Some(&EXTENDED_HEAD) {
        EXTENDED_HEAD_LENGTH
    } else {
        HEAD_LENGTH
    }
}

// Four bytes of a body as a number; 0 where it ends before them.
fn word_within(body: &[u8], at: usize) -> u32
    requires { (at + 4 ≤ length body.now) ⊎ (length body.now ≤ at) }
    ensures { result ≡ «word_of» body.now at }
{
    if body.len() <= at {
        return 0;
    }
    word(body, at)
}

// The parameters in a head's body, of either kind.
fn params_in(body: &[u8]) -> Params
    requires { (length body.now ≡ body_length head_kind) ⊎ (length body.now ≡ body_length extended_head_kind) }
    ensures { result ≡ params_in_body body.now }
{
    let m = word(body, BUCKETS_IN_BODY) as usize;
    let a = [
        word(body, MULTIPLIER_1_IN_BODY),
        word(body, MULTIPLIER_2_IN_BODY),
        word(body, MULTIPLIER_3_IN_BODY),
        word(body, MULTIPLIER_4_IN_BODY),
    ];
    let b = [
        word(body, OFFSET_1_IN_BODY),
        word(body, OFFSET_2_IN_BODY),
        word(body, OFFSET_3_IN_BODY),
        word(body, OFFSET_4_IN_BODY),
    ];
    Params {
        d: body[ARRAYS_IN_BODY] as usize,
        m,
        a,
        b,
        a5: word_within(body, MULTIPLIER_5_IN_BODY),
        b5: word_within(body, OFFSET_5_IN_BODY),
    }
}

// Whether the parameters keep the rules, and are of the profile that the head's kind says.
fn good_head(kind: u8, p: Params) -> bool
    ensures { result ≡ (good_params p && eqb kind (head_kind_of p)) }
{
    p.check() && kind == head_kind(p)
}

// Judges the head of a file and reads its parameters.
pub fn head(bytes: &[u8]) -> Result<Params, Refused>
    ensures { result ≡ head_of bytes.now }
{
    if !is_head(bytes, 0) {
        return Err(Refused(Refusal::Form, 0));
    }
    let p = params_in(body(bytes, 0));
    if !good_head(bytes[0], p) {
        return Err(Refused(Refusal::Param, 0));
    }
    Ok(p)
}

// What is judged first of a file: the head, the parameters in it and the given ones, and whether they are the same.
pub fn judge_parameters(p: Params, bytes: &[u8]) -> Result<(), Refused>
    ensures { result ≡ parameters_answer p bytes.now }
{
    let q = head(bytes)?;
    if !p.check() {
        return Err(Refused(Refusal::Param, 0));
    }
    if !p.same(q) {
        return Err(Refused(Refusal::Mismatch, 0));
    }
    Ok(())
}
