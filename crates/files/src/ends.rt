// The end of a file: what is due after its records.
ghost use Rattle.std.specs.Prelude.{◌≡◌};
ghost use Rattle.files.specs.Turns.{end_answer};

use crate::fields::end_at;
use crate::records::END_LENGTH;
use params::{Refusal, Refused};

// A whole end that says how many records there were, and no byte after it.
pub fn judge_end(bytes: &[u8], at: usize, n: usize) -> Result<(), Refused>
    ensures { result ≡ end_answer bytes.now at n }
{
    if bytes.len() <= at {
        return Err(Refused(Refusal::Form, bytes.len()));
    }
    let Some(records) = end_at(bytes, at) else {
        return Err(Refused(Refusal::Form, at));
    };
    if records as usize != n {
        return Err(Refused(Refusal::Form, at));
    }
    if at + END_LENGTH < bytes.len() {
        return Err(Refused(Refusal::Form, at + END_LENGTH));
    }
    Ok(())
}
