// The two heads of the input: the first gives the parameters, and the downstream one must say the same.
ghost use Rattle.std.specs.Prelude.{◌≡◌, true};
ghost use Rattle.params.specs.Params.{good_params};
ghost use Rattle.files.specs.Records.{record_at, is_head};
ghost use Rattle.desk.specs.Desk.{few_enough, begin_of, downstream_head_answer};

use files::heads::head;
use params::{Params, Refusal, Refused};

// A desk takes sketches of at most so many buckets.
pub const MOST_BUCKETS: usize = 1536;

// Whether parameters that keep the rules have few enough buckets for a desk.
fn few_enough(p: Params) -> bool
    requires { good_params p ≡ true }
    ensures { result ≡ few_enough p }
{
    p.size() <= MOST_BUCKETS
}

// Judges the first head of the input, once as many bytes are at hand as the head has that its first byte says, or a first byte that none has, or the input has ended.
pub fn begin(bytes: &[u8]) -> Result<Params, Refused>
    ensures { result ≡ begin_of bytes.now }
{
    let p = head(bytes)?;
    if !few_enough(p) {
        return Err(Refused(Refusal::Param, 0));
    }
    Ok(p)
}

// Judges a downstream head that stands first, against the first one's parameters.
pub(crate) fn judge_downstream_head(p: Params, bytes: &[u8]) -> Result<(), Refused>
    requires { is_head (record_at bytes.now 0) ≡ true }
    ensures { result ≡ downstream_head_answer p bytes.now }
{
    let Ok(q) = begin(bytes) else {
        return Err(Refused(Refusal::Param, 0));
    };
    if !p.same(q) {
        return Err(Refused(Refusal::Mismatch, 0));
    }
    Ok(())
}
