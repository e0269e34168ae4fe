// The first head, while its bytes come.
ghost use Rattle.std.specs.Prelude.{◌≡◌};
ghost use Rattle.intake.specs.Intake.{head_settled};

use files::heads::head_length_in;
use files::records::{EXTENDED_HEAD, HEAD};

// Whether the bytes at hand settle the first head: all of a head, or a first byte that none has.
pub fn head_settled(bytes: &[u8]) -> bool
    ensures { result ≡ head_settled bytes.now }
{
    match bytes.first() {
        None => false,
        Some(&first) => {
            head_length_in(bytes) <= bytes.len() || !(first == HEAD || first == EXTENDED_HEAD)
        }
    }
}
