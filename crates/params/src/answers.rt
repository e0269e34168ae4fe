// The refusals of a call. `number_of` of specs/Answers.antt gives each its number.
ghost use Rattle.std.specs.Prelude.{◌≡◌};
ghost use Rattle.params.specs.Answers.{number_of};

#[derive(Clone, Copy, Debug, PartialEq, Eq)]
pub enum Refusal {
    Param = 1,
    Length,
    Flow,
    Count,
    Damage,
    Range,
    Mismatch,
    Form,
    Fold,
}

impl Refusal {
    // The refusal's number, for callers that take numbers alone.
    pub fn number(self) -> u32
        ensures { result ≡ number_of self }
    {
        self as u32
    }
}

// A refusal and its index: that of the lowest bucket at fault for Damage and Range of lent sketches (for Range of a fold its index in the folded one), the
// offset of the record at fault for a file that is read, and 0 for anything else.
#[derive(Clone, Copy, Debug, PartialEq, Eq)]
pub struct Refused(pub Refusal, pub usize);
