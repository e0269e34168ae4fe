// An array's own stretch of a sketch, lent on to be worked on by itself.
ghost use Rattle.std.specs.Prelude.{◌≡◌};
ghost use Rattle.std.specs.Mem.{type_size};
ghost use Rattle.sketch.specs.Arrays.{array_answer, Lent};

use params::{Params, Refusal, Refused};

// Whether array i of a slice of this length can be lent: what goes with the stretches below.
pub fn array(p: Params, i: usize, len: usize) -> Result<(), Refused>
    ensures { result ≡ array_answer p i len }
{
    if !p.check() || i < 1 || p.d < i {
        return Err(Refused(Refusal::Param, 0));
    }
    if len != p.size() {
        return Err(Refused(Refusal::Length, 0));
    }
    Ok(())
}

// The counts of array i, or an empty stretch where `array` refuses.
pub fn array_counts<'a>(p: Params, i: usize, counts: &'a mut [i32]) -> &'a mut [i32]
    ensures { Lent 4 p i counts.entry.ref_ptr counts.old result.ref_ptr result.now }
{
    array_part(p, i, counts)
}

// The idsums of array i, or an empty stretch where `array` refuses.
pub fn array_idsums<'a>(p: Params, i: usize, idsums: &'a mut [u32]) -> &'a mut [u32]
    ensures { Lent 4 p i idsums.entry.ref_ptr idsums.old result.ref_ptr result.now }
{
    array_part(p, i, idsums)
}

// The stretch of array i in a slice of counts or of idsums.
fn array_part<'a, T>(p: Params, i: usize, xs: &'a mut [T]) -> &'a mut [T]
    ensures { Lent (type_size T.row) p i xs.entry.ref_ptr xs.old result.ref_ptr result.now }
{
    if array(p, i, xs.len()).is_err() {
        return &mut xs[..0];
    }
    let m = p.m;
    let at = (i - 1) * m;
    let end = at + m;
    &mut xs[at..end]
}
