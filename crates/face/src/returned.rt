// Parameters from fourteen numbers, and answers as numbers: C knows neither our structs nor our enums.
ghost use Rattle.std.specs.Prelude.{◌≡◌, ◌≤◌, IfOk};
ghost use Rattle.params.specs.Answers.{number_in, index_in, value_in};
ghost use Rattle.face.specs.Returned.{params_of, param_numbers, obtained_numbers, figures_in};

use params::{Params, Refused};
use peel::Figures;

// A number passed by value is known to fit its type; an element behind a reference is not.
pub(crate) fn wide(n: u32) -> usize
    ensures { result ≡ n }
{
    n as usize
}

// The number of the prime; there is one.
const FIRST_PRIME: u32 = 1;

// d, m, the four multipliers, the four offsets, the prime's number, the fifth pair, and a number that is kept free. Where the prime's number
// is not 1 or the last number not 0 there are no such parameters, and those that stand for none take their place, which every call refuses.
pub(crate) fn params_of(params: &[u32; 14]) -> Params
    ensures { result ≡ params_of params.now }
{
    if params[10] != FIRST_PRIME || params[13] != 0 {
        return Params::none();
    }
    let a = [params[2], params[3], params[4], params[5]];
    let b = [params[6], params[7], params[8], params[9]];
    Params {
        d: wide(params[0]),
        m: wide(params[1]),
        a,
        b,
        a5: params[11],
        b5: params[12],
    }
}

// The same fourteen numbers of parameters whose dimensions are small.
fn numbers_of(p: Params) -> [u32; 14]
    requires { (p.d ≤ 4) × (p.m ≤ 16384) }
    ensures { result ≡ param_numbers p }
{
    let Params { d, m, a, b, a5, b5 } = p;
    [
        d as u32,
        m as u32,
        a[0],
        a[1],
        a[2],
        a[3],
        b[0],
        b[1],
        b[2],
        b[3],
        FIRST_PRIME,
        a5,
        b5,
        0,
    ]
}

// Writes the place of a refusal, 0 where there is none, and gives its number, or 0.
pub(crate) fn return_answer<T>(given: &Result<T, Refused>, place: &mut usize) -> u32
    ensures { (result ≡ number_in given.now) × (place.new ≡ index_in given.now) }
{
    match given {
        Ok(_) => {
            *place = 0;
            0
        }
        Err(Refused(refusal, index)) => {
            *place = *index;
            refusal.number()
        }
    }
}

// The same for a call that gives a number: a position, an index or a length, which goes to `number`, 0 where it is refused.
pub(crate) fn return_number(
    given: Result<usize, Refused>,
    number: &mut usize,
    place: &mut usize,
) -> u32
    ensures { (result ≡ number_in given) × (place.new ≡ index_in given) × (number.new ≡ value_in given) }
{
    *number = given.unwrap_or(0);
    return_answer(&given, place)
}

// The same for parameters, whose fourteen numbers go to `numbers`, all 0 where they are refused.
pub(crate) fn return_params(
    given: Result<Params, Refused>,
    numbers: &mut [u32; 14],
    place: &mut usize,
) -> u32
    requires { IfOk given (λ p. (p.d ≤ 4) × (p.m ≤ 16384)) }
    ensures { (result ≡ number_in given) × (place.new ≡ index_in given) × (numbers.new ≡ obtained_numbers given) }
{
    *numbers = match given {
        Ok(p) => numbers_of(p),
        Err(_) => [0; 14],
    };
    return_answer(&given, place)
}

// The same for peeling, with what the walk found, all 0 where it is refused.
pub(crate) fn return_peeled(
    given: Result<Figures, Refused>,
    figures: &mut [u64; 5],
    place: &mut usize,
) -> u32
    ensures { (result ≡ number_in given) × (place.new ≡ index_in given) × (figures.new ≡ figures_in given) }
{
    *figures = match given {
        Ok(found) => [
            found.ending as u64,
            found.entries as u64,
            found.lost,
            found.extra,
            found.pops as u64,
        ],
        Err(_) => [0; 5],
    };
    return_answer(&given, place)
}
