// The parameters of a sketch, and where a flow stands.
ghost use Rattle.std.specs.Prelude.{◌≡◌, ◌&&◌, not, cond, ◌+◌, ◌-◌, ◌*◌, ◌%◌, ◌<◌, ◌≤◌, eqb, leb};
ghost use Rattle.params.specs.Lists.{below};
ghost use Rattle.params.specs.Params.{prime, fingerprinted as «fingerprinted_of», most_flow, is_flow, size as «size_of», no_params, resized as «resized_of», Dimensions, pair_ok, pair_at, twins, good_dimensions, good_params, same_params};
ghost use Rattle.params.specs.Sketched.{sketched as «sketched_of», told as «told_of», is_sketched};
ghost use Rattle.params.specs.Positions.{stand as «StandOf», sketched_stands, position as «position_of», index as «index_of», positions_in};
ghost use Rattle.params.specs.Answers.{given};
ghost use Rattle.params.specs.Params.{lengths_answer, dimensions_answer, lent_answer};
ghost use Rattle.params.specs.Positions.{position_answer};

use crate::answers::{Refusal, Refused};

// The prime of every sketch.
pub const PRIME: u32 = field::P31;

// The greatest flow where flows have fingerprints: its extended number is below the prime, whatever its fingerprint is.
const MOST_FINGERPRINTED: u32 = 8388606;

// d arrays of m buckets, room for four pairs of a multiplier and an offset, and the fifth pair, which gives flows their fingerprints. Both
// of its numbers are 0 in the plain profile.
#[derive(Clone, Copy, Debug, Default, PartialEq, Eq)]
pub struct Params {
    pub d: usize,
    pub m: usize,
    pub a: [u32; 4],
    pub b: [u32; 4],
    pub a5: u32,
    pub b5: u32,
}

// Whether a pair keeps the rule of its place: in use, or zero.
fn pair_ok(used: bool, a: u32, b: u32) -> bool
    ensures { result ≡ pair_ok prime used a b }
{
    if used {
        1 <= a && a < PRIME && b < PRIME
    } else {
        a == 0 && b == 0
    }
}

// The checks over pairs are written out, with no loop, so that the optimiser can lift them out of a caller's loop that inserts
// packets.
fn pairs_ok(d: usize, a: [u32; 4], b: [u32; 4]) -> bool
    ensures { result ≡ below 4 (pair_at prime d a b) }
{
    pair_ok(0 < d, a[0], b[0])
        && pair_ok(1 < d, a[1], b[1])
        && pair_ok(2 < d, a[2], b[2])
        && pair_ok(3 < d, a[3], b[3])
}

// Whether a pair in use equals one before it.
fn twin(used: bool, a: u32, b: u32, c: u32, e: u32) -> bool
    ensures { result ≡ (used && (eqb a c && eqb b e)) }
{
    used && a == c && b == e
}

fn pairs_apart(d: usize, a: [u32; 4], b: [u32; 4]) -> bool
    ensures { result ≡ below 4 (λ i. below i (λ j. not (twins d a b i j))) }
{
    !twin(1 < d, a[1], b[1], a[0], b[0])
        && !twin(2 < d, a[2], b[2], a[0], b[0])
        && !twin(2 < d, a[2], b[2], a[1], b[1])
        && !twin(3 < d, a[3], b[3], a[0], b[0])
        && !twin(3 < d, a[3], b[3], a[1], b[1])
        && !twin(3 < d, a[3], b[3], a[2], b[2])
}

// A number's position among m by the pair a, b: in an array, or, among 256, the fingerprint of a flow.
fn position_by(a: u32, b: u32, m: usize, x: u32) -> usize
    requires { 1 ≤ m }
    ensures { (result ≡ (a * x + b) % prime % m) × (result < m) }
{
    ((a as u64 * x as u64 + b as u64) % PRIME as u64) as usize % m
}

impl Params {
    // What stands for parameters where there are none.
    pub fn none() -> Params
        ensures { result ≡ no_params }
    {
        Params::default()
    }

    // The same arrays with m buckets in each.
    pub fn resized(self, m: usize) -> Params
        ensures { result ≡ «resized_of» self m }
    {
        Params { m, ..self }
    }

    // Whether the dimensions keep the rules: what the code needs so that every index is one.
    fn good_dimensions(self) -> bool
        ensures { result ≡ good_dimensions self }
    {
        2 <= self.d && self.d <= 4 && 1 <= self.m && self.m <= 16384
    }

    // Whether the parameters keep the rules.
    pub fn check(self) -> bool
        ensures { result ≡ good_params self }
    {
        let Params { d, a, b, .. } = self;
        self.good_dimensions()
            && pairs_ok(d, a, b)
            && pairs_apart(d, a, b)
            && pair_ok(self.fingerprinted(), self.a5, self.b5)
    }

    // Whether two sets of parameters are the same.
    pub fn same(self, q: Params) -> bool
        ensures { result ≡ same_params self q }
    {
        self == q
    }

    // How many buckets there are; 0 for parameters that break a rule.
    pub fn size(self) -> usize
        ensures { result ≡ cond (good_params self) («size_of» self) 0 }
    {
        if self.check() { self.d * self.m } else { 0 }
    }

    // The two slices of a sketch have d * m numbers.
    fn lengths(self, counts: usize, idsums: usize) -> Result<(), Refused>
        requires { Dimensions self }
        ensures { result ≡ lengths_answer self counts idsums }
    {
        let size = self.d * self.m;
        if counts != size || idsums != size {
            return Err(Refused(Refusal::Length, 0));
        }
        Ok(())
    }

    // The dimensions keep the rules, and the two slices have d * m numbers.
    pub fn judge_dimensions(self, counts: usize, idsums: usize) -> Result<(), Refused>
        ensures { result ≡ dimensions_answer self counts idsums }
    {
        if !self.good_dimensions() {
            return Err(Refused(Refusal::Param, 0));
        }
        self.lengths(counts, idsums)
    }

    // The parameters keep the rules, and the two slices have d * m numbers.
    pub fn judge_lent(self, counts: usize, idsums: usize) -> Result<(), Refused>
        ensures { result ≡ lent_answer self counts idsums }
    {
        if !self.check() {
            return Err(Refused(Refusal::Param, 0));
        }
        self.lengths(counts, idsums)
    }

    // Whether flows have fingerprints.
    pub fn fingerprinted(self) -> bool
        ensures { result ≡ «fingerprinted_of» self }
    {
        self.a5 != 0
    }

    // The greatest flow.
    fn most_flow(self) -> u32
        ensures { result ≡ most_flow self }
    {
        if self.fingerprinted() {
            MOST_FINGERPRINTED
        } else {
            PRIME - 1
        }
    }

    // Whether a number is that of a flow: switches send 0 for a header that they cannot parse.
    pub fn is_flow(self, f: u32) -> bool
        ensures { result ≡ is_flow self f }
    {
        1 <= f && f <= self.most_flow()
    }

    // What is sketched for a flow: itself, or its extended number. Of a number that is no flow it is taken modulo 2^32, so that no flow is
    // judged twice: what is sketched for a flow is below the prime.
    pub fn sketched(self, f: u32) -> u32
        ensures { result ≡ «sketched_of» self f % 4294967296 }
    {
        if self.fingerprinted() {
            let fingerprint = position_by(self.a5, self.b5, 256, f);
            f.wrapping_mul(256).wrapping_add(fingerprint as u32)
        } else {
            f
        }
    }

    // The flow that a sketched number tells.
    pub fn told(self, x: u32) -> u32
        ensures { result ≡ «told_of» self x }
    {
        if self.fingerprinted() { x / 256 } else { x }
    }

    // Whether a number is what is sketched for a flow. The plain profile comes first, so that a walk in it pays for one question more.
    pub fn is_sketched(self, x: u32) -> bool
        ensures { result ≡ is_sketched self x }
    {
        if !self.fingerprinted() {
            self.is_flow(x)
        } else {
            let f = self.told(x);
            self.is_flow(f) && (x % 256) as usize == position_by(self.a5, self.b5, 256, f)
        }
    }

    // The parameters, the array and the flow are right.
    fn asked(self, i: usize, f: u32) -> Result<(), Refused>
        ensures { result ≡ position_answer self i f }
    {
        if !self.check() || i < 1 || self.d < i {
            return Err(Refused(Refusal::Param, 0));
        }
        if !self.is_flow(f) {
            return Err(Refused(Refusal::Flow, 0));
        }
        Ok(())
    }

    // The position of a flow in array i; arrays count from 1.
    pub fn position(self, i: usize, f: u32) -> Result<usize, Refused>
        ensures { result ≡ given (position_answer self i f) («position_of» self i f) }
    {
        self.asked(i, f)?;
        Ok(self.stand(i - 1, self.sketched(f)))
    }

    // The index of the flow's bucket there.
    pub fn index(self, i: usize, f: u32) -> Result<usize, Refused>
        ensures { result ≡ given (position_answer self i f) («index_of» self i f) }
    {
        self.asked(i, f)?;
        Ok((i - 1) * self.m + self.stand(i - 1, self.sketched(f)))
    }

    // Where what is sketched stands in the array that i others stand before: here, for the code's own use, arrays count from 0.
    fn stand(self, i: usize, x: u32) -> usize
        requires { Dimensions self × (i < self.d) }
        ensures { (result ≡ «StandOf» self i x) × (result < self.m) }
    {
        position_by(self.a[i], self.b[i], self.m, x)
    }

    // Whether what is sketched stands in bucket k; in no bucket where the dimensions break a rule. Written out, as the checks are: with an
    // index that is not a constant, both arrays of pairs would be copied at every call.
    pub fn sketched_stands(self, x: u32, k: usize) -> bool
        ensures { result ≡ (good_dimensions self && sketched_stands self x k) }
    {
        if !self.good_dimensions() {
            return false;
        }
        let Params { d, m, a, b, .. } = self;
        if k < m {
            return k == position_by(a[0], b[0], m, x);
        }
        if k < 2 * m {
            return k == m + position_by(a[1], b[1], m, x);
        }
        if d <= 2 {
            return false;
        }
        if k < 3 * m {
            return k == 2 * m + position_by(a[2], b[2], m, x);
        }
        if d <= 3 {
            return false;
        }
        if k < 4 * m {
            return k == 3 * m + position_by(a[3], b[3], m, x);
        }
        false
    }

    // The position in each array of what is sketched, found once for all that a caller does with them. Where the dimensions break a rule
    // nothing is written. Written out, as the checks are.
    pub fn positions(self, x: u32, ks: &mut [usize; 4])
        ensures { ks.new ≡ positions_in self x ks.old }
    {
        if !self.good_dimensions() {
            return;
        }
        let Params { d, m, a, b, .. } = self;
        ks[0] = position_by(a[0], b[0], m, x);
        ks[1] = position_by(a[1], b[1], m, x);
        if 2 < d {
            ks[2] = position_by(a[2], b[2], m, x);
        }
        if 3 < d {
            ks[3] = position_by(a[3], b[3], m, x);
        }
    }
}
