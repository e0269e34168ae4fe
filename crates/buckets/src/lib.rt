// The buckets of a sketch one by one: a bucket's limits, and what an entry makes of its count and its idsum. Every public function takes
// every input.
#![tactic(auto)]

ghost use Rattle.std.specs.Prelude.{◌≡◌, ◌&&◌, cond, ltb, eqb, length};
ghost use Rattle.params.specs.Lists.{least};
ghost use Rattle.params.specs.Params.{prime};
ghost use Rattle.buckets.specs.Buckets.{in_limits, is_number, damaged_of, plus_minus, idsum_plus_minus, is_small, weight as «weight_of», all_zero};

use params::PRIME;

// Whether a number lies within a count's limits.
pub fn within(z: i64) -> bool
    ensures { result ≡ in_limits z }
{
    matches!(z, -2147483646..=2147483646)
}

// Whether a number is one of packets.
pub fn is_number(n: u32) -> bool
    ensures { result ≡ is_number n }
{
    1 <= n && n <= 2147483646
}

// Whether a bucket lies within its limits.
pub fn undamaged(c: i32, s: u32) -> bool
    ensures { result ≡ (in_limits c && ltb s prime) }
{
    within(c as i64) && s < PRIME
}

// Whether a bucket's idsum is below the prime and its count so small that the sum and the difference with another such count are within
// the limits. Where this holds of all buckets at hand, none of them is damaged and none leaves its limits: one search in place of two.
pub fn is_small(c: i32, s: u32) -> bool
    ensures { result ≡ is_small c s }
{
    s < PRIME && matches!(c, -1000000000..=1000000000)
}

// Whether a bucket is all zero.
pub fn all_zero(c: i32, s: u32) -> bool
    ensures { result ≡ all_zero c s }
{
    c == 0 && s == 0
}

// The lowest index of a bucket outside its limits, or the number of buckets; 0 for slices of different lengths.
pub fn first_damaged(counts: &[i32], idsums: &[u32]) -> usize
    ensures { result ≡ cond (eqb (length counts.now) (length idsums.now)) (least 0 (length counts.now) (damaged_of counts.now idsums.now)) 0 }
{
    if counts.len() != idsums.len() {
        return 0;
    }
    for i in 0..counts.len() {
        if !undamaged(counts[i], idsums[i]) {
            return i;
        }
    }
    counts.len()
}

// The sum or the difference of two counts, at a width that holds it.
pub fn plus_minus(minus: bool, c: i32, e: i32) -> i64
    ensures { result ≡ plus_minus minus c e }
{
    if minus {
        c as i64 - e as i64
    } else {
        c as i64 + e as i64
    }
}

// The sum or the difference of two idsums. In every bucket that is whole they are below the prime, which is below 2^31, so that the sum is below
// 2^32 and one comparison is enough. Other numbers are added modulo 2^32, and so is the prime to their difference.
pub fn idsum_plus_minus(minus: bool, s: u32, t: u32) -> u32
    ensures { result ≡ idsum_plus_minus minus s t }
{
    if minus {
        if s < t {
            s.wrapping_add(PRIME).wrapping_sub(t)
        } else {
            s - t
        }
    } else {
        let sum = s.wrapping_add(t);
        if sum < PRIME { sum } else { sum - PRIME }
    }
}

// What n packets add to an idsum of a flow for which x is sketched.
pub fn weight(x: u32, n: u32) -> u32
    ensures { result ≡ «weight_of» x n }
{
    field::multiply(PRIME, n, x)
}
