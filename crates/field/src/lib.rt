// Arithmetic modulo a number p below 2^32 that is a parameter. Every function takes every input: what is read of a
// number is its residue, so arguments need not be below p, and modulo 0 the only residue is 0. What holds of inverses and
// flows holds where p is prime.
#![tactic(auto)]

ghost use Rattle.std.specs.Prelude.{◌≡◌, ◌*◌, pos, neg_ℤ};
ghost use Rattle.field.specs.Residue.{residue};
ghost use Rattle.field.specs.Flow.{inverse as «inverse_of», flow as «flow_of»};

// 2^31 - 1; proofs/Primes.antt has it, and the largest below 2^32, proved prime.
pub const P31: u32 = 2147483647;

// What n leaves, divided by p.
fn rest(p: u32, n: u64) -> u32
    ensures { result ≡ residue p (pos n) }
{
    if p == 0 { 0 } else { (n % p as u64) as u32 }
}

// The residue of - n.
fn opposite(p: u32, n: u32) -> u32
    ensures { result ≡ residue p (neg_ℤ (pos n)) }
{
    if n == 0 {
        0
    } else if n < p {
        p - n
    } else {
        let r = rest(p, n as u64);
        if r == 0 { 0 } else { p - r }
    }
}

pub fn multiply(p: u32, a: u32, b: u32) -> u32
    ensures { result ≡ residue p (pos (a * b)) }
{
    rest(p, a as u64 * b as u64)
}

// A signed count as a number from 0 to p - 1.
pub fn raise(p: u32, c: i32) -> u32
    ensures { result ≡ residue p c }
{
    if c < 0 {
        opposite(p, c.unsigned_abs())
    } else {
        rest(p, c.unsigned_abs() as u64)
    }
}

// 1 / a, for a prime p; 0 where p divides a. With p = q * a + r, the numbers a * (p - q) and r leave one rest: so 1 / a is
// (p - q) / r, and r is below a.
fn inverse(p: u32, a: u32) -> u32
    ensures { result ≡ «inverse_of» p a }
{
    let mut left = rest(p, a as u64);
    let mut x: u32 = 1;
    while 1 < left {
        x = multiply(p, x, p - p / left);
        left = p % left;
    }
    if left == 0 { 0 } else { x }
}

// The one f below a prime p with c * f = s modulo p, where p does not divide c.
pub fn flow(p: u32, c: i32, s: u32) -> u32
    ensures { result ≡ «flow_of» p c s }
{
    multiply(p, s, inverse(p, raise(p, c)))
}
