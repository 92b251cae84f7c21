// Division of a two-limb number by one limb, where the quotient is one limb: long division with digits of 32 bits.
ghost use Rattle.std.specs.Prelude.{◌+◌, ◌*◌, ◌^◌, ◌≤◌, ◌<◌};
ghost use Rattle.wide.specs.Limbs.{value};
ghost use Rattle.wide.specs.Split.{Split};
ghost use Rattle.wide.specs.Laws.Ranges.{DigitRanges, IsRemaining};

use super::limbs::Wide;

// A quotient of one limb or two, and what is left over.
#[derive(Clone, Copy)]
pub struct Divided<Q> {
    pub quotient: Q,
    pub rest: u64,
}

// What is left of a after b, with v added to a where b is more.
fn remaining(a: u64, b: u64, v: u64) -> u64
    requires { b ≤ a + v }
    ensures { IsRemaining a b v result }
{
    if b <= a {
        return a - b;
    }
    v - (b - a)
}

// One digit of the quotient. Dividing by the divisor's upper half alone gives a digit that is at most 2 too large, since
// the divisor has its top bit set. 2 too large is rare, and the only branch: between right and 1 too large no processor can
// tell beforehand, so that is left to `min` and the function above, which compile to none.
fn digit(u: u64, next: u64, v: u64) -> Divided<u64>
    requires { DigitRanges u next v }
    ensures { Split (u * 2 ^ 32 + next) v result.quotient result.rest }
{
    let upper = v / 4294967296;
    let q = u / upper;
    let have = u % upper * 4294967296 + next;
    let owed = q * (v % 4294967296);
    let short = owed.saturating_sub(have);
    if short > v {
        return Divided {
            quotient: q - 2,
            rest: v - (short - v),
        };
    }
    Divided {
        quotient: q - short.min(1),
        rest: remaining(have, owed, v),
    }
}

// Both numbers are shifted until the divisor has its top bit set: the quotient stays, and the rest is shifted too.
fn long_division(n: Wide, c: u64) -> Divided<u64>
    requires { n.hi < c }
    ensures { Split (value n) c result.quotient result.rest }
{
    let s = c.leading_zeros();
    let v = c << s;
    // in two steps, since a shift by 64 - s would be one by 64 at s = 0
    let u = (n.hi << s) + (n.lo / 2 >> (63 - s));
    let low = n.lo << s;
    let first = digit(u, low / 4294967296, v);
    let second = digit(first.rest, low % 4294967296, v);
    Divided {
        quotient: first.quotient * 4294967296 + second.quotient,
        rest: second.rest >> s,
    }
}

pub fn divide(n: Wide, c: u64) -> Divided<u64>
    requires { n.hi < c }
    ensures { Split (value n) c result.quotient result.rest }
{
    if n.hi == 0 {
        return Divided {
            quotient: n.lo / c,
            rest: n.lo % c,
        };
    }
    long_division(n, c)
}
