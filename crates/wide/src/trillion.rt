// a·b/10^12 rounded either way. 10^12 is 2^12 * 5^12, and 5^12 has 28 bits: past the 12 low bits two divisions of 64-bit
// numbers by a constant do, and the compiler makes multiplications of those.
ghost use Rattle.std.specs.Prelude.{◌≡◌, ◌*◌, ◌^◌, ◌<◌};
ghost use Rattle.exact.specs.Trillion.{trillion};
ghost use Rattle.wide.specs.Limbs.{value};
ghost use Rattle.wide.specs.Split.{Split};

use super::division::Divided;
use super::limbs::{Wide, product};
use super::rounding::Rounding;

// 10^12, the T of docs/RATING.md.
pub const T: u64 = 1_000_000_000_000;

fn divide(n: Wide) -> Divided<u64>
    requires { n.hi < trillion }
    ensures { Split (value n) trillion result.quotient result.rest }
{
    if n.hi == 0 {
        return Divided {
            quotient: n.lo / T,
            rest: n.lo % T,
        };
    }
    // the number without its 44 low bits, then the 32 bits below, then the 12 that 2^12 leaves over
    let top = n.hi * 1048576 + n.lo / 17592186044416;
    let next = top % 244140625 * 4294967296 + n.lo / 4096 % 4294967296;
    Divided {
        quotient: top / 244140625 * 4294967296 + next / 244140625,
        rest: next % 244140625 * 4096 + n.lo % 4096,
    }
}

pub fn mul_div_trillion<R: Rounding>(a: u64, b: u64) -> u64
    requires { R.round (a * b) trillion < 2 ^ 64 }
    ensures { result ≡ R.round (a * b) trillion }
{
    let d = divide(product(a, b));
    d.quotient + R::carry(d.rest)
}
