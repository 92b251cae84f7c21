// a·b/c rounded either way, where the result fits one limb.
ghost use Rattle.std.specs.Prelude.{◌≡◌, ◌*◌};
ghost use Rattle.wide.specs.Laws.Ranges.{QuotientFits};

use super::division::divide;
use super::limbs::product;
use super::rounding::Rounding;

pub fn mul_div<R: Rounding>(a: u64, b: u64, c: u64) -> u64
    requires { QuotientFits c (R.round (a * b) c) }
    ensures { result ≡ R.round (a * b) c }
{
    let n = product(a, b);
    let d = divide(n, c);
    d.quotient + R::carry(d.rest)
}
