// A two-limb number divided by one limb, where the quotient has two limbs.
ghost use Rattle.std.specs.Prelude.{◌≡◌, ◌<◌};
ghost use Rattle.wide.specs.Limbs.{value};
ghost use Rattle.wide.specs.Split.{Split};

use super::division::{Divided, divide};
use super::limbs::{Wide, sum};
use super::rounding::Rounding;

// That c is not 0 stays a clause, as in rounding.rt.
fn divided(w: Wide, c: u64) -> Divided<Wide>
    requires { 0 < c }
    ensures { Split (value w) c (value result.quotient) result.rest }
{
    let low = divide(
        Wide {
            hi: w.hi % c,
            lo: w.lo,
        },
        c,
    );
    Divided {
        quotient: Wide {
            hi: w.hi / c,
            lo: low.quotient,
        },
        rest: low.rest,
    }
}

pub fn quotient<R: Rounding>(w: Wide, c: u64) -> Wide
    requires { 0 < c }
    ensures { value result ≡ R.round (value w) c }
{
    let d = divided(w, c);
    sum(
        d.quotient,
        Wide {
            hi: 0,
            lo: R::carry(d.rest),
        },
    )
}
