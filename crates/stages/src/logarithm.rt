// Stage 5: the two ends of a logarithm, which differ in the rounding and the constants of `End`. The loop is the paper's sum.
ghost use Rattle.std.specs.Prelude.{◌≡◌, ◌≤◌};
ghost use Rattle.formulas.specs.Logarithm.{thirteen_terms};
ghost use Rattle.formulas.specs.Laws.Bounds.{most_power};
ghost use Rattle.stages.specs.Reduced.{IsReduced};
ghost use Rattle.stages.specs.Laws.Ranges.{OctaveRanges, LogRanges};

use super::ends::End;
use wide::ratio::mul_div;
use wide::rounding::rounded;
use wide::trillion::{T, mul_div_trillion};

// a/b without its octaves: how often b can be doubled and stay at most a, and the ζ that is left, as num over den.
#[derive(Clone, Copy)]
pub struct Reduced {
    pub octaves: u32,
    pub num: u64,
    pub den: u64,
}

fn reduce(a: u64, b: u64) -> Reduced
    requires { OctaveRanges a b }
    ensures { IsReduced a b result.octaves result.num result.den }
{
    let octaves = (a / b).ilog2();
    let doubled = b << octaves;
    Reduced {
        octaves,
        num: a - doubled,
        den: a + doubled,
    }
}

// The fixed power ends the sum sooner: each term that is left is as large as the power.
fn thirteen_terms<R: End>(first: u64) -> u64
    requires { first ≤ most_power }
    ensures { result ≡ thirteen_terms R.round first }
{
    let q = mul_div_trillion::<R>(first, first);
    let mut p = first;
    let mut sum: u64 = 0;
    for j in 0..13 {
        if (p == R::FIXED_POWER) & (0 < j) {
            return sum + R::FIXED_POWER * (13 - j);
        }
        sum += rounded::<R>(2 * p, 2 * j + 1);
        p = mul_div_trillion::<R>(p, q);
    }
    sum
}

pub fn log<R: End>(a: u64, b: u64) -> u64
    requires { LogRanges a b }
    ensures { result ≡ R.log a b }
{
    let z = reduce(a, b);
    let terms = thirteen_terms::<R>(mul_div::<R>(z.num, T, z.den));
    terms + R::REMAINDER + R::LN2 * u64::from(z.octaves)
}
