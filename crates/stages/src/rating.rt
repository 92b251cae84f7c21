// Stage 10: the rise at unit current, and the rating.
ghost use Rattle.std.specs.Prelude.{◌≡◌};
ghost use Rattle.formulas.specs.Rating.{unit_rise, rating};
ghost use Rattle.stages.specs.Laws.Ranges.{PartRanges, IsPart, UnitRiseRanges, RatingRanges};

use super::thermal::Thermal;
use wide::ratio::mul_div;
use wide::root::root;
use wide::rounding::{Down, Up};

// A part of E: the rise across one thermal resistance, of which `unit` are 1 K·m/W.
fn rise(r: u64, t: u64, unit: u64) -> u64
    requires { PartRanges r t unit }
    ensures { IsPart r t unit result }
{
    mul_div::<Up>(r, t, unit)
}

pub fn unit_rise(n: u64, r: u64, s: u64, w: u64, t: Thermal) -> u64
    requires { UnitRiseRanges n r s w t.t1 t.t2 t.t3 t.t4 }
    ensures { result ≡ unit_rise n r s w t.t1 t.t2 t.t3 t.t4 }
{
    rise(r, t.t1, 1000000)
        + rise(n * (r + s), t.t2, 1000000)
        + rise(n * (r + s + w), 1000 * t.t3 + t.t4, 1000000000)
}

pub fn rating(n: u64, e: u64) -> u64
    requires { RatingRanges n e }
    ensures { result ≡ rating n e }
{
    root(mul_div::<Down>(10000000000000, n, e))
}
