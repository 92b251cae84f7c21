// Stage 4: the proximity effect and the a.c. resistance.
ghost use Rattle.std.specs.Prelude.{◌≡◌, ◌≤◌};
ghost use Rattle.formulas.specs.Proximity.{spacing_ratio, proximity_h, proximity_g, proximity_factor, ac_resistance};
ghost use Rattle.formulas.specs.Laws.Bounds.{most_skin_factor};
ghost use Rattle.stages.specs.Laws.Ranges.{SpacingRanges, ProximityRanges, AcResistanceRanges};

use wide::ratio::mul_div;
use wide::rounding::Up;
use wide::trillion::{T, mul_div_trillion};

// One quotient with factors of its own, as `axis_ratio` is.
pub fn spacing_ratio(dc: u64, s: u64) -> u64
    requires { SpacingRanges dc s }
    ensures { result ≡ spacing_ratio dc s }
{
    mul_div::<Up>(dc * dc, T, s * s)
}

// h, of the factor with kp, the G of docs/RATING.md.
fn proximity_h(factor: u64) -> u64
    requires { factor ≤ most_skin_factor }
    ensures { result ≡ proximity_h factor }
{
    mul_div::<Up>(118 * factor, T, 100 * factor + 27 * T)
}

// g, of u and the same factor.
fn proximity_g(u: u64, factor: u64) -> u64
    requires { ProximityRanges u factor }
    ensures { result ≡ proximity_g u factor }
{
    mul_div::<Up>(312 * u, factor, 1000000000000000)
}

pub fn proximity_factor(u: u64, factor: u64) -> u64
    requires { ProximityRanges u factor }
    ensures { result ≡ proximity_factor u factor }
{
    mul_div_trillion::<Up>(u, proximity_g(u, factor) + proximity_h(factor))
}

pub fn ac_resistance(rc: u64, ys: u64, yp: u64) -> u64
    requires { AcResistanceRanges rc ys yp }
    ensures { result ≡ ac_resistance rc ys yp }
{
    mul_div_trillion::<Up>(rc, T + ys + yp)
}
