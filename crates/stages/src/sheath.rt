// Stage 7: the loss in the sheath.
ghost use Rattle.std.specs.Prelude.{◌≡◌};
ghost use Rattle.formulas.specs.Sheath.{
  circulating_loss,
  sl_loss,
  eddy_ratio,
  eddy_ratio_squared,
  eddy_factor,
  eddy_spacing,
  eddy_loss,
};
ghost use Rattle.stages.specs.Laws.Ranges.{SpacingRanges, CirculatingRanges, EddyFactorRanges, EddyLossRanges};

use super::square::ratio_squared;
use wide::ratio::mul_div;
use wide::rounding::Up;
use wide::trillion::{T, mul_div_trillion};

pub fn circulating_loss(x: u64, rs: u64) -> u64
    requires { CirculatingRanges x rs }
    ensures { result ≡ circulating_loss x rs }
{
    let v2 = ratio_squared::<Up>(x, T, rs);
    mul_div::<Up>(rs, v2, T + v2)
}

pub fn sl_loss(x: u64, rs: u64) -> u64
    requires { CirculatingRanges x rs }
    ensures { result ≡ sl_loss x rs }
{
    (3 * circulating_loss(x, rs)).div_ceil(2)
}

fn eddy_factor(b: u64, rs: u64) -> u64
    requires { EddyFactorRanges b rs }
    ensures { result ≡ eddy_factor (eddy_ratio_squared (eddy_ratio b rs)) }
{
    let m2 = ratio_squared::<Up>(b, T, 2 * rs);
    mul_div::<Up>(m2, T, T + m2)
}

// One quotient with factors of its own, as `axis_ratio` is.
fn eddy_spacing(d: u64, s: u64) -> u64
    requires { SpacingRanges d s }
    ensures { result ≡ eddy_spacing d s }
{
    mul_div::<Up>(d * d, T, 4 * (s * s))
}

pub fn eddy_loss(j: u64, b: u64, rs: u64, d: u64, s: u64) -> u64
    requires { EddyLossRanges j b rs d s }
    ensures { result ≡ eddy_loss j b rs d s }
{
    let inner = mul_div_trillion::<Up>(rs, eddy_factor(b, rs));
    mul_div_trillion::<Up>(3 * j * inner, eddy_spacing(d, s))
}
