// Stage 8: the loss in the armour.
ghost use Rattle.std.specs.Prelude.{◌≡◌};
ghost use Rattle.formulas.specs.Armour.{reduced_armour_resistance, unscreened_loss, screened_loss};
ghost use Rattle.stages.specs.Laws.Ranges.{ReducedArmourRanges, UnscreenedRanges, ScreenedRanges};

use super::common_sheath::axis_ratio;
use super::square::ratio_squared;
use wide::ratio::mul_div;
use wide::rounding::{Down, Up};
use wide::trillion::{T, mul_div_trillion};

fn reduced_armour_resistance(ra: u64, b: u64) -> u64
    requires { ReducedArmourRanges ra b }
    ensures { result ≡ reduced_armour_resistance ra b }
{
    let y2 = ratio_squared::<Down>(554000000000, ra, b);
    mul_div::<Up>(ra, T, T + y2)
}

pub fn unscreened_loss(ra: u64, b: u64, c: u64, da: u64) -> u64
    requires { UnscreenedRanges ra b c da }
    ensures { result ≡ unscreened_loss ra b c da }
{
    let place = axis_ratio(c, da);
    mul_div::<Up>(
        123 * reduced_armour_resistance(ra, b),
        place,
        100000000000000,
    )
}

pub fn screened_loss(w: u64, x: u64, rs: u64) -> u64
    requires { ScreenedRanges w x rs }
    ensures { result ≡ screened_loss w x rs }
{
    let v2 = ratio_squared::<Down>(x, T, rs);
    mul_div_trillion::<Up>(w, mul_div::<Up>(T, T, T + v2))
}
