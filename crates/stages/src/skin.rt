// Stage 3: the skin effect.
ghost use Rattle.std.specs.Prelude.{◌≡◌, ◌≤◌};
ghost use Rattle.formulas.specs.Skin.{skin_reactance, skin_ratio, skin_ratio_squared, factor};
ghost use Rattle.formulas.specs.Refusals.{skin_limit};
ghost use Rattle.stages.specs.Laws.Ranges.{SkinReactanceRanges, SkinRatioRanges};

use super::ends::End;
use wide::ratio::mul_div;
use wide::rounding::Up;
use wide::trillion::{T, mul_div_trillion};

fn skin_reactance(f: u64, k: u64) -> u64
    requires { SkinReactanceRanges f k }
    ensures { result ≡ skin_reactance f k }
{
    (f * Up::PI * k).div_ceil(125000)
}

pub fn skin_ratio(f: u64, k: u64, rc: u64) -> u64
    requires { SkinRatioRanges f k rc }
    ensures { result ≡ skin_ratio f k rc }
{
    mul_div::<Up>(skin_reactance(f, k), T, rc)
}

// The factor of a z that refusal 8 lets pass.
pub fn factor(z: u64) -> u64
    requires { z ≤ skin_limit }
    ensures { result ≡ factor (skin_ratio_squared z) }
{
    let w = mul_div_trillion::<Up>(z, z);
    mul_div::<Up>(5 * w, T, 960 * T + 4 * w)
}
