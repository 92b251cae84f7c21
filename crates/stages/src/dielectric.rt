// Stage 9: the dielectric loss and its rise.
ghost use Rattle.std.specs.Prelude.{◌≡◌};
ghost use Rattle.formulas.specs.Dielectric.{dielectric_loss, dielectric_rise};
ghost use Rattle.stages.specs.Laws.Ranges.{DielectricLossRanges, DielectricRiseRanges};

use super::thermal::Thermal;
use wide::ratio::mul_div;
use wide::rounding::Up;

pub fn dielectric_loss(e: u64, u0: u64, t: u64, b: u64, l: u64) -> u64
    requires { DielectricLossRanges e u0 t b l }
    ensures { result ≡ dielectric_loss e u0 t b l }
{
    mul_div::<Up>(e * (u0 * u0) * t, b, 360 * l)
}

pub fn dielectric_rise(n: u64, wd: u64, t: Thermal) -> u64
    requires { DielectricRiseRanges n wd t.t1 t.t2 t.t3 t.t4 }
    ensures { result ≡ dielectric_rise n wd t.t1 t.t2 t.t3 t.t4 }
{
    mul_div::<Up>(
        wd,
        1000 * t.t1 + 2 * n * (1000 * (t.t2 + t.t3) + t.t4),
        2000000000000,
    )
}
