// Stage 6: an end of the logarithm of the spacing, and of the sheath's reactance.
ghost use Rattle.std.specs.Prelude.{◌≡◌, ◌+◌, ◌*◌};
ghost use Rattle.formulas.specs.Spacing.{third_of};
ghost use Rattle.stages.specs.Laws.Ranges.{LogRanges, ThirdRanges, SheathReactanceRanges};

use super::ends::End;
use super::logarithm::log;
use wide::trillion::mul_div_trillion;

// An end of the logarithm with that of a third of ln 2, which arrangement 2 alone adds. The number is the case's word, as C hands
// it over.
fn with_third(arrangement: u32, log: u64, third: u64) -> u64
    requires { ThirdRanges log third }
    ensures { result ≡ log + third_of arrangement third }
{
    if arrangement == 2 {
        return log + third;
    }
    log
}

pub fn spacing_log<R: End>(arrangement: u32, s: u64, d: u64) -> u64
    requires { LogRanges (2 * s) d }
    ensures { result ≡ R.spacing_log arrangement s d }
{
    with_third(arrangement, log::<R>(2 * s, d), R::LN2_THIRD)
}

pub fn sheath_reactance<R: End>(b: u64, l: u64) -> u64
    requires { SheathReactanceRanges b l }
    ensures { result ≡ R.sheath_reactance b l }
{
    mul_div_trillion::<R>(b, l)
}
