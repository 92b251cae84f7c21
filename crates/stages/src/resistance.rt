// Stage 1: a resistance at a temperature.
ghost use Rattle.std.specs.Prelude.{◌≡◌};
ghost use Rattle.std.specs.Int.{w32};
ghost use Rattle.std.proofs.Common.{to_z};
ghost use Rattle.formulas.specs.Resistance.{resistance};
ghost use Rattle.stages.specs.Laws.Ranges.{FactorRanges, IsFactor, ResistanceRanges};

// A word read as two's complement.
pub fn signed(word: u32) -> i64
    ensures { result ≡ to_z w32 word }
{
    i64::from(word.cast_signed())
}

// 10^7 + α(θ - 2000): above 0, however cold it is.
fn temperature_factor(alpha: u32, theta: u32) -> u64
    requires { FactorRanges alpha (to_z w32 theta) }
    ensures { IsFactor alpha (to_z w32 theta) result }
{
    // as: it is not below zero
    (10000000 + i64::from(alpha) * (signed(theta) - 2000)) as u64
}

pub fn resistance(field: u32, alpha: u32, theta: u32) -> u64
    requires { ResistanceRanges field alpha (to_z w32 theta) }
    ensures { result ≡ resistance field alpha (to_z w32 theta) }
{
    u64::from(field) * temperature_factor(alpha, theta)
}
