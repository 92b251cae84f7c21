// The two ends of pi, of a logarithm and of what the stages make of them (docs/RATING.md, 'Notation' and stages 2, 5 and 6): the
// lower end rounds every quotient down, the upper one up. So an end is a rounding with the constants of its side, and a stage
// that has two ends is one function with a parameter `R: End`. A clause cannot name a trait's const, so each has a ghost member beside it.
ghost use Rattle.std.specs.Prelude.{ℕ, ◌*◌, ◌≤◌, ◌<◌};
ghost use Rattle.formulas.specs.Logarithm.{log_low, log_high};
ghost use Rattle.formulas.specs.Reactance.{reactance, reactance_low};
ghost use Rattle.formulas.specs.Spacing.{sheath_reactance, sheath_reactance_low, spacing_log_high, spacing_log_low};
ghost use Rattle.formulas.proofs.Laws.LogRange.{up_bounded, down_bounded};
ghost use Rattle.stages.specs.Laws.Ends.{
  LogLaws,
  ReactanceLaws,
  SpacingLaws,
  log_high_laws,
  log_low_laws,
  reactance_laws,
  reactance_low_laws,
  spacing_high_laws,
  spacing_low_laws,
};

use wide::rounding::{Down, Rounding, Up};

pub trait End: Rounding {
    ghost PI: { ℕ };

    // Over 10^10.
    const PI: u64;

    ghost LN2: { ℕ };

    // Over T.
    const LN2: u64;

    ghost LN2_THIRD: { ℕ };

    // A third of it, over T.
    const LN2_THIRD: u64;

    ghost REMAINDER: { ℕ };

    // What the terms after the thirteenth add to a logarithm at most, over T.
    const REMAINDER: u64;

    ghost FIXED_POWER: { ℕ };

    // The power that the next one repeats. Each of its terms after the first is as large as the power.
    const FIXED_POWER: u64;

    ghost reactance: { ℕ → ℕ };

    ghost log: { ℕ → ℕ → ℕ };

    ghost spacing_log: { ℕ → ℕ → ℕ → ℕ };

    ghost sheath_reactance: { ℕ → ℕ → ℕ };

    ghost bounded: { (a k b : ℕ) → 0 < b → a ≤ k * b → Self.round a b ≤ k };

    ghost reactance_laws: { ReactanceLaws Self.round reactance PI };

    ghost log_laws: { LogLaws Self.round log REMAINDER LN2 FIXED_POWER };

    ghost spacing_laws: { SpacingLaws Self.round log spacing_log sheath_reactance LN2_THIRD };
}

impl End for Down {
    ghost PI = { 31415926535 };

    const PI: u64 = 31415926535;

    ghost LN2 = { 693147180559 };

    const LN2: u64 = 693147180559;

    ghost LN2_THIRD = { 231049060186 };

    const LN2_THIRD: u64 = 231049060186;

    ghost REMAINDER = { 0 };

    const REMAINDER: u64 = 0;

    ghost FIXED_POWER = { 0 };

    const FIXED_POWER: u64 = 0;

    ghost reactance = { reactance_low };

    ghost log = { log_low };

    ghost spacing_log = { spacing_log_low };

    ghost sheath_reactance = { sheath_reactance_low };

    ghost bounded = { down_bounded };

    ghost reactance_laws = { reactance_low_laws };

    ghost log_laws = { log_low_laws };

    ghost spacing_laws = { spacing_low_laws };
}

impl End for Up {
    ghost PI = { 31415926536 };

    const PI: u64 = 31415926536;

    ghost LN2 = { 693147180560 };

    const LN2: u64 = 693147180560;

    ghost LN2_THIRD = { 231049060187 };

    const LN2_THIRD: u64 = 231049060187;

    ghost REMAINDER = { 1 };

    const REMAINDER: u64 = 1;

    ghost FIXED_POWER = { 1 };

    const FIXED_POWER: u64 = 1;

    ghost reactance = { reactance };

    ghost log = { log_high };

    ghost spacing_log = { spacing_log_high };

    ghost sheath_reactance = { sheath_reactance };

    ghost bounded = { up_bounded };

    ghost reactance_laws = { reactance_laws };

    ghost log_laws = { log_high_laws };

    ghost spacing_laws = { spacing_high_laws };
}
