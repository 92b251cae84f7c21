// The sun on a case: the rise of the conductor by the heat that the cable takes up. T4 enters with no ρ: refusal 32 leaves none where the
// sun is.
ghost use Rattle.std.specs.Prelude.{◌≡◌};
ghost use Rattle.rating.specs.Values.{solar_rise_of};

use super::case::SoundCase;
use fields::{SOLAR_HEAT, T4};

impl SoundCase {
    #[tactic(auto, unfolding(crate::specs::Values::solar_rise_of, formulas::specs::Sun::solar_rise))]
    pub(crate) fn solar_rise(&self) -> u64
        ensures { result ≡ solar_rise_of self.now.x }
    {
        u64::from(self.x[SOLAR_HEAT]) * u64::from(self.x[T4])
    }
}
