// Partial drying-out of the soil on a case: T1 to T4 as stages 9 and 10 take them, T4 in 10^-9 K·m/W, and the permitted rise.
ghost use Rattle.std.specs.Prelude.{◌≡◌};
ghost use Rattle.fields.specs.Fields as Field;
ghost use Rattle.formulas.specs.Soil.{soil_ratio};
ghost use Rattle.rating.specs.Laws.Steps.{IsThermal};
ghost use Rattle.rating.specs.Values.{isotherm_rise_of, permitted_of};

use super::case::{SoundCase, difference};
use fields::{AMBIENT_TEMPERATURE, DRY_RATIO, ISOTHERM, T1, T2, T3, T4};
use stages::thermal::Thermal;

impl SoundCase {
    // ρ as it counts.
    #[tactic(auto, unfolding(formulas::specs::Soil::soil_ratio))]
    fn soil_ratio(&self) -> u64
        ensures { result ≡ soil_ratio (Field.dry_ratio self.now.x) }
    {
        if self.x[DRY_RATIO] == 0 {
            return 1000;
        }
        u64::from(self.x[DRY_RATIO])
    }

    #[tactic(auto, unfolding(crate::specs::Values::isotherm_rise_of))]
    fn isotherm_rise(&self) -> u64
        ensures { result ≡ isotherm_rise_of self.now.x }
    {
        // unsigned_abs: where ρ is 0, θx is 0 and may lie below θa; what this is multiplied by is 0 then
        difference(self.x[ISOTHERM], self.x[AMBIENT_TEMPERATURE]).unsigned_abs()
    }

    pub(crate) fn permitted(&self) -> u64
        ensures { result ≡ permitted_of self.now.x }
    {
        10000000 * self.rise() + 10000 * (self.soil_ratio() - 1000) * self.isotherm_rise()
    }

    #[tactic(auto, unfolding(crate::specs::Values::soil_T4, formulas::specs::Soil::soil_resistance))]
    pub(crate) fn thermal(&self) -> Thermal
        ensures { IsThermal self.now.x result }
    {
        Thermal {
            t1: u64::from(self.x[T1]),
            t2: u64::from(self.x[T2]),
            t3: u64::from(self.x[T3]),
            t4: self.soil_ratio() * u64::from(self.x[T4]),
        }
    }
}
