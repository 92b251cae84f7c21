// A case that the refusals of the fields let pass, and what the stages take of it: its resistances, its rise, B and its z.
ghost use Rattle.std.specs.Prelude.{◌≡◌, true, ◌≤◌, ◌-ℤ◌, nat_abs};
ghost use Rattle.std.specs.Int.{w32};
ghost use Rattle.std.proofs.Common.{to_z};
ghost use Rattle.formulas.specs.Laws.Bounds.{most_k};
ghost use Rattle.formulas.specs.Resistance;
ghost use Rattle.formulas.specs.Skin.{skin_ratio};
ghost use Rattle.formulas.specs.Tables;
ghost use Rattle.fields.specs.Fields as Field;
ghost use Rattle.rating.specs.Arrangements.{own};
ghost use Rattle.rating.specs.FieldRefusals.{field_refusal};
ghost use Rattle.rating.specs.Kind.{arrangement_as};
ghost use Rattle.rating.specs.Laws.Rise.{RiseRange};
ghost use Rattle.rating.specs.Laws.Sound.{Sound};
ghost use Rattle.rating.specs.Laws.Steps.{MetalLimits};
ghost use Rattle.rating.specs.Values.{R', Rs, B, rise_of};

use super::arrangement::Kind;
use fields::{
    AMBIENT_TEMPERATURE, CONDUCTOR, CONDUCTOR_RESISTANCE, CONDUCTOR_TEMPERATURE, Case, FREQUENCY,
    SHEATH_METAL, SHEATH_RESISTANCE, SHEATH_TEMPERATURE,
};
use stages::reactance::reactance;
use stages::resistance::{resistance, signed};
use stages::skin::skin_ratio;
use tables::{coefficient, conductor_metal};
use wide::rounding::Up;

// `alternates`: whether its current does. `eddies`: whether refusal 9 is tried.
#[derive(Clone, Copy)]
pub struct SoundCase {
    pub x: Case,
    pub kind: Kind,
    pub alternates: bool,
    pub eddies: bool,
    ghost has: { own x ≡ arrangement_as kind },
    ghost none_given: { field_refusal x ≡ 0 },
    ghost sound: { Sound x },
    ghost alternates_is: { alternates ≡ (own x).alternates },
    ghost eddies_is: { eddies ≡ (own x).eddies },
}

// Stage 1: the resistance of a metal, given at 20 °C, at a temperature.
pub(crate) fn resistance_of(field: u32, metal: u32, theta: u32) -> u64
    requires { MetalLimits field metal (to_z w32 theta) }
    ensures { result ≡ Resistance.resistance field (Tables.coefficient metal) (to_z w32 theta) }
{
    resistance(field, coefficient(metal), theta)
}

// The first temperature less the second.
pub(crate) fn difference(theta: u32, below: u32) -> i64
    ensures { result ≡ to_z w32 theta -ℤ to_z w32 below }
{
    signed(theta) - signed(below)
}

impl SoundCase {
    pub(crate) fn conductor_resistance(&self) -> u64
        ensures { result ≡ R' self.now.x }
    {
        resistance_of(
            self.x[CONDUCTOR_RESISTANCE],
            conductor_metal(self.x[CONDUCTOR]),
            self.x[CONDUCTOR_TEMPERATURE],
        )
    }

    #[tactic(auto, unfolding(crate::specs::Values::Rs))]
    pub(crate) fn sheath_resistance(&self) -> u64
        requires { (own self.now.x).alternates ≡ true }
        ensures { result ≡ Rs self.now.x }
    {
        resistance_of(
            self.x[SHEATH_RESISTANCE],
            self.x[SHEATH_METAL],
            self.x[SHEATH_TEMPERATURE],
        )
    }

    #[tactic(auto, unfolding(crate::specs::Values::B))]
    pub(crate) fn reactance(&self) -> u64
        requires { (own self.now.x).alternates ≡ true }
        ensures { result ≡ B self.now.x }
    {
        reactance::<Up>(u64::from(self.x[FREQUENCY]))
    }

    // z with k, which is ks or kp.
    pub(crate) fn skin_ratio(&self, k: u32, rc: u64) -> u64
        requires alternates { (own self.now.x).alternates ≡ true }
        requires k_most { k ≤ most_k }
        requires rc_is { rc ≡ R' self.now.x }
        ensures { result ≡ skin_ratio (Field.frequency self.now.x) k (R' self.now.x) }
    {
        skin_ratio(u64::from(self.x[FREQUENCY]), u64::from(k), rc)
    }

    #[tactic(auto, unfolding(crate::specs::Values::rise_of))]
    pub(crate) fn rise(&self) -> u64
        ensures { result ≡ rise_of self.now.x }
    {
        // as: it is not below zero
        difference(self.x[CONDUCTOR_TEMPERATURE], self.x[AMBIENT_TEMPERATURE]) as u64
    }
}
