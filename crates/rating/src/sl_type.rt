// Arrangement 5: three cores of SL type, a lead sheath on each, in steel wire armour.
ghost use Rattle.std.specs.Prelude.{◌≡◌};
ghost use Rattle.formulas.specs.Armour.{armour_loss};
ghost use Rattle.fields.specs.Fields.{axis_distance, armour_diameter};
ghost use Rattle.rating.specs.Arrangements.{own};
ghost use Rattle.rating.specs.SlType as Spec;
ghost use Rattle.rating.specs.SlType.{sl_type};
ghost use Rattle.rating.specs.Values.{Rs, RA, B, XLow};

use super::arrangement::{Arrangement, Losses, Rules, axis_limits};
use super::case::resistance_of;
use super::field_refusals::{not_hotter, within, within_signed};
use super::judge::FitCase;
use fields::{
    ARMOUR_DIAMETER, ARMOUR_METAL, ARMOUR_RESISTANCE, ARMOUR_TEMPERATURE, AXIS_DISTANCE,
    CONDUCTOR_TEMPERATURE, Case, FREQUENCY, SHEATH_DIAMETER, SHEATH_METAL, SPACING,
};
use stages::armour::{screened_loss, unscreened_loss};
use stages::reactance::reactance;
use stages::sheath::sl_loss;
use wide::rounding::{Down, Up};

#[tactic(auto, unfolding(crate::specs::SlType::armour_limits))]
fn armour_limits(x: Case) -> bool
    ensures { result ≡ Spec.armour_limits x }
{
    within(1, 6, x[ARMOUR_METAL])
        & within(1000, 20000000, x[ARMOUR_RESISTANCE])
        & within_signed(-4000, 25000, x[ARMOUR_TEMPERATURE])
        & axis_limits(x)
        & within(100, 50000, x[ARMOUR_DIAMETER])
}

fn armour_loss(fit: &FitCase, ra: u64) -> u64
    requires own_is { own fit.now.case.x ≡ sl_type }
    requires ra_is { ra ≡ RA fit.now.case.x }
    ensures { let x = fit.now.case.x in
        result ≡ armour_loss (RA x) (B x) (axis_distance x) (armour_diameter x) (XLow x) (Rs x) }
{
    let unscreened = unscreened_loss(
        ra,
        fit.b,
        u64::from(fit.case.x[AXIS_DISTANCE]),
        u64::from(fit.case.x[ARMOUR_DIAMETER]),
    );
    let b_low = reactance::<Down>(u64::from(fit.case.x[FREQUENCY]));
    screened_loss(unscreened, fit.sheath_reactance::<Down>(b_low), fit.rs)
}

#[derive(Clone, Copy)]
pub struct SlType;

impl Arrangement for SlType {
    ghost adds = { λ _. sl_type };

    #[tactic(auto, unfolding(crate::specs::SlType::sl_type))]
    fn rules(&self, x: Case) -> Rules {
        Rules {
            alternates: true,
            limits: armour_limits(x),
            unused: true,
            geometry: (x[SHEATH_DIAMETER] <= x[SPACING])
                & (2 * u64::from(x[AXIS_DISTANCE]) <= u64::from(x[ARMOUR_DIAMETER])),
            heat: not_hotter(x[ARMOUR_TEMPERATURE], x[CONDUCTOR_TEMPERATURE]),
            metal: (x[SHEATH_METAL] == 1) & (x[ARMOUR_METAL] == 6),
            eddies: false,
        }
    }

    #[tactic(auto, using(crate::proofs::SheathReactance::X_is), unfolding(crate::specs::SlType::sl_type, crate::specs::Values::RA))]
    fn losses(&self, fit: &FitCase) -> Losses {
        let x = &fit.case.x;
        let ra = resistance_of(x[ARMOUR_RESISTANCE], x[ARMOUR_METAL], x[ARMOUR_TEMPERATURE]);
        let reactance = fit.sheath_reactance::<Up>(fit.b);
        Losses {
            n: 3,
            ra,
            x: reactance,
            s: sl_loss(reactance, fit.rs),
            w: armour_loss(fit, ra),
        }
    }
}
