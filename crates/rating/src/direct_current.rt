// Arrangement 7: a single-core cable for direct current, whose conductor alone has a loss.
ghost use Rattle.std.specs.Prelude.{◌≡◌};
ghost use Rattle.rating.specs.DirectCurrent as Spec;
ghost use Rattle.rating.specs.DirectCurrent.{direct_current};

use super::arrangement::{Arrangement, Losses, Rules, armourless};
use super::judge::FitCase;
use fields::{
    Case, FREQUENCY, LOSS_FACTOR, PERMITTIVITY, SHEATH_DIAMETER, SHEATH_METAL, SHEATH_RESISTANCE,
    SHEATH_TEMPERATURE, SPACING,
};

// The fields that only an alternating current has are zero.
#[tactic(auto, unfolding(crate::specs::DirectCurrent::no_alternating))]
fn no_alternating(x: Case) -> bool
    ensures { result ≡ Spec.no_alternating x }
{
    (x[FREQUENCY] == 0)
        & (x[SPACING] == 0)
        & (x[PERMITTIVITY] == 0)
        & (x[LOSS_FACTOR] == 0)
        & (x[SHEATH_DIAMETER] == 0)
        & (x[SHEATH_METAL] == 0)
        & (x[SHEATH_RESISTANCE] == 0)
        & (x[SHEATH_TEMPERATURE] == 0)
}

#[derive(Clone, Copy)]
pub struct DirectCurrent;

impl Arrangement for DirectCurrent {
    ghost adds = { λ _. direct_current };

    #[tactic(auto, unfolding(crate::specs::DirectCurrent::direct_current))]
    fn rules(&self, x: Case) -> Rules {
        Rules {
            alternates: false,
            limits: true,
            unused: no_alternating(x) & armourless(x),
            geometry: true,
            heat: true,
            metal: true,
            eddies: false,
        }
    }

    #[tactic(auto, unfolding(crate::specs::DirectCurrent::direct_current))]
    fn losses(&self, _fit: &FitCase) -> Losses {
        Losses {
            n: 1,
            ra: 0,
            x: 0,
            s: 0,
            w: 0,
        }
    }
}
