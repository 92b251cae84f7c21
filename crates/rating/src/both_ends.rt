// Arrangements 1 and 2: sheaths bonded at both ends, through which currents circulate.
ghost use Rattle.rating.specs.BothEnds.{both_ends};

use super::arrangement::{Arrangement, Losses, Rules, armourless};
use super::judge::FitCase;
use fields::{Case, SHEATH_DIAMETER, SPACING};
use stages::sheath::circulating_loss;
use wide::rounding::Up;

#[derive(Clone, Copy)]
pub struct BothEnds;

impl Arrangement for BothEnds {
    ghost adds = { λ _. both_ends };

    #[tactic(auto, unfolding(crate::specs::BothEnds::both_ends))]
    fn rules(&self, x: Case) -> Rules {
        Rules {
            alternates: true,
            limits: true,
            unused: armourless(x),
            geometry: x[SHEATH_DIAMETER] <= x[SPACING],
            heat: true,
            metal: true,
            eddies: false,
        }
    }

    #[tactic(auto, using(crate::proofs::SheathReactance::X_is), unfolding(crate::specs::BothEnds::both_ends))]
    fn losses(&self, fit: &FitCase) -> Losses {
        let reactance = fit.sheath_reactance::<Up>(fit.b);
        Losses {
            n: 1,
            ra: 0,
            x: reactance,
            s: circulating_loss(reactance, fit.rs),
            w: 0,
        }
    }
}
