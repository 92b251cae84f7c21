// Arrangements 3 and 4: sheaths of lead bonded at one point, which have eddies alone.
ghost use Rattle.std.specs.Prelude.{◌≡◌};
ghost use Rattle.rating.specs.OnePoint.{one_point};
ghost use Rattle.rating.specs.Kind.{j_of};

use super::arrangement::{Arrangement, Losses, Rules, armourless};
use super::judge::FitCase;
use fields::{Case, SHEATH_DIAMETER, SHEATH_METAL, SPACING};
use stages::sheath::eddy_loss;

// How the cables of arrangements 3 and 4 lie: in trefoil, or flat with the centre cable rated.
#[derive(Clone, Copy, Debug, PartialEq, Eq)]
pub enum Formation {
    Trefoil,
    Flat,
}

impl Formation {
    pub(crate) fn j(self) -> u64
        ensures { result ≡ j_of self }
    {
        match self {
            Formation::Trefoil => 1,
            Formation::Flat => 2,
        }
    }
}

impl Arrangement for Formation {
    ghost adds = { λ formation. one_point (j_of formation) };

    #[tactic(auto, unfolding(crate::specs::OnePoint::one_point))]
    fn rules(&self, x: Case) -> Rules {
        Rules {
            alternates: true,
            limits: true,
            unused: armourless(x),
            geometry: x[SHEATH_DIAMETER] <= x[SPACING],
            heat: true,
            metal: x[SHEATH_METAL] == 1,
            eddies: true,
        }
    }

    #[tactic(auto, unfolding(crate::specs::OnePoint::one_point))]
    fn losses(&self, fit: &FitCase) -> Losses {
        let x = &fit.case.x;
        Losses {
            n: 1,
            ra: 0,
            x: 0,
            s: eddy_loss(
                self.j(),
                fit.b,
                fit.rs,
                u64::from(x[SHEATH_DIAMETER]),
                u64::from(x[SPACING]),
            ),
            w: 0,
        }
    }
}
