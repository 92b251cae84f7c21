// Arrangement 6: three cores in one sheath, which has eddies alone.
ghost use Rattle.rating.specs.CommonSheath.{common_sheath};

use super::arrangement::{Arrangement, Losses, Rules, axis_limits, no_armour};
use super::judge::FitCase;
use fields::{AXIS_DISTANCE, CONDUCTOR_DIAMETER, Case, SHEATH_DIAMETER, SPACING};
use stages::common_sheath::common_loss;

#[derive(Clone, Copy)]
pub struct CommonSheath;

impl Arrangement for CommonSheath {
    ghost adds = { λ _. common_sheath };

    // The spacing is of cores within the sheath, and may be less than its diameter.
    #[tactic(auto, unfolding(crate::specs::CommonSheath::common_sheath))]
    fn rules(&self, x: Case) -> Rules {
        Rules {
            alternates: true,
            limits: axis_limits(x),
            unused: no_armour(x),
            geometry: (x[CONDUCTOR_DIAMETER] <= x[SPACING])
                & (2 * u64::from(x[AXIS_DISTANCE]) <= u64::from(x[SHEATH_DIAMETER])),
            heat: true,
            metal: true,
            eddies: false,
        }
    }

    #[tactic(auto, unfolding(crate::specs::CommonSheath::common_sheath))]
    fn losses(&self, fit: &FitCase) -> Losses {
        let x = &fit.case.x;
        Losses {
            n: 3,
            ra: 0,
            x: 0,
            s: common_loss(
                fit.b,
                fit.rs,
                u64::from(x[AXIS_DISTANCE]),
                u64::from(x[SHEATH_DIAMETER]),
            ),
            w: 0,
        }
    }
}
