// Stages 3 and 4 on a case whose z passed refusal 8.
ghost use Rattle.rating.specs.Laws.Steps.{ConductorTakes, Conducts};

use super::case::SoundCase;
use fields::{CONDUCTOR_DIAMETER, SPACING};
use stages::proximity::{ac_resistance, proximity_factor, spacing_ratio};
use stages::skin::factor;

// ys, yp and R.
#[derive(Clone, Copy)]
pub struct Conduction {
    pub ys: u64,
    pub yp: u64,
    pub r: u64,
}

impl SoundCase {
    // `skin` is z with ks, and `proximity` z with kp.
    pub(crate) fn conduction(&self, rc: u64, skin: u64, proximity: u64) -> Conduction
        requires { ConductorTakes self.now.x rc skin proximity }
        ensures { Conducts self.now.x result }
    {
        let ys = factor(skin);
        let u = spacing_ratio(
            u64::from(self.x[CONDUCTOR_DIAMETER]),
            u64::from(self.x[SPACING]),
        );
        let yp = proximity_factor(u, factor(proximity));
        Conduction {
            ys,
            yp,
            r: ac_resistance(rc, ys, yp),
        }
    }
}
