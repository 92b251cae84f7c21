// Stage 6 on a case whose sheaths do not overlap: an end of the sheath's reactance from the same end of B. From above it is X, and from
// below X-.
ghost use Rattle.std.specs.Prelude.{◌≡◌};
ghost use Rattle.fields.specs.Fields as Field;
ghost use Rattle.rating.specs.Laws.Steps.{SheathReactanceTakes};

use super::judge::FitCase;
use fields::{ARRANGEMENT, SHEATH_DIAMETER, SPACING};
use stages::ends::End;
use stages::spacing::{sheath_reactance, spacing_log};

impl FitCase {
    pub(crate) fn sheath_reactance<R: End>(&self, b: u64) -> u64
        requires { SheathReactanceTakes R.spacing_log self.now.case.x b }
        ensures { let x = self.now.case.x in
            result ≡ R.sheath_reactance b (R.spacing_log (Field.arrangement x) (Field.spacing x) (Field.sheath_diameter x)) }
    {
        let x = &self.case.x;
        sheath_reactance::<R>(
            b,
            spacing_log::<R>(
                x[ARRANGEMENT],
                u64::from(x[SPACING]),
                u64::from(x[SHEATH_DIAMETER]),
            ),
        )
    }
}
