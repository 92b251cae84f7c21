// Refusals 8 and 9 on a case that those of the fields let pass; and a case that 8 and 9 let pass too, with the values that every
// arrangement shares.
ghost use Rattle.std.specs.Prelude.{◌≡◌, true, false, IfOk, IfErr};
ghost use Rattle.rating.specs.Arrangements.{own};
ghost use Rattle.rating.specs.Current.{of_alternating, R_of, Wd_of};
ghost use Rattle.rating.specs.Laws.Fit.{Fit};
ghost use Rattle.rating.specs.Laws.Steps.{Refuses};
ghost use Rattle.rating.specs.Rate.{loaded, rate_of};
ghost use Rattle.rating.specs.Values as Values;
ghost use Rattle.rating.specs.Values.{R', Rs, B};

use super::case::SoundCase;
use super::refusal::Refusal;
use fields::CONDUCTOR;
use tables::{kp, ks};

// The largest z that refusal 8 lets pass.
const SKIN_LIMIT: u64 = 7_840_000_000_000;

// The values are R', B, Rs, ys, yp, R and Wd as the sheet shows them: with direct current R is R', and all but these two are 0. `answer`:
// refusals 10 and 11 are all that is left to try.
#[derive(Clone, Copy)]
pub struct FitCase {
    pub case: SoundCase,
    pub rc: u64,
    pub b: u64,
    pub rs: u64,
    pub ys: u64,
    pub yp: u64,
    pub r: u64,
    pub wd: u64,
    ghost fit: { Fit (own case.x) case.x },
    ghost answer: { rate_of case.x ≡ loaded case.x },
    ghost rc_is: { rc ≡ R' case.x },
    ghost b_is: { b ≡ of_alternating case.x (B case.x) },
    ghost rs_is: { rs ≡ of_alternating case.x (Rs case.x) },
    ghost ys_is: { ys ≡ of_alternating case.x (Values.ys case.x) },
    ghost yp_is: { yp ≡ of_alternating case.x (Values.yp case.x) },
    ghost r_is: { r ≡ R_of case.x },
    ghost wd_is: { wd ≡ Wd_of case.x },
}

impl SoundCase {
    pub(crate) fn judged(self) -> Result<FitCase, Refusal>
        ensures same { IfOk result (λ fit. fit.case.x ≡ self.x) }
        ensures refused { IfErr result (Refuses self.x) }
    {
        let rc = self.conductor_resistance();
        if self.alternates {
            self.alternating(rc)
        } else {
            Ok(self.direct(rc))
        }
    }

    fn alternating(self, rc: u64) -> Result<FitCase, Refusal>
        requires alternates { (own self.x).alternates ≡ true }
        requires rc_is { rc ≡ R' self.x }
        ensures same { IfOk result (λ fit. fit.case.x ≡ self.x) }
        ensures refused { IfErr result (Refuses self.x) }
    {
        let zs = self.skin_ratio(ks(self.x[CONDUCTOR]), rc);
        let zp = self.skin_ratio(kp(self.x[CONDUCTOR]), rc);
        if (SKIN_LIMIT < zs) | (SKIN_LIMIT < zp) {
            return Err(Refusal::Skin);
        }
        let b = self.reactance();
        let rs = self.sheath_resistance();
        if self.eddies & (rs < 5 * b) {
            return Err(Refusal::Eddy);
        }
        let wd = self.dielectric_loss(b);
        let h = self.conduction(rc, zs, zp);
        Ok(FitCase {
            case: self,
            rc,
            b,
            rs,
            ys: h.ys,
            yp: h.yp,
            r: h.r,
            wd,
        })
    }

    // Neither 8 nor 9 is tried.
    fn direct(self, rc: u64) -> FitCase
        requires direct { (own self.x).alternates ≡ false }
        requires rc_is { rc ≡ R' self.x }
        ensures { result.case.x ≡ self.x }
    {
        FitCase {
            case: self,
            rc,
            b: 0,
            rs: 0,
            ys: 0,
            yp: 0,
            r: rc,
            wd: 0,
        }
    }
}
