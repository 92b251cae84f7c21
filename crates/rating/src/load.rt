// Stage 10 on a case that every refusal before 10 lets pass: refusals 10 and 11, or the rating and the sheet.
ghost use Rattle.std.specs.Prelude.{◌≡◌};
ghost use Rattle.rating.specs.Arrangements.{own};
ghost use Rattle.rating.specs.Laws.Steps.{IsThermal, Loses, Warms};
ghost use Rattle.rating.specs.Rate.{answer_of, rate_of};
ghost use Rattle.rating.specs.Stage10.{E, current_of};

use super::arrangement::{Arrangement, Losses};
use super::judge::FitCase;
use super::rate::Rated;
use super::refusal::Refusal;
use stages::rating::{rating, unit_rise};
use stages::thermal::Thermal;

// The largest rating that refusal 11 lets pass, in mA.
const MOST_CURRENT: u64 = 5_000_000;

impl FitCase {
    #[tactic(auto, unfolding(crate::specs::Stage10::E))]
    fn unit_rise(&self, l: Losses, t: Thermal) -> u64
        requires l_is { Loses (own self.now.case.x) self.now.case.x l }
        requires t_is { IsThermal self.now.case.x t }
        ensures { result ≡ E self.now.case.x }
    {
        unit_rise(l.n, self.r, l.s, l.w, t)
    }

    // Stage 10, where refusal 10 was not given.
    fn current(&self, permitted: u64, d0: u64, e: u64) -> u64
        requires { Warms self.now.case.x permitted d0 e }
        ensures { result ≡ current_of self.now.case.x }
    {
        rating(permitted - d0, e)
    }

    pub(crate) fn loaded(&self) -> Result<Rated, Refusal>
        ensures { answer_of result ≡ rate_of self.now.case.x }
    {
        let l = self.case.kind.losses(self);
        let t = self.case.thermal();
        let dd = self.dielectric_rise(l.n, t);
        // the rise with no current; the sheet keeps dd
        let d0 = dd + self.case.solar_rise();
        let permitted = self.case.permitted();
        if 9 * permitted < 10 * d0 {
            return Err(Refusal::Dielectric);
        }
        let e = self.unit_rise(l, t);
        let i = self.current(permitted, d0, e);
        if MOST_CURRENT < i {
            return Err(Refusal::Current);
        }
        // as: i was tested above
        Ok(Rated {
            rating: i as u32,
            sheet: [
                self.rc, self.rs, l.ra, self.b, self.ys, self.yp, self.r, l.x, l.s, l.w, self.wd,
                dd, e,
            ],
        })
    }
}
