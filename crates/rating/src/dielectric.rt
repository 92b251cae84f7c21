// Stage 9 on a case: the dielectric loss, and its rise with n cores.
ghost use Rattle.std.specs.Prelude.{◌≡◌, true};
ghost use Rattle.rating.specs.Arrangements.{own};
ghost use Rattle.rating.specs.Laws.Steps.{IsThermal};
ghost use Rattle.rating.specs.Stage10.{numbers_of};
ghost use Rattle.rating.specs.Values.{B, Wd, loss_counts};

use super::case::SoundCase;
use super::judge::FitCase;
use fields::{
    INSULATION_DIAMETER, LOSS_FACTOR, LOSS_VOLTAGE, PERMITTIVITY, SCREEN_DIAMETER, VOLTAGE,
};
use stages::dielectric::{dielectric_loss, dielectric_rise};
use stages::logarithm::log;
use stages::thermal::Thermal;
use wide::rounding::Down;

impl SoundCase {
    #[tactic(auto, unfolding(crate::specs::Values::loss_counts))]
    fn loss_counts(&self) -> bool
        ensures { result ≡ loss_counts self.now.x }
    {
        self.x[LOSS_VOLTAGE] <= self.x[VOLTAGE]
    }

    #[tactic(auto, unfolding(crate::specs::Values::Wd))]
    pub(crate) fn dielectric_loss(&self, b: u64) -> u64
        requires alternates { (own self.now.x).alternates ≡ true }
        requires b_is { b ≡ B self.now.x }
        ensures { result ≡ Wd self.now.x }
    {
        if !self.loss_counts() {
            return 0;
        }
        dielectric_loss(
            u64::from(self.x[PERMITTIVITY]),
            u64::from(self.x[VOLTAGE]),
            u64::from(self.x[LOSS_FACTOR]),
            b,
            log::<Down>(
                u64::from(self.x[INSULATION_DIAMETER]),
                u64::from(self.x[SCREEN_DIAMETER]),
            ),
        )
    }
}

impl FitCase {
    pub(crate) fn dielectric_rise(&self, n: u64, t: Thermal) -> u64
        requires n_is { n ≡ (own self.now.case.x).n }
        requires t_is { IsThermal self.now.case.x t }
        ensures { result ≡ (numbers_of self.now.case.x).dd }
    {
        dielectric_rise(n, self.wd, t)
    }
}
