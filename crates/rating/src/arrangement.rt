// The arrangements, and what each hands to the steps that all share: its part of refusals 3 to 9, and its losses.
ghost use Rattle.std.specs.Prelude.{◌≡◌};
ghost use Rattle.rating.specs.Arrangement as Spec;
ghost use Rattle.rating.specs.Arrangements.{own};
ghost use Rattle.rating.specs.Kind.{Picks, arrangement_as};
ghost use Rattle.rating.specs.Laws.Steps.{Asks, Loses};

use super::both_ends::BothEnds;
use super::common_sheath::CommonSheath;
use super::direct_current::DirectCurrent;
use super::field_refusals::within;
use super::judge::FitCase;
use super::one_point::Formation;
use super::refusal::Refusal;
use super::sl_type::SlType;
use fields::{
    ARMOUR_DIAMETER, ARMOUR_METAL, ARMOUR_RESISTANCE, ARMOUR_TEMPERATURE, AXIS_DISTANCE, Case,
};

// Whether its current alternates; whether a case passes what it asks beyond every arrangement with that current, for refusals 3 to 7; and
// whether refusal 9 is tried.
#[derive(Clone, Copy)]
pub struct Rules {
    pub alternates: bool,
    pub limits: bool,
    pub unused: bool,
    pub geometry: bool,
    pub heat: bool,
    pub metal: bool,
    pub eddies: bool,
}

// n, RA, X, S and W.
#[derive(Clone, Copy)]
pub struct Losses {
    pub n: u64,
    pub ra: u64,
    pub x: u64,
    pub s: u64,
    pub w: u64,
}

// What an arrangement adds to the steps that all share.
pub trait Arrangement {
    ghost adds: { Self → Spec.Arrangement };

    fn rules(&self, x: Case) -> Rules
        ensures { Asks (adds self.now) x result };

    fn losses(&self, fit: &FitCase) -> Losses
        requires { own fit.now.case.x ≡ adds self.now }
        ensures { Loses (adds self.now) fit.now.case.x result };
}

// The arrangements by their numbers.
#[derive(Clone, Copy, Debug, PartialEq, Eq)]
pub enum Kind {
    BothEnds,
    OnePoint(Formation),
    SlType,
    CommonSheath,
    DirectCurrent,
}

#[tactic(auto, unfolding(crate::specs::Arrangements::arrangement_of))]
impl TryFrom<u32> for Kind {
    type Error = Refusal;

    ghost try_from_gives = { Picks };

    fn try_from(number: u32) -> Result<Self, Refusal> {
        match number {
            1 => Ok(Kind::BothEnds),
            2 => Ok(Kind::BothEnds),
            3 => Ok(Kind::OnePoint(Formation::Trefoil)),
            4 => Ok(Kind::OnePoint(Formation::Flat)),
            5 => Ok(Kind::SlType),
            6 => Ok(Kind::CommonSheath),
            7 => Ok(Kind::DirectCurrent),
            _ => Err(Refusal::Arrangement),
        }
    }
}

// The two matches stay: with a call of the steps in an arm for each kind, `rate` took 467 ns where it had taken 443
// (docs/DECISIONS.md).
impl Arrangement for Kind {
    ghost adds = { arrangement_as };

    fn rules(&self, x: Case) -> Rules {
        match self {
            Kind::BothEnds => BothEnds.rules(x),
            Kind::OnePoint(formation) => formation.rules(x),
            Kind::SlType => SlType.rules(x),
            Kind::CommonSheath => CommonSheath.rules(x),
            Kind::DirectCurrent => DirectCurrent.rules(x),
        }
    }

    fn losses(&self, fit: &FitCase) -> Losses {
        match self {
            Kind::BothEnds => BothEnds.losses(fit),
            Kind::OnePoint(formation) => formation.losses(fit),
            Kind::SlType => SlType.losses(fit),
            Kind::CommonSheath => CommonSheath.losses(fit),
            Kind::DirectCurrent => DirectCurrent.losses(fit),
        }
    }
}

// The limits of c in a cable of three cores.
#[tactic(auto, unfolding(crate::specs::Arrangement::axis_limits))]
pub(crate) fn axis_limits(x: Case) -> bool
    ensures { result ≡ Spec.axis_limits x }
{
    within(100, 50000, x[AXIS_DISTANCE])
}

// Fields 17, 18, 19 and 21 are zero.
#[tactic(auto, unfolding(crate::specs::Arrangement::no_armour))]
pub(crate) fn no_armour(x: Case) -> bool
    ensures { result ≡ Spec.no_armour x }
{
    (x[ARMOUR_METAL] == 0)
        & (x[ARMOUR_RESISTANCE] == 0)
        & (x[ARMOUR_TEMPERATURE] == 0)
        & (x[ARMOUR_DIAMETER] == 0)
}

// Fields 17 to 21 are all zero.
#[tactic(auto, unfolding(crate::specs::Arrangement::armourless))]
pub(crate) fn armourless(x: Case) -> bool
    ensures { result ≡ Spec.armourless x }
{
    no_armour(x) & (x[AXIS_DISTANCE] == 0)
}
