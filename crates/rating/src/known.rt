// A case whose arrangement is known, since refusal 1 lets it pass; and the other refusals of the fields, with what its arrangement asks.
ghost use Rattle.std.specs.Prelude.{◌≡◌, IfOk, IfErr};
ghost use Rattle.rating.specs.Arrangements.{own};
ghost use Rattle.rating.specs.Kind.{arrangement_as};
ghost use Rattle.rating.specs.Laws.Steps.{Refuses};

use super::arrangement::{Arrangement, Kind};
use super::case::SoundCase;
use super::field_refusals::check_fields;
use super::refusal::Refusal;
use fields::{ARRANGEMENT, Case};

#[derive(Clone, Copy)]
pub struct KnownCase {
    pub x: Case,
    pub kind: Kind,
    ghost has: { own x ≡ arrangement_as kind },
}

impl KnownCase {
    #[tactic(auto, using(crate::proofs::Refused::none_has))]
    pub(crate) fn of(x: Case) -> Result<KnownCase, Refusal>
        ensures same { IfOk result (λ known. known.x ≡ x) }
        ensures refused { IfErr result (Refuses x) }
    {
        let kind = Kind::try_from(x[ARRANGEMENT])?;
        Ok(KnownCase { x, kind })
    }

    #[tactic(auto, using(crate::proofs::Refused::fields_refused))]
    pub(crate) fn checked(self) -> Result<SoundCase, Refusal>
        ensures same { IfOk result (λ sound. sound.x ≡ self.x) }
        ensures refused { IfErr result (Refuses self.x) }
    {
        let rules = self.kind.rules(self.x);
        check_fields(self.x, rules)?;
        Ok(SoundCase {
            x: self.x,
            kind: self.kind,
            alternates: rules.alternates,
            eddies: rules.eddies,
        })
    }
}
