// A refusal by its number, its word and its rule (docs/SHEET.md), so that a person sees what to change. Not Display of Refusal: that would
// stand in rating, and only the sheet has these words.
ghost use Rattle.std.specs.Prelude.{◌≡◌, ◌++◌, ◌+◌, ◌≤◌, length};
ghost use Rattle.arrayvec.specs.ArrayString.{array_string_len};
ghost use Rattle.rating.specs.Refusal.{number_of};
ghost use Rattle.sheet_text.specs.Refusals.{refusal_of, refusal_text};
ghost use Rattle.sheet_text.specs.Laws.Room.{refusal_room};

use arrayvec::ArrayString;
use decimals::put_decimal;
use rating::refusal::Refusal;

#[tactic(auto, unfolding(crate::specs::Refusals::refusal_rows, crate::specs::Refusals::among, crate::specs::Refusals::refusal_of))]
fn word_of(refusal: Refusal) -> &'static str
    ensures text { result.now ≡ (refusal_of (number_of refusal)).word }
    ensures short { length result.now ≤ 16 }
{
    match refusal {
        Refusal::Arrangement => "arrangement",
        Refusal::Conductor => "conductor",
        Refusal::Limit => "limit",
        Refusal::Stray => "stray",
        Refusal::Geometry => "geometry",
        Refusal::Heat => "heat",
        Refusal::Isotherm => "isotherm",
        Refusal::Sun => "sun",
        Refusal::Metal => "metal",
        Refusal::DirectVoltage => "d.c. voltage",
        Refusal::Skin => "skin",
        Refusal::Eddy => "eddy",
        Refusal::Dielectric => "dielectric",
        Refusal::Current => "current",
    }
}

#[tactic(auto, unfolding(crate::specs::Refusals::refusal_rows, crate::specs::Refusals::among, crate::specs::Refusals::refusal_of))]
fn rule_of(refusal: Refusal) -> &'static str
    ensures text { result.now ≡ (refusal_of (number_of refusal)).rule }
    ensures short { length result.now ≤ 160 }
{
    match refusal {
        Refusal::Arrangement => "The arrangement must be one of 1 to 7.",
        Refusal::Conductor => "The conductor's code must be one of 1 to 8.",
        Refusal::Limit => "A field marked > is outside its limits, which stand in brackets.",
        Refusal::Stray =>
            "A field marked > must be 0: the arrangement does not have it, or, of theta_x, rho is 0.",
        Refusal::Geometry => "It must be that dc <= ds and 1.05 ds <= Di; \
             also Di <= d in arrangements 1 to 6, d <= s in 1 to 5, 2 c <= dA in 5, dc <= s and 2 c <= d in 6.",
        Refusal::Heat =>
            "The conductor must be 5 K or more above the ambient, and neither sheath nor armour above it.",
        Refusal::Isotherm => "Where rho is not 0 it must be that theta_a <= theta_x <= theta_c.",
        Refusal::Sun => "A cable in soil that dries out is not in the sun: rho or Q must be 0.",
        Refusal::Metal =>
            "The sheath must be lead in arrangements 3, 4 and 5, and the armour steel in 5.",
        Refusal::DirectVoltage => "In arrangement 7, direct current, U0 must be at most 5000 V.",
        Refusal::Skin =>
            "The skin and proximity formulas end where 8 pi f k / (10^7 R') is 7.84, for k = ks and kp.",
        Refusal::Eddy =>
            "In arrangements 3 and 4 the eddy formula ends where Rs is 5 B, with B = 4 pi f / 10^7.",
        Refusal::Dielectric =>
            "The dielectric loss and the sun together take over nine tenths of the permitted rise.",
        Refusal::Current => "The rating would be over 5000 A.",
    }
}

#[tactic(auto, unfolding(crate::specs::Refusals::refusal_text))]
pub(crate) fn put_refusal<const N: usize>(out: &mut ArrayString<N>, refusal: Refusal)
    requires { array_string_len out.old + refusal_room ≤ N }
    ensures text { out.new.bytes ≡ out.old.bytes ++ refusal_text (number_of refusal) }
    ensures within { array_string_len out.new ≤ array_string_len out.old + refusal_room }
{
    out.push_str("REFUSED  ");
    put_decimal(out, u64::from(u32::from(refusal)));
    out.push_str(" ");
    out.push_str(word_of(refusal));
    out.push_str("\n  ");
    out.push_str(rule_of(refusal));
    out.push_str("\n");
}
