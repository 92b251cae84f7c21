// The refusals that look at the fields alone, but for 1: a test for each, and the first that is given.
ghost use Rattle.std.specs.Prelude.{◌≡◌, pos, ◌-ℤ◌};
ghost use Rattle.std.specs.Int.Signed.{le_z};
ghost use Rattle.std.specs.Int.{w32};
ghost use Rattle.std.proofs.Common.{to_z};
ghost use Rattle.rating.specs.Arrangements.{own};
ghost use Rattle.rating.specs.FieldRefusals as FieldRefusals;
ghost use Rattle.rating.specs.Laws.Steps.{Asks, ChecksFields};
ghost use Rattle.rating.specs.Within as Within;

use super::arrangement::Rules;
use super::case::difference;
use super::refusal::Refusal;
use fields::{
    AMBIENT_TEMPERATURE, CONDUCTOR, CONDUCTOR_DIAMETER, CONDUCTOR_RESISTANCE,
    CONDUCTOR_TEMPERATURE, Case, DRY_RATIO, FREQUENCY, INSULATION_DIAMETER, ISOTHERM, LOSS_FACTOR,
    LOSS_VOLTAGE, PERMITTIVITY, SCREEN_DIAMETER, SHEATH_DIAMETER, SHEATH_METAL, SHEATH_RESISTANCE,
    SHEATH_TEMPERATURE, SOLAR_HEAT, SPACING, T1, T2, T3, T4, VOLTAGE,
};
use stages::resistance::signed;

// A field from low to high, the ends included. A function of its own: with the library's test in its place no group of limits is proved.
pub(crate) fn within(low: u32, high: u32, n: u32) -> bool
    ensures { result ≡ Within.within low high n }
{
    (low..=high).contains(&n)
}

// A temperature from low to high, likewise; and not one generic function with the other, since the definitions are two, on words and on
// whole numbers.
pub(crate) fn within_signed(low: i64, high: i64, theta: u32) -> bool
    ensures { result ≡ Within.within_z low high (to_z w32 theta) }
{
    (low..=high).contains(&signed(theta))
}

// The first temperature is at most the second.
pub(crate) fn not_hotter(theta: u32, limit: u32) -> bool
    ensures { result ≡ le_z (to_z w32 theta) (to_z w32 limit) }
{
    signed(theta) <= signed(limit)
}

// The conductor is 5 K above the ambient, or more.
fn warmer(conductor: u32, ambient: u32) -> bool
    ensures { result ≡ le_z (pos 500) (to_z w32 conductor -ℤ to_z w32 ambient) }
{
    500 <= difference(conductor, ambient)
}

#[tactic(auto, unfolding(crate::specs::FieldRefusals::conductor_refused))]
fn conductor_refused(x: Case) -> bool
    ensures { result ≡ FieldRefusals.conductor_refused x }
{
    !within(1, 8, x[CONDUCTOR])
}

#[tactic(auto, unfolding(crate::specs::FieldRefusals::conductor_limits))]
fn conductor_limits(x: Case) -> bool
    ensures { result ≡ FieldRefusals.conductor_limits x }
{
    within_signed(4000, 25000, x[CONDUCTOR_TEMPERATURE])
        & within_signed(-4000, 6000, x[AMBIENT_TEMPERATURE])
        & within(5000, 20000000, x[CONDUCTOR_RESISTANCE])
        & within(100, 10000, x[CONDUCTOR_DIAMETER])
        & within(100, 20000, x[SCREEN_DIAMETER])
        & within(100, 30000, x[INSULATION_DIAMETER])
        & within(0, 300000, x[VOLTAGE])
}

// Of the fields that only an alternating current has.
#[tactic(auto, unfolding(crate::specs::FieldRefusals::alternating_limits))]
fn alternating_limits(x: Case) -> bool
    ensures { result ≡ FieldRefusals.alternating_limits x }
{
    within(1000, 6500, x[FREQUENCY])
        & within(100, 1000000, x[SPACING])
        & within(100, 800, x[PERMITTIVITY])
        & within(1, 10000, x[LOSS_FACTOR])
        & within(100, 50000, x[SHEATH_DIAMETER])
        & within(1, 6, x[SHEATH_METAL])
        & within(1000, 20000000, x[SHEATH_RESISTANCE])
        & within_signed(-4000, 25000, x[SHEATH_TEMPERATURE])
}

#[tactic(auto, unfolding(crate::specs::FieldRefusals::thermal_limits))]
fn thermal_limits(x: Case) -> bool
    ensures { result ≡ FieldRefusals.thermal_limits x }
{
    within(1000, 10000000, x[T1])
        & within(0, 10000000, x[T2])
        & within(0, 10000000, x[T3])
        & within(10000, 20000000, x[T4])
}

// No soil dries out: ρ is 0.
#[tactic(auto, unfolding(crate::specs::FieldRefusals::moist))]
fn moist(x: Case) -> bool
    ensures { result ≡ FieldRefusals.moist x }
{
    x[DRY_RATIO] == 0
}

#[tactic(auto, unfolding(crate::specs::FieldRefusals::further_limits))]
fn further_limits(x: Case) -> bool
    ensures { result ≡ FieldRefusals.further_limits x }
{
    within(0, 300000, x[LOSS_VOLTAGE])
        & (moist(x) | within(1000, 5000, x[DRY_RATIO]))
        & within_signed(-4000, 25000, x[ISOTHERM])
        & within(0, 200000, x[SOLAR_HEAT])
}

// `alternates` and `its` are what the arrangement answered, values and no switches.
#[tactic(auto, unfolding(crate::specs::FieldRefusals::limit_refused))]
fn limit_refused(x: Case, alternates: bool, its: bool) -> bool
    requires alternates_is { alternates ≡ (own x).alternates }
    requires its_is { its ≡ (own x).limits x }
    ensures { result ≡ FieldRefusals.limit_refused x }
{
    !(conductor_limits(x)
        & (!alternates | alternating_limits(x))
        & thermal_limits(x)
        & further_limits(x)
        & its)
}

// Field 28 is zero where no soil dries out.
#[tactic(auto, unfolding(crate::specs::FieldRefusals::isotherm_unused))]
fn isotherm_unused(x: Case) -> bool
    ensures { result ≡ FieldRefusals.isotherm_unused x }
{
    !moist(x) | (x[ISOTHERM] == 0)
}

#[tactic(auto, unfolding(crate::specs::FieldRefusals::stray_refused))]
fn stray_refused(x: Case, its: bool) -> bool
    requires { its ≡ (own x).unused x }
    ensures { result ≡ FieldRefusals.stray_refused x }
{
    !(isotherm_unused(x) & its)
}

#[tactic(auto, unfolding(crate::specs::FieldRefusals::geometry_refused))]
fn geometry_refused(x: Case, alternates: bool, its: bool) -> bool
    requires alternates_is { alternates ≡ (own x).alternates }
    requires its_is { its ≡ (own x).geometry x }
    ensures { result ≡ FieldRefusals.geometry_refused x }
{
    !((x[CONDUCTOR_DIAMETER] <= x[SCREEN_DIAMETER])
        & (105 * u64::from(x[SCREEN_DIAMETER]) <= 100 * u64::from(x[INSULATION_DIAMETER]))
        & (!alternates | (x[INSULATION_DIAMETER] <= x[SHEATH_DIAMETER]))
        & its)
}

#[tactic(auto, unfolding(crate::specs::FieldRefusals::heat_refused))]
fn heat_refused(x: Case, its: bool) -> bool
    requires { its ≡ (own x).heat x }
    ensures { result ≡ FieldRefusals.heat_refused x }
{
    !(warmer(x[CONDUCTOR_TEMPERATURE], x[AMBIENT_TEMPERATURE])
        & not_hotter(x[SHEATH_TEMPERATURE], x[CONDUCTOR_TEMPERATURE])
        & its)
}

#[tactic(auto, unfolding(crate::specs::FieldRefusals::isotherm_refused))]
fn isotherm_refused(x: Case) -> bool
    ensures { result ≡ FieldRefusals.isotherm_refused x }
{
    let ambient = signed(x[AMBIENT_TEMPERATURE]);
    let conductor = signed(x[CONDUCTOR_TEMPERATURE]);
    !(moist(x) | within_signed(ambient, conductor, x[ISOTHERM]))
}

#[tactic(auto, unfolding(crate::specs::FieldRefusals::sun_refused))]
fn sun_refused(x: Case) -> bool
    ensures { result ≡ FieldRefusals.sun_refused x }
{
    !(moist(x) | (x[SOLAR_HEAT] == 0))
}

#[tactic(auto, unfolding(crate::specs::FieldRefusals::direct_voltage_refused))]
fn direct_voltage_refused(x: Case, alternates: bool) -> bool
    requires { alternates ≡ (own x).alternates }
    ensures { result ≡ FieldRefusals.direct_voltage_refused x }
{
    !alternates & (5000 < x[VOLTAGE])
}

// The first that is given, in the order in which they are tried.
#[tactic(auto, unfolding(bools::specs::First::or_refused, crate::specs::FieldRefusals::field_refusals))]
pub(crate) fn check_fields(x: Case, rules: Rules) -> Result<(), Refusal>
    requires { Asks (own x) x rules }
    ensures { ChecksFields x result }
{
    if conductor_refused(x) {
        return Err(Refusal::Conductor);
    }
    if limit_refused(x, rules.alternates, rules.limits) {
        return Err(Refusal::Limit);
    }
    if stray_refused(x, rules.unused) {
        return Err(Refusal::Stray);
    }
    if geometry_refused(x, rules.alternates, rules.geometry) {
        return Err(Refusal::Geometry);
    }
    if heat_refused(x, rules.heat) {
        return Err(Refusal::Heat);
    }
    if isotherm_refused(x) {
        return Err(Refusal::Isotherm);
    }
    if sun_refused(x) {
        return Err(Refusal::Sun);
    }
    if !rules.metal {
        return Err(Refusal::Metal);
    }
    if direct_voltage_refused(x, rules.alternates) {
        return Err(Refusal::DirectVoltage);
    }
    Ok(())
}
