// What the rating of a case implies, for a person: how the losses compare, what a metre of one core loses, and the temperatures of sheath,
// armour and surface.
#![tactic(auto)]

mod cores;
mod losses;
mod nearest;
mod temperatures;
pub mod values;

ghost use Rattle.std.specs.Prelude.{◌≡◌};
ghost use Rattle.implied.specs.Implied.{implied};

use cores::cores;
use fields::{CONDUCTOR_TEMPERATURE, Case, T1, T2, T3};
use losses::{dielectric_loss, factor, loss};
use rating::rate::Rated;
use temperatures::{cooler, drop_across};
use values::Implied;

// The places of R, S, W and Wd in a sheet.
const RESISTANCE: usize = 6;

const IN_SHEATH: usize = 8;

const IN_ARMOUR: usize = 9;

const IN_INSULATION: usize = 10;

// Of any numbers, whether they are a rated case's or not.
pub fn implied(x: Case, rated: Rated) -> Implied
    ensures { result ≡ implied x rated.rating rated.sheet }
{
    let r = rated.sheet[RESISTANCE];
    let s = rated.sheet[IN_SHEATH];
    let w = rated.sheet[IN_ARMOUR];
    let conductor = loss(rated.rating, r);
    let sheath = loss(rated.rating, s);
    let armour = loss(rated.rating, w);
    let dielectric = dielectric_loss(rated.sheet[IN_INSULATION]);
    // The drops are in halves of 10^-12 K, so that half of the dielectric loss is a whole number.
    let twice = 2 * cores(x);
    let to_sheath = drop_across(2 * conductor + dielectric, x[T1]);
    let to_armour = to_sheath + drop_across(twice * (conductor + sheath + dielectric), x[T2]);
    let to_surface = to_armour
        + drop_across(twice * (conductor + sheath + armour + dielectric), x[T3]);
    let theta = x[CONDUCTOR_TEMPERATURE];
    // as: the factors and losses are far below the largest i128
    Implied {
        sheath_factor: factor(s, r) as i128,
        armour_factor: factor(w, r) as i128,
        conductor_loss: conductor as i128,
        sheath_loss: sheath as i128,
        armour_loss: armour as i128,
        dielectric_loss: dielectric as i128,
        sheath_temperature: cooler(theta, to_sheath),
        armour_temperature: cooler(theta, to_armour),
        surface_temperature: cooler(theta, to_surface),
    }
}
