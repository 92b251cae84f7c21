// The code of the stages of docs/RATING.md, one file for each as in the crate `formulas`. Each function's contract is the equation with
// its definition there; its `requires` are ranges that the limits of the fields give.
#![tactic(auto)]

pub mod armour;
pub mod common_sheath;
pub mod dielectric;
pub mod ends;
pub mod logarithm;
pub mod proximity;
pub mod rating;
pub mod reactance;
pub mod resistance;
pub mod sheath;
pub mod skin;
pub mod spacing;
mod square;
pub mod thermal;
