// The rating of docs/RATING.md: from the 30 words of a case to the answer, the rating and the sheet. Each arrangement has a module of
// its own, and the kind of a case picks it.
#![tactic(auto)]

mod arrangement;
mod both_ends;
mod case;
mod common_sheath;
mod conductor;
mod dielectric;
mod direct_current;
mod field_refusals;
mod judge;
mod known;
mod load;
mod one_point;
pub mod rate;
pub mod refusal;
mod sheath_reactance;
mod sl_type;
mod soil;
mod sun;
