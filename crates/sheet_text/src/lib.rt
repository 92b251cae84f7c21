// A case and what it is rated as a work sheet for a person, to the last byte as docs/SHEET.md has it: every field and every number with its
// symbol, value, unit and meaning, or the refusal and its rule. ASCII only, so that any terminal shows it.
#![tactic(auto)]

mod at_rating;
mod codes;
mod field_rows;
mod fields_part;
mod has;
mod marks;
mod numbers;
mod rated;
mod refusals;
pub mod sheet;
