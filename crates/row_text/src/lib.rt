// How a row of a work sheet is written (docs/SHEET.md, 'A row'): a label, and a value in a column whose points stand below each other.
// ASCII only, so that any terminal shows it.
#![tactic(auto)]

mod columns;
pub mod row;
pub mod value;
