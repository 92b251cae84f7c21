// What the program `sheet` prints for each line of its input: a case's heading and sheet, an unreadable line's number, and nothing for a
// line that is passed over (docs/SHEET.md).
#![tactic(auto)]

pub mod heading;
pub mod line;
