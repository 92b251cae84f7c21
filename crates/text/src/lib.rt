// What a line of text says: words read as numbers, a line read as a case, and a stream cut into
// lines; and bytes written.
#![tactic(auto)]

pub mod bytes;
pub mod gather;
pub mod line;
pub mod number;
pub mod words;
