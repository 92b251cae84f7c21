// A book of ratings in a buffer that the caller lends: start, append, read and accept (docs/BOOK.md).
// The used length stands beside the buffer, as C hands them over; refusal 20 is for one past it.
#![tactic(auto)]

pub mod accept;
pub mod append;
pub mod read;
pub mod start;
