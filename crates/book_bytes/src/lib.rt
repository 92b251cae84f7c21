// The code of a book's format: its layout, fields, records, trailer and refusals, each as
// `book_laws` describes it. `book` has the operations.
#![tactic(auto)]

mod field;
pub mod layout;
pub mod part;
pub mod record;
pub mod refusal;
pub mod trailer;
