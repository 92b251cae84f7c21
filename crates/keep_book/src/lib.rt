// A book built from text, for the program `keep`: its note from words, and a record from each line
// that is a case.
#![tactic(auto)]

ghost use Rattle.std.specs.Prelude.{◌≡◌, ◌-◌, length, take};
ghost use Rattle.keep_book.specs.Keeping.{next_word, keep_for, kept_of};
ghost use Rattle.splice.specs.Put.{Put};

use book::append::append;
use book_bytes::refusal::Refusal;
use text::gather::keep;
use text::line::Said;

// Adds a word to a note of `len` bytes at the front of the buffer, after a blank unless it is the
// first, which the length does not tell where that word is empty; and answers the new length. Of a
// note longer than the buffer as much is kept as fits, for which `start` has then no room. The length
// stands beside the buffer, since the note is the front of the book's own bytes, and the book comes
// after it there.
pub fn add_word(buffer: &mut [u8], len: usize, first: bool, word: &[u8]) -> usize
    ensures { Put buffer.old len (take (length buffer.old - len) (next_word first word.now))
        buffer.new result }
{
    if first {
        return keep(buffer, len, word, 0, word.len());
    }
    let from = keep(buffer, len, b" ", 0, 1);
    keep(buffer, from, word, 0, word.len())
}

// Why a line is not kept: it cannot be read, or `append` refused its case.
#[derive(Clone, Copy, Debug, PartialEq, Eq)]
pub enum NotKept {
    Unreadable,
    Refused(Refusal),
}

// Appends the case that a line says to a book, with the used length beside it as `append` takes it, and
// answers the new one. A line that is passed
// over or cannot be read changes nothing.
pub fn keep_said(buffer: &mut [u8], used: usize, said: Said) -> Result<usize, NotKept>
    ensures { kept_of result used buffer.new ≡ keep_for said buffer.old used }
{
    match said {
        Said::PassedOver => Ok(used),
        Said::Case(case) => append(buffer, used, case).map_err(NotKept::Refused),
        Said::Unreadable => Err(NotKept::Unreadable),
    }
}
