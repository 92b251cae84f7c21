// Accepting a book: every record is its case's rating, or the first that is not is named.
ghost use Rattle.std.specs.Prelude.{◌≡◌};
ghost use Rattle.book_laws.specs.Book.{accept_of};
ghost use Rattle.book.specs.Answers.{acceptance_of};

use book_bytes::layout::layout_of;
use book_bytes::record::{agrees, place_from};
use book_bytes::refusal::Refusal;
use book_bytes::trailer::{Description, describe_in};

// Answers what the trailer says. The note's length is the place of the first record.
pub fn accept(buffer: &[u8], used: usize) -> Result<Description, Refusal>
    ensures { acceptance_of result ≡ accept_of buffer.now used }
{
    let layout = layout_of(buffer, used);
    let book = describe_in(layout, buffer, used)?;
    for i in 0..book.count {
        if !agrees(layout, buffer, place_from(layout, book.first, i)) {
            return Err(Refusal::Disagrees(i + 1));
        }
    }
    Ok(book)
}
