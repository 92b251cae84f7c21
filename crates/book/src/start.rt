// Starting a book after a note whose bytes stand at the front of the buffer already.
ghost use Rattle.std.specs.Prelude.{◌≡◌};
ghost use Rattle.book_laws.specs.Book.{start_of};
ghost use Rattle.book.specs.Answers.{written_of};

use book_bytes::layout::TRAILER_LENGTH;
use book_bytes::part::put;
use book_bytes::refusal::Refusal;
use book_bytes::trailer::trailer_of;

// Answers the used length.
pub fn start(buffer: &mut [u8], note: usize) -> Result<usize, Refusal>
    ensures { written_of result buffer.new ≡ start_of buffer.old note }
{
    if buffer.len() < TRAILER_LENGTH || buffer.len() - TRAILER_LENGTH < note {
        return Err(Refusal::Space);
    }
    put(buffer, note, &trailer_of(0));
    Ok(note + TRAILER_LENGTH)
}
