// Reading a record by its index from 0, as written, not judged.
ghost use Rattle.std.specs.Prelude.{◌≡◌};
ghost use Rattle.book_laws.specs.Book.{read_of};
ghost use Rattle.book.specs.Answers.{fields_read};

use book_bytes::layout::layout_of;
use book_bytes::record::{Record, place_from};
use book_bytes::refusal::Refusal;
use book_bytes::trailer::describe_in;

pub fn read(buffer: &[u8], used: usize, index: usize) -> Result<Record, Refusal>
    ensures { fields_read result ≡ read_of buffer.now used index }
{
    let layout = layout_of(buffer, used);
    let book = describe_in(layout, buffer, used)?;
    if book.count <= index {
        return Err(Refusal::Index);
    }
    let at = place_from(layout, book.first, index);
    Ok(Record::of_bytes(layout, buffer, at))
}
