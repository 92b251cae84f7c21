// Appending a case: its record stands in place of the trailer, and the new trailer after it.
ghost use Rattle.std.specs.Prelude.{◌≡◌};
ghost use Rattle.book_laws.specs.Book.{append_of};
ghost use Rattle.book.specs.Answers.{written_of};

use book_bytes::layout::{MOST_RECORDS, NEW, RECORD_LENGTH, TRAILER_LENGTH};
use book_bytes::part::put;
use book_bytes::record::Record;
use book_bytes::refusal::Refusal;
use book_bytes::trailer::{describe_in, trailer_of};
use fields::Case;

// Answers the new used length.
pub fn append(buffer: &mut [u8], used: usize, x: Case) -> Result<usize, Refusal>
    ensures { written_of result buffer.new ≡ append_of buffer.old used x }
{
    // A book of another layout is refused by its mark.
    let book = describe_in(NEW, buffer, used)?;
    if MOST_RECORDS <= book.count {
        return Err(Refusal::Full);
    }
    if buffer.len() - used < RECORD_LENGTH {
        return Err(Refusal::Space);
    }
    let at = used - TRAILER_LENGTH;
    let end = at + RECORD_LENGTH;
    put(buffer, at, &Record::of_case(x).to_bytes());
    // as: the count was tested above
    put(buffer, end, &trailer_of(book.count as u32 + 1));
    Ok(end + TRAILER_LENGTH)
}
