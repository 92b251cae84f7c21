// The trailer: the mark, the count, the distance back to the first record and the length of a record.
ghost use Rattle.std.specs.Prelude.{◌≡◌, ◌≤◌};
ghost use Rattle.book_laws.specs.Book.{new_layout};
ghost use Rattle.book_laws.specs.Format.{trailer_bytes};
ghost use Rattle.book_laws.specs.Trailer.{describe_in, wrong_trailer};
ghost use Rattle.book_bytes.specs.Answers.{description_of};
ghost use Rattle.book_bytes.specs.Layout.{layout_as};

use super::field::{put_word, word_at};
use super::layout::{
    COUNT_AT, DISTANCE_AT, LENGTH_AT, Layout, MOST_RECORDS, NEW, RECORD_LENGTH, TRAILER_LENGTH,
};
use super::part::put;
use super::refusal::Refusal;

// What a trailer says: how many records there are, and where the first one stands.
#[derive(Clone, Copy)]
pub struct Description {
    pub count: usize,
    pub first: usize,
}

fn wrong_trailer(
    layout: Layout,
    before: usize,
    count: usize,
    distance: usize,
    length: usize,
) -> bool
    ensures { result ≡ wrong_trailer (layout_as layout) before count distance length }
{
    if MOST_RECORDS < count {
        return true;
    }
    let record = layout.record_length();
    (distance != record * count) | (length != record) | (before < distance)
}

// The used length may be past the buffer: it comes from C, or from a file, and refusal 20 is for it.
pub fn describe_in(layout: Layout, buffer: &[u8], used: usize) -> Result<Description, Refusal>
    ensures { description_of result ≡ describe_in (layout_as layout) buffer.now used }
{
    let Some(book) = buffer.get(..used) else {
        return Err(Refusal::Length);
    };
    let Some((before, trailer)) = book.split_last_chunk::<TRAILER_LENGTH>() else {
        return Err(Refusal::Mark);
    };
    if !trailer.starts_with(&layout.mark()) {
        return Err(Refusal::Mark);
    }
    // as: std has no From between words and usize
    let count = word_at(trailer, COUNT_AT) as usize;
    let distance = word_at(trailer, DISTANCE_AT) as usize;
    let length = word_at(trailer, LENGTH_AT) as usize;
    if wrong_trailer(layout, before.len(), count, distance, length) {
        return Err(Refusal::Trailer);
    }
    Ok(Description {
        count,
        first: before.len() - distance,
    })
}

// The bytes of the trailer of a book of `count` records, of the new layout.
pub fn trailer_of(count: u32) -> [u8; TRAILER_LENGTH]
    requires { count ≤ new_layout.most }
    ensures { result ≡ trailer_bytes new_layout count }
{
    let mut trailer = [0; TRAILER_LENGTH];
    put(&mut trailer, 0, &NEW.mark());
    put_word(&mut trailer, COUNT_AT, count);
    // as: the length of a record fits a word
    put_word(&mut trailer, DISTANCE_AT, RECORD_LENGTH as u32 * count);
    put_word(&mut trailer, LENGTH_AT, RECORD_LENGTH as u32);
    trailer
}
