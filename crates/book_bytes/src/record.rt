// A record: a case, its answer and its rating, and the bytes in which a book stores them.
ghost use Rattle.std.specs.Prelude.{◌≡◌, ◌++◌, ◌+◌, ◌-◌, ◌*◌, ◌<◌, ◌≤◌, length, replicate};
ghost use Rattle.fields.specs.Fields.{width};
ghost use Rattle.book_bytes.specs.Layout.{layout_as};
ghost use Rattle.book_bytes.specs.Record.{fields_in};
ghost use Rattle.book_laws.specs.Bytes as Bytes;
ghost use Rattle.book_laws.specs.Bytes.{words_at, words_bytes};
ghost use Rattle.book_laws.specs.Layout.{missing, record_length};
ghost use Rattle.book_laws.specs.Record.{place_from, case_at, answer_at, rating_at, agrees};
ghost use Rattle.rating.specs.Rate.{rate_of};

use super::field::{put_word, word_at};
use super::layout::{Layout, RECORD_LENGTH};
use fields::{ARRANGEMENT, Case, OLDER_WIDTH, WIDTH};
use rating::rate::rate;
use rating::refusal::Refusal;

// The answer is 0 for a rated case, and otherwise the refusal's number. It is a word, since a record is
// read as it is written, whatever stands there.
#[derive(Clone, Copy)]
pub struct Record {
    pub case: Case,
    pub answer: u32,
    pub rating: u32,
}

impl Record {
    // The record that a case gets.
    pub fn of_case(case: Case) -> Record
        ensures case { result.case ≡ case }
        ensures answer { result.answer ≡ (rate_of case).number }
        ensures rating { result.rating ≡ (rate_of case).rating }
    {
        match rate(case) {
            Ok(rated) => Record {
                case,
                answer: 0,
                rating: rated.rating,
            },
            Err(refusal) => Record {
                case,
                answer: u32::from(refusal),
                rating: 0,
            },
        }
    }

    // What the bytes at a place say, not judged. An input that the layout does not store is zero. Inlined,
    // or read would copy the record once more.
    #[inline(always)]
    pub fn of_bytes(layout: Layout, buffer: &[u8], at: usize) -> Record
        requires { at + record_length (layout_as layout) ≤ length buffer.now }
        ensures case { result.case ≡ case_at (layout_as layout) buffer.now at ++ missing (layout_as layout) }
        ensures answer { result.answer ≡ answer_at (layout_as layout) buffer.now at }
        ensures rating { result.rating ≡ rating_at (layout_as layout) buffer.now at }
    {
        // A call for each layout: with a number that is known as N the loop over the inputs is unrolled.
        match layout {
            Layout::Rbk1 => Record::of_fields::<OLDER_WIDTH>(buffer, at),
            Layout::Rbk2 => Record::of_fields::<WIDTH>(buffer, at),
        }
    }

    // N inputs, the answer and the rating.
    fn of_fields<const N: usize>(buffer: &[u8], at: usize) -> Record
        requires stored { at + 4 * (N + 2) ≤ length buffer.now }
        requires most { N ≤ width }
        ensures case { result.case ≡ words_at buffer.now at N ++ replicate (width - N) 0 }
        ensures answer { result.answer ≡ Bytes.word_at buffer.now (at + 4 * N) }
        ensures rating { result.rating ≡ Bytes.word_at buffer.now (at + 4 * (N + 1)) }
    {
        let stored = &buffer[at..at + 4 * (N + 2)];
        let mut case = [0; WIDTH];
        for (i, field) in case[..N].iter_mut().enumerate() {
            *field = word_at(stored, 4 * i);
        }
        Record {
            case,
            answer: word_at(stored, 4 * N),
            rating: word_at(stored, 4 * (N + 1)),
        }
    }

    // In the new layout.
    pub fn to_bytes(&self) -> [u8; RECORD_LENGTH]
        ensures { result ≡ words_bytes (fields_in self.now) }
    {
        // Field i stands at 4 i: chunks of four would be no plainer.
        let mut stored = [0; RECORD_LENGTH];
        for (i, field) in self.case.iter().enumerate() {
            put_word(&mut stored, 4 * i, *field);
        }
        put_word(&mut stored, 4 * WIDTH, self.answer);
        put_word(&mut stored, 4 * (WIDTH + 1), self.rating);
        stored
    }
}

// Whether the record at a place has the answer and the rating of its case, by the layout's rule. Not a
// derived equality: it would compare the cases too, which are the same.
pub fn agrees(layout: Layout, buffer: &[u8], at: usize) -> bool
    requires { at + record_length (layout_as layout) ≤ length buffer.now }
    ensures { result ≡ agrees (layout_as layout) buffer.now at }
{
    let record = Record::of_bytes(layout, buffer, at);
    if !layout.allows(record.case[ARRANGEMENT]) {
        return record.answer == u32::from(Refusal::Arrangement) && record.rating == 0;
    }
    let rated = Record::of_case(record.case);
    record.answer == rated.answer && record.rating == rated.rating
}

// Where a record stands, by its index from 0, in a book whose first record stands at `first`. `first`
// beside the index: a Description keeps no layout, which the book's mark tells.
pub fn place_from(layout: Layout, first: usize, index: usize) -> usize
    requires { place_from (layout_as layout) first index < 18446744073709551616 }
    ensures { result ≡ place_from (layout_as layout) first index }
{
    first + layout.record_length() * index
}
