// The listing of a book: what the program `list` prints. Each `put_` function appends to the text in `out`.
// A bound on the text's length shows that what comes next has room.
#![tactic(auto)]

ghost use Rattle.std.specs.Prelude.{[], ◌∷◌, ◌++◌, ◌≡◌, ◌+◌, ◌*◌, ◌≤◌, length};
ghost use Rattle.arrayvec.specs.ArrayString.{array_string_len};
ghost use Rattle.book_bytes.specs.Layout.{layout_as};
ghost use Rattle.book_bytes.specs.Refusal.{named_by, number_of};
ghost use Rattle.book_laws.specs.Layout.{record_length};
ghost use Rattle.list_text.specs.Listing.{record_lines, refusal_line, listing_of};
ghost use Rattle.decimals.specs.Decimal.{decimal, written};

use arrayvec::ArrayString;
use book::accept::accept;
use book_bytes::layout::{Layout, layout_of};
use book_bytes::record::{Record, place_from};
use book_bytes::refusal::Refusal;
use decimals::{put_decimal, put_number};

// A word or two, a number and a line feed.
fn put_line<const N: usize>(out: &mut ArrayString<N>, words: &str, number: u64)
    requires { array_string_len out.old + length words.now + 21 ≤ N }
    ensures text { out.new.bytes ≡ out.old.bytes ++ (words.now ++ decimal number ++ (10 ∷ [])) }
    ensures within { array_string_len out.new ≤ array_string_len out.old + length words.now + 21 }
{
    out.push_str(words);
    put_decimal(out, number);
    out.push('\n');
}

// A record's number, answer and rating with a blank between them, and a line feed. Three numbers here,
// and a sheet in rate_text: one function for both would need a list made first.
fn put_numbers<const N: usize>(out: &mut ArrayString<N>, number: u64, answer: u64, rating: u64)
    requires { array_string_len out.old + 63 ≤ N }
    ensures text { out.new.bytes ≡ out.old.bytes ++ (written (number ∷ answer ∷ rating ∷ []) ++ (10 ∷ [])) }
    ensures within { array_string_len out.new ≤ array_string_len out.old + 63 }
{
    put_decimal(out, number);
    put_number(out, answer);
    put_number(out, rating);
    out.push('\n');
}

// (`as` here: std has no From between usize and u64, and no bit is lost.)
// The lines of the first `count` records, of which the first stands at `first`. The layout, `first` and
// `count` beside the buffer: a Description keeps no buffer, since append writes in it.
fn put_records<const N: usize>(
    out: &mut ArrayString<N>,
    layout: Layout,
    book: &[u8],
    first: usize,
    count: usize,
)
    requires room { array_string_len out.old + 63 * count ≤ N }
    requires inside { first + record_length (layout_as layout) * count ≤ length book.now }
    ensures text { out.new.bytes ≡ out.old.bytes ++ record_lines (layout_as layout) book.now first count }
    ensures within { array_string_len out.new ≤ array_string_len out.old + 63 * count }
{
    for i in 0..count {
        let record = Record::of_bytes(layout, book, place_from(layout, first, i));
        put_numbers(
            out,
            i as u64 + 1,
            u64::from(record.answer),
            u64::from(record.rating),
        );
    }
}

// The number of a refusal, and for 23 the record that it names.
fn put_refusal<const N: usize>(out: &mut ArrayString<N>, refusal: Refusal)
    requires { array_string_len out.old + 35 ≤ N }
    ensures text { out.new.bytes ≡ out.old.bytes ++ refusal_line (number_of refusal) (named_by refusal) }
    ensures within { array_string_len out.new ≤ array_string_len out.old + 35 }
{
    match refusal {
        Refusal::Disagrees(k) => put_line(out, "refused 23 at ", k as u64),
        _ => put_line(out, "refused ", u64::from(u32::from(refusal))),
    }
}

// The most bytes of a book that is listed, and of its listing.
pub const MOST: usize = 65536;

pub type Listing = ArrayString<MOST>;

// The listing of a book in a buffer of as many bytes, which always fits, in place of what the text had. A used length over the
// buffer's is refused by 20.
pub fn list_into(out: &mut Listing, book: &[u8; MOST], used: usize)
    ensures { out.new.bytes ≡ listing_of book.now used }
{
    out.clear();
    match accept(book, used) {
        Ok(accepted) => {
            put_line(out, "book ", accepted.count as u64);
            let layout = layout_of(book, used);
            put_records(out, layout, book, accepted.first, accepted.count);
        }
        Err(refusal) => put_refusal(out, refusal),
    }
}

// The listing of a book as a value of its own, which takes a buffer as large as the book's.
pub fn list_book(book: &[u8; MOST], used: usize) -> Listing
    ensures { result.bytes ≡ listing_of book.now used }
{
    let mut out = Listing::new();
    list_into(&mut out, book, used);
    out
}
