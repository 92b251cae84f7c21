// The layouts of books (`rbk1` and `rbk2` in `book_laws`) as the code has them: the mark, how many
// inputs and bytes a record has, and where a number of a trailer stands.
ghost use Rattle.std.specs.Prelude.{cond, List, ◌≡◌, ℕ, ◌++◌, ◌+◌};
ghost use Rattle.book_bytes.specs.Layout.{layout_as};
ghost use Rattle.book_laws.specs.Book.{layout_of};
ghost use Rattle.book_laws.specs.Layout as Spec;
ghost use Rattle.fields.specs.Fields as Fields;
ghost use Rattle.rating.specs.Rate.{rate_of};

use fields::{OLDER_WIDTH, WIDTH};

// By the mark.
#[derive(Clone, Copy)]
pub enum Layout {
    Rbk1,
    Rbk2,
}

// Start writes it, and append takes no other.
pub const NEW: Layout = Layout::Rbk2;

// In bytes, of a record of the new layout: the inputs, the answer and the rating, four a field.
pub const RECORD_LENGTH: usize = 4 * (WIDTH + 2);

// Of either layout. The trailer is the mark, the count, the distance and the record length.
pub const TRAILER_LENGTH: usize = 16;

pub(crate) const COUNT_AT: usize = 4;

pub(crate) const DISTANCE_AT: usize = 8;

pub(crate) const LENGTH_AT: usize = 12;

pub const MOST_RECORDS: usize = 100000;

impl Layout {
    pub(crate) fn mark(self) -> [u8; 4]
        ensures { result ≡ (layout_as self).mark }
    {
        match self {
            Layout::Rbk1 => *b"RBK1",
            Layout::Rbk2 => *b"RBK2",
        }
    }

    // How many inputs of a case a record stores.
    fn inputs(self) -> usize
        ensures { result ≡ (layout_as self).inputs }
    {
        match self {
            Layout::Rbk1 => OLDER_WIDTH,
            Layout::Rbk2 => WIDTH,
        }
    }

    // Whether the rule is `rate`'s for the cases of an arrangement. It refuses the others by 1:
    // arrangement 7 came after RBK1.
    pub(crate) fn allows(self, arrangement: u32) -> bool
        ensures { (x : List ℕ) → Fields.arrangement x ≡ arrangement →
            (layout_as self).rule x ≡ cond result (rate_of (x ++ Spec.missing (layout_as self))) Spec.refused_by_1 }
    {
        match self {
            Layout::Rbk1 => arrangement != 7,
            Layout::Rbk2 => true,
        }
    }

    pub(crate) fn record_length(self) -> usize
        ensures { result ≡ Spec.record_length (layout_as self) }
    {
        4 * (self.inputs() + 2)
    }
}

// Of the book in a buffer: RBK1 where that mark stands, and else RBK2, whose mark refusal 21 then asks
// for.
pub fn layout_of(buffer: &[u8], used: usize) -> Layout
    ensures { layout_as result ≡ layout_of buffer.now used }
{
    let Some(trailer) = buffer.get(used.saturating_sub(TRAILER_LENGTH)..) else {
        return Layout::Rbk2;
    };
    if trailer.starts_with(&Layout::Rbk1.mark()) {
        Layout::Rbk1
    } else {
        Layout::Rbk2
    }
}
