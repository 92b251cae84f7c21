// The rows of the fields of a case, by the number of its answer.
ghost use Rattle.std.specs.Prelude.{◌≡◌, ◌++◌, ◌+◌, ◌*◌, ◌≤◌, ◌<◌};
ghost use Rattle.arrayvec.specs.ArrayString.{array_string_len};
ghost use Rattle.fields.specs.Fields.{width};
ghost use Rattle.row_text.specs.Laws.Row.{row_room};
ghost use Rattle.sheet_text.specs.Fields.{field_piece, fields_text};

use crate::field_rows::{field_at, label_at, number_at};
use crate::marks::{mark, marked, shown};
use arrayvec::ArrayString;
use fields::{Case, WIDTH};
use row_text::row::put_row;

// The digits of the column after the point.
const DIGITS: usize = 6;

// A field's row, if the sheet has it.
fn put_field<const N: usize>(out: &mut ArrayString<N>, x: Case, answer: u32, i: usize)
    requires room { array_string_len out.old + row_room ≤ N }
    requires there { i < width }
    ensures text { out.new.bytes ≡ out.old.bytes ++ field_piece x answer i }
    ensures within { array_string_len out.new ≤ array_string_len out.old + row_room }
{
    if shown(x, answer, i) {
        let field = field_at(i);
        let label = label_at(field, x[i]);
        put_row(
            out,
            mark(marked(x, answer, i)),
            DIGITS,
            &label,
            number_at(field, x[i]),
        );
    }
}

pub(crate) fn put_fields<const N: usize>(out: &mut ArrayString<N>, x: Case, answer: u32)
    requires { array_string_len out.old + width * row_room ≤ N }
    ensures text { out.new.bytes ≡ out.old.bytes ++ fields_text x answer }
    ensures within { array_string_len out.new ≤ array_string_len out.old + width * row_room }
{
    for i in 0..WIDTH {
        put_field(out, x, answer, i);
    }
}
