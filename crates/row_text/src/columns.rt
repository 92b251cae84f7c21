// Text at the left or the right end of a column, filled with blanks. Not by std's `{:>10}`: `write!` promises its text only where it is Ok,
// and does not promise that it is where there is room.
ghost use Rattle.std.specs.Prelude.{◌≡◌, ◌++◌, ◌+◌, ◌≤◌, length, replicate};
ghost use Rattle.arrayvec.specs.ArrayString.{array_string_len};
ghost use Rattle.row_text.specs.Columns.{to_left, to_right};

use arrayvec::ArrayString;

pub(crate) fn put_blanks<const N: usize>(out: &mut ArrayString<N>, count: usize)
    requires { array_string_len out.old + count ≤ N }
    ensures text { out.new.bytes ≡ out.old.bytes ++ replicate count 32 }
    ensures len { array_string_len out.new ≡ array_string_len out.old + count }
{
    for _written in 0..count {
        out.push(' ');
    }
}

#[tactic(auto, unfolding(crate::specs::Columns::to_left))]
pub(crate) fn put_to_left<const N: usize>(out: &mut ArrayString<N>, width: usize, text: &str)
    requires { array_string_len out.old + width + length text.now ≤ N }
    ensures text { out.new.bytes ≡ out.old.bytes ++ to_left width text.now }
    ensures within { array_string_len out.new ≤ array_string_len out.old + width + length text.now }
{
    out.push_str(text);
    put_blanks(out, width.saturating_sub(text.len()));
}

#[tactic(auto, unfolding(crate::specs::Columns::to_right))]
pub(crate) fn put_to_right<const N: usize>(out: &mut ArrayString<N>, width: usize, text: &str)
    requires { array_string_len out.old + width + length text.now ≤ N }
    ensures text { out.new.bytes ≡ out.old.bytes ++ to_right width text.now }
    ensures within { array_string_len out.new ≤ array_string_len out.old + width + length text.now }
{
    put_blanks(out, width.saturating_sub(text.len()));
    out.push_str(text);
}
