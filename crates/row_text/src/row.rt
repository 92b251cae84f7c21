// A row: the mark and the symbol, the value, the unit and the words.
ghost use Rattle.std.specs.Prelude.{◌≡◌, ◌++◌, ◌+◌, ◌≤◌, length};
ghost use Rattle.arrayvec.specs.ArrayString.{array_string_len};
ghost use Rattle.row_text.specs.Row.{meaning, row};
ghost use Rattle.row_text.specs.Laws.Row.{Short, label_text, row_room};

use crate::columns::put_to_left;
use crate::value::put_value;
use arrayvec::ArrayString;

// What is said of a value, and how many decimals it has in its unit.
#[derive(Clone, Copy)]
pub struct Label<'a> {
    pub symbol: &'a str,
    pub unit: &'a str,
    pub words: &'a str,
    pub decimals: u32,
}

#[tactic(auto, unfolding(crate::specs::Row::meaning))]
fn put_meaning<const N: usize>(out: &mut ArrayString<N>, unit: &str, words: &str)
    requires { array_string_len out.old + 10 + length unit.now + length words.now ≤ N }
    ensures text { out.new.bytes ≡ out.old.bytes ++ meaning unit.now words.now }
    ensures within { array_string_len out.new ≤ array_string_len out.old + 10 + length unit.now + length words.now }
{
    if words.is_empty() {
        out.push_str(unit);
        return;
    }
    put_to_left(out, 10, unit);
    out.push_str(words);
}

#[tactic(auto, unfolding(crate::specs::Row::row))]
pub fn put_row<const N: usize>(
    out: &mut ArrayString<N>,
    mark: &str,
    after: usize,
    label: &Label<'_>,
    z: i128,
)
    requires room { array_string_len out.old + row_room ≤ N }
    requires short { Short (label_text label.now) }
    requires short_mark { length mark.now ≤ 2 }
    requires few_after { after ≤ 16 }
    ensures text { out.new.bytes ≡ out.old.bytes ++ row mark.now after (label_text label.now) z }
    ensures within { array_string_len out.new ≤ array_string_len out.old + row_room }
{
    out.push_str(mark);
    put_to_left(out, 13 - mark.len(), label.symbol);
    put_value(out, z, label.decimals, 10, after);
    out.push_str("  ");
    put_meaning(out, label.unit, label.words);
    out.push_str("\n");
}
