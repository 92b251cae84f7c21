// A line read where it stands in a chunk, without a copy of it. What is read is what
// `text::line::read_line` says of the line; the usual line has a shorter way there (`plain`). Each step
// takes the chunk and a place in it, and no part of the chunk, since the line's end is such a place.
#![tactic(auto)]

mod number;
mod plain;

ghost use Rattle.std.specs.Prelude.{◌≡◌};
ghost use Rattle.line_in_place.specs.Standing.{standing};

use plain::plain_line;
use text::gather::line_feed;
use text::line::{Said, read_line};

// (A type of its own, as number.rt of `text` says of its like.)
// A line that stands whole in a chunk: the place of its line feed, and what it says.
#[derive(Clone, Copy)]
pub struct Line {
    pub to: usize,
    pub said: Said,
}

// The line from `from` on, whatever it is.
fn any_line(chunk: &[u8], from: usize) -> Option<Line>
    ensures { result ≡ standing chunk.now from }
{
    let to = line_feed(chunk, from);
    if to < chunk.len() {
        return Some(Line {
            to,
            said: read_line(&chunk[from..to]),
        });
    }
    None
}

// The line from `from` on, if the chunk has it to its line feed.
pub fn read_at(chunk: &[u8], from: usize) -> Option<Line>
    ensures { result ≡ standing chunk.now from }
{
    plain_line(chunk, from).or_else(|| any_line(chunk, from))
}
