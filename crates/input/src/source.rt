// Where bytes come from. A source says which bytes it still gives, where they are known, so that what
// is made of them is a function of these bytes. It is a trait beside std's `Read`, which may also fail:
// a failure is taken for the end of the bytes here.
ghost use Rattle.std.specs.Prelude.{List, None, Option, ◌≡◌, ℕ, ◌<◌, ◌≤◌, length, take};
ghost use Rattle.std.specs.Io.KnownBytes.{Consumes, IsAtEnd};

use std::io;

pub trait Source {
    // The bytes that it gives from here on until its end, where they are known.
    ghost remaining: { Self → Option (List ℕ) } = { λ _. None };

    // Puts bytes at the front of the chunk, and answers how many. None are given only at the end, or
    // where the chunk has no room.
    fn fill(&mut self, chunk: &mut [u8]) -> usize
        ensures within { result ≤ length chunk.new }
        ensures bytes { Consumes (remaining self.old) (remaining self.new) (take result chunk.new) }
        ensures end { result ≡ 0 → 0 < length chunk.new → IsAtEnd (remaining self.new) };
}

// A reader, as standard input. It may fail, so its bytes up to the end are not known; but what it gives
// is passed on, and none of it is lost.
#[derive(Drop)]
pub struct Reader<R>(pub R);

impl<R: io::Read> Source for Reader<R> {
    fn fill(&mut self, chunk: &mut [u8]) -> usize
        ensures within { result ≤ length chunk.new }
        ensures passed_on { Consumes (R.remaining self.old.0) (R.remaining self.new.0)
            (take result chunk.new) }
    {
        self.0.read(chunk).unwrap_or(0)
    }
}
