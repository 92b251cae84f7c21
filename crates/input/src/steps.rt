// The steps of a loop over the lines of a stream.
ghost use Rattle.std.specs.Prelude.{List, Some, ◌≡◌, ℕ, ◌+◌, ◌<◌, length, take, IfSome, OnSome};
ghost use Rattle.std.specs.Iterator.{at_most};
ghost use Rattle.input.specs.State.{most_lines};
ghost use Rattle.input.specs.Stream.{Awaits, NextLine, NextSaid};
ghost use Rattle.line_in_place.specs.Standing.{standing};

use crate::source::Source;
use crate::{CHUNK, Line, Lines, SaidLines};
use line_in_place::read_at;
use memchr::memchr;
use text::gather::gather;
use text::line::{Said, read_line};

impl<S: Source> Lines<S> {
    // Nothing is read yet. All bytes of the source are still to come, where these are fewer than the
    // reads.
    pub fn new(source: S) -> Self
        ensures start { (result.at ≡ 0) × (result.end ≡ 0) }
        ensures reads { result.reads ≡ 18446744073709551615 }
        ensures awaits { (xs : List ℕ) → S.remaining source ≡ Some xs → length xs < 18446744073709551615
            → Awaits S.remaining result xs }
    {
        Lines {
            source,
            chunk: [0u8; CHUNK],
            at: 0,
            end: 0,
            reads: u64::MAX,
        }
    }

    // What each of these lines says.
    pub fn said(self) -> SaidLines<S>
        ensures { result.0 ≡ self }
    {
        SaidLines(self)
    }

    // The next line.
    pub fn next_line(&mut self) -> Option<Line>
        ensures progress { OnSome result (most_lines self.new.at self.new.end self.new.reads
            < most_lines self.old.at self.old.end self.old.reads) }
        ensures line { NextLine S.remaining self.old result self.new }
    {
        let mut line = Line::new();
        for left in (0..self.reads).rev() {
            let part = &self.chunk[self.at..self.end];
            if let Some(len) = memchr(b'\n', part) {
                gather(&mut line, &part[..len]);
                self.at += len + 1;
                return Some(line);
            }
            gather(&mut line, part);
            self.at = 0;
            self.end = self.source.fill(&mut self.chunk);
            self.reads = left;
            // The input has ended.
            if self.end == 0 {
                self.reads = 0;
                break;
            }
        }
        if line.is_empty() { None } else { Some(line) }
    }

    // What the next line says. A line that the chunk has to its line feed is read there, and any
    // other is gathered first.
    pub fn next_said(&mut self) -> Option<Said>
        ensures progress { OnSome result (most_lines self.new.at self.new.end self.new.reads
            < most_lines self.old.at self.old.end self.old.reads) }
        ensures value { IfSome (standing (take self.old.end self.old.chunk) self.old.at) (λ here.
            (result ≡ Some here.said) × (self.new.at ≡ here.to + 1) × (self.new.end ≡ self.old.end)
            × (self.new.reads ≡ self.old.reads)) }
        ensures said { NextSaid S.remaining self.old result self.new }
    {
        if let Some(line) = read_at(&self.chunk[..self.end], self.at) {
            self.at = line.to + 1;
            return Some(line.said);
        }
        let line = self.next_line()?;
        Some(read_line(&line))
    }
}

impl<S: Source + Drop> Iterator for Lines<S> {
    type Item = Line;

    ghost next_gives = { λ s r t. NextLine S.remaining s r t };

    ghost remaining = { λ s. at_most (most_lines s.at s.end s.reads) };

    fn next(&mut self) -> Option<Line> {
        self.next_line()
    }
}

impl<S: Source + Drop> Iterator for SaidLines<S> {
    type Item = Said;

    ghost next_gives = { λ s r t. NextSaid S.remaining s.0 r t.0 };

    ghost remaining = { λ s. at_most (most_lines s.0.at s.0.end s.0.reads) };

    fn next(&mut self) -> Option<Said> {
        self.0.next_said()
    }
}
