//! A reader with a buffer, cut at line feeds.

ghost use Rattle.std.specs.Prelude.{◌≡◌, ◌<◌, ◌≤◌, ◌+◌, ◌^◌, ◌↔◌, ℕ, List};
ghost use Rattle.std.specs.Prelude.{[], ◌∷◌, ◌++◌, length, take, drop, OnErr, OnOk, IfOk, IfSome};
ghost use Rattle.std.specs.Prelude.{Ok, Some, None, MatchOption, IsTrue, true, false, if◌then◌else◌};
ghost use Rattle.std.specs.Io.KnownBytes.{Consumes, IsAtEnd, Keeps};
ghost use Rattle.idn_text.specs.Lines.{HasNoFeed};
ghost use Rattle.idn_text.specs.Taking as seen;
ghost use Rattle.idn_text.specs.inner.TakenLines as inner;

use crate::body::MAX_LINE_LEN;
use crate::device::{DeviceFault, Source};
use crate::text_lines::split_at_feed;
use std::marker::Model;
use thiserror::Error;

/// The most read calls.
const READ_LIMIT: u64 = 1 << 40;

/// How many bytes are held, at most.
const BUFFER_LEN: usize = 16384;

/// A reader failed, or was called too often, or has too many lines.
#[derive(Clone, Copy, Debug, PartialEq, Eq, Error)]
#[error("read fault")]
pub struct ReadFault;

/// Where a line stands in the buffer.
#[derive(Clone, Copy)]
pub enum LinePlace {
    /// From `start` to before `end`.
    Text { start: usize, end: usize },
    /// Nowhere, since it has more bytes than a line may have.
    TooLong,
}

/// A reader, with the bytes that it gave and that no line has taken yet, and the line that was taken
/// last.
#[derive(Drop)]
pub struct BufferedReader<R: Source> {
    reader: R,
    buffer: [u8; BUFFER_LEN],
    place: LinePlace,
    start: usize,
    end: usize,
    reads: u64,
}

impl<R: Source> Model for BufferedReader<R> {
    ghost use Rattle.std.specs.Prelude.{◌≤◌, ◌^◌, slice_range};
    ghost use Rattle.idn_text.specs.Taking as seen;

    ghost Value = { seen.BufferedReader };

    ghost use Rattle.idn_text.specs.inner.TakenLines as inner;

    ghost view = { λ i. record {
      held = slice_range i.buffer i.start i.end;
      line = inner.at_place i.buffer i.place;
      reader = R.state i.reader;
      reads = i.reads;
    } };

    ghost invariant = { λ i. (i.start ≤ i.end) × (i.end ≤ 16384) × (i.reads ≤ 2 ^ 40)
        × inner.IsPlaceOfLine i.place };
}

impl<R: Source> BufferedReader<R> {
    pub fn new(reader: R) -> Self
        ensures { result ≡ record { held = []; line = Some []; reader = R.state reader; reads = 0 } }
    {
        BufferedReader {
            reader,
            buffer: [0; BUFFER_LEN],
            place: LinePlace::Text { start: 0, end: 0 },
            start: 0,
            end: 0,
            reads: 0,
        }
    }

    /// Whether the last read call failed.
    pub fn failed(&self) -> bool
        ensures { result ≡ self.now.reader.has_failed }
    {
        self.reader.failed()
    }

    /// The line that was taken last, without its line feed, unless it is too long.
    pub fn line(&self) -> Option<&[u8]>
        ensures line { MatchOption result (self.now.line ≡ None) (λ line. self.now.line ≡ Some line.now) }
        ensures few { IfSome result (λ line. length line.now ≤ MAX_LINE_LEN) }
    {
        match self.place {
            LinePlace::Text { start, end } => Some(&self.buffer[start..end]),
            LinePlace::TooLong => None,
        }
    }

    /// Whether the line that was taken last has no byte.
    pub fn has_empty_line(&self) -> bool
        ensures { IsTrue result ↔ (self.now.line ≡ Some []) }
    {
        matches!(self.line(), Some([]))
    }

    /// Takes the bytes through the next line feed as a line, or all that come, and returns whether a
    /// line feed came.
    pub fn take_line(&mut self) -> Result<bool, ReadFault>
        ensures line { IfOk result (λ has_feed. (line : List ℕ) × (self.new.line ≡ inner.kept line)
            × inner.TakesThrough self.old self.new line has_feed) }
        ensures no_fault { OnOk result (self.new.reader.faults ≡ self.old.reader.faults) }
        ensures ended { result ≡ Ok false → seen.HasEnded self.new }
        ensures failed { OnErr result (inner.FailsInLine self.old self.new) }
    {
        // So many of the held bytes are known to have no line feed.
        let mut searched = 0;
        'reads: loop {
            if let Some(len) = self.find_feed(searched) {
                self.take(len, 1);
                return Ok(true);
            }
            searched = self.held().len();
            if searched > MAX_LINE_LEN {
                self.take(searched, 0);
                return self.skip_line();
            }
            if !self.fill()? {
                self.take(searched, 0);
                return Ok(false);
            }
        }
    }

    /// How many of the held bytes stand before the first line feed, if there is one. So many of them,
    /// `searched`, are known to have none.
    fn find_feed(&self, searched: usize) -> Option<usize>
        requires within { searched ≤ length self.now.held }
        requires no_feed { HasNoFeed (take searched self.now.held) }
        ensures { MatchOption result (HasNoFeed self.now.held) (λ len. HasNoFeed (take len self.now.held)
            × ((rest : List ℕ) × (self.now.held ≡ take len self.now.held ++ 10 ∷ rest))) }
    {
        let (line, _) = split_at_feed(&self.held()[searched..])?;
        Some(searched + line.len())
    }

    /// Takes the first `len` bytes that are held as a line, and `end_len` bytes after them as its end.
    fn take(&mut self, len: usize, end_len: usize)
        requires { len + end_len ≤ length self.old.held }
        ensures { self.new ≡ record self.old {
          held = drop (len + end_len) self.old.held;
          line = inner.kept (take len self.old.held);
        } }
    {
        self.place = if len > MAX_LINE_LEN {
            LinePlace::TooLong
        } else {
            LinePlace::Text {
                start: self.start,
                end: self.start + len,
            }
        };
        self.start += len + end_len;
    }

    /// Takes the rest of a line that is too long, through its line feed or all that comes, and returns
    /// whether a line feed came.
    #[cold]
    #[inline(never)]
    fn skip_line(&mut self) -> Result<bool, ReadFault>
        requires held { self.old.held ≡ [] }
        requires too_long { self.old.line ≡ None }
        ensures too_long { OnOk result (self.new.line ≡ None) }
        ensures rest { IfOk result (λ has_feed. (rest : List ℕ)
            × inner.TakesThrough self.old self.new rest has_feed) }
        ensures no_fault { OnOk result (self.new.reader.faults ≡ self.old.reader.faults) }
        ensures ended { result ≡ Ok false → seen.HasEnded self.new }
        ensures failed { OnErr result (inner.FailsInLine self.old self.new) }
    {
        'reads: while self.fill()? {
            if self.skip_held() {
                return Ok(true);
            }
        }
        Ok(false)
    }

    /// Takes what is held through the first line feed, or all of it, and returns whether a line feed was
    /// there. The line that was taken last stays.
    fn skip_held(&mut self) -> bool
        ensures same { self.new ≡ record self.old { held = self.new.held } }
        ensures rest { result ≡ false → self.new.held ≡ [] }
        ensures taken { (line : List ℕ)
            × inner.TakesLine self.old self.new line (if result then 10 ∷ [] else []) 0 }
    {
        match split_at_feed(self.held()) {
            Some((line, _)) => {
                self.start += line.len() + 1;
                true
            }
            None => {
                self.start = self.end;
                false
            }
        }
    }

    /// Reads once, after what is held, and returns whether bytes came. At a fault all that was held
    /// counts as taken. The line that was taken last is lost, unless it is too long.
    // Most lines lie in the buffer already.
    #[cold]
    #[inline(never)]
    fn fill(&mut self) -> Result<bool, ReadFault>
        requires { length self.old.held ≤ MAX_LINE_LEN }
        ensures too_long { self.old.line ≡ None → self.new.line ≡ None }
        ensures more { OnOk result ((more : List ℕ) × (self.new.held ≡ self.old.held ++ more)) }
        ensures same { OnOk result (Keeps (seen.left self.old) (seen.left self.new)) }
        ensures taken { OnErr result (Consumes (seen.left self.old) (seen.left self.new) self.old.held) }
        ensures counted { self.new.reads ≤ self.old.reads + 1 }
        ensures called { self.new.reader.calls + self.old.reads ≤ self.old.reader.calls + self.new.reads }
        ensures no_fault { OnOk result (self.new.reader.faults ≡ self.old.reader.faults) }
        ensures counts { result ≡ Ok true → self.new.reads ≡ self.old.reads + 1 }
        ensures limit { self.new.reads ≤ 2 ^ 40 }
        ensures came { result ≡ Ok true → length self.old.held < length self.new.held }
        ensures ended { result ≡ Ok false → (self.new.held ≡ self.old.held) × IsAtEnd self.new.reader.remaining }
        ensures failed { OnErr result (seen.HasFailed self.old self.new) }
    {
        let count = self.end - self.start;
        self.buffer.copy_within(self.start..self.end, 0);
        self.start = 0;
        self.end = 0;
        if self.reads == READ_LIMIT {
            return Err(ReadFault);
        }
        self.reads += 1;
        match self.reader.get(&mut self.buffer[count..]) {
            Ok(more) => {
                self.end = count + more;
                Ok(more != 0)
            }
            Err(DeviceFault) => Err(ReadFault),
        }
    }

    /// The bytes that no line has taken yet.
    fn held(&self) -> &[u8]
        ensures { result.now ≡ self.now.held }
    {
        &self.buffer[self.start..self.end]
    }
}
