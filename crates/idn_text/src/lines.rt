//! The numbered lines of a reader.

ghost use Rattle.std.specs.Prelude.{◌≡◌, ◌⊎◌, ◌≤◌, length, None, Some};
ghost use Rattle.std.specs.Prelude.{Ok, IfOk, IfSome, OnErr, IsErr, MatchOption, false};

use crate::body::{Body, MAX_LINE_LEN};
use crate::buffered_reader::{BufferedReader, ReadFault};
use crate::device::Source;
use crate::text_lines::without_carriage_return;
use std::marker::Model;

/// The most lines.
const LINE_LIMIT: u64 = 1 << 32;

/// A line and its number, from 1, as `next_line` gives it.
#[derive(Drop)]
pub struct Line {
    /// From 1 to 4,294,967,296. A line that is too long counts too.
    pub number: u64,
    /// The line without its end, or that it is too long.
    pub body: Body,
}

/// How far lines were read: on to a next one, to the end, or to a fault.
#[derive(Clone, Copy, PartialEq, Eq)]
pub enum State {
    Open,
    Ended,
    Stopped,
}

/// The lines of a reader. A line is what stands before a line feed, and after the last one a rest
/// that is not empty.
#[derive(Drop)]
pub struct Lines<R: Source> {
    input: BufferedReader<R>,
    number: u64,
    state: State,
}

impl<R: Source> Model for Lines<R> {
    ghost use Rattle.std.specs.Prelude.{◌≤◌, ◌^◌};
    ghost use Rattle.idn_text.specs.Reading.{Reading};

    ghost Value = { Reading };

    ghost view = { λ l. record { input = l.input; number = l.number; state = l.state } };

    ghost invariant = { λ l. l.number ≤ 2 ^ 32 };
}

impl<R: Source> Lines<R> {
    ghost use Rattle.idn_text.specs.Reading.{ReadsNext, HasStopped, IsLeftBy, answered};
    ghost use Rattle.idn_text.specs.Reading.{has_line, line_at, numbered_line, unread};
    ghost use Rattle.idn_text.specs.declared.lines.State.TheVariants.{Open, Ended, Stopped};

    /// The lines of what a reader gives from here on. This does not call the reader.
    pub fn new(reader: R) -> Self
        ensures { result ≡ unread (R.state reader) }
    {
        Lines {
            input: BufferedReader::new(reader),
            number: 0,
            state: State::Open,
        }
    }

    /// Whether the reader's last call failed.
    pub fn failed(&self) -> bool
        ensures { result ≡ self.now.input.reader.has_failed }
    {
        self.input.failed()
    }

    /// Goes on to the next line, and returns whether there was one. At the end there is none, for good. A
    /// reader that fails, a read call after 2^40 of them and a line after 4,294,967,296 of them are a
    /// fault, for good.
    #[inline(always)]
    pub fn advance(&mut self) -> Result<bool, ReadFault>
        ensures lines { ReadsNext self.old self.new (answered result self.new) }
        ensures state { IsLeftBy result self.new }

        ensures cause { OnErr result ((self.old.state ≡ Stopped) ⊎ HasStopped self.old self.new) }
        ensures ended { self.old.state ≡ Ended → (result ≡ Ok false) × (self.new ≡ self.old) }
        ensures stopped { self.old.state ≡ Stopped → IsErr result × (self.new ≡ self.old) }
    {
        match self.state {
            State::Open => self.advance_open(),
            State::Ended => Ok(false),
            State::Stopped => Err(ReadFault),
        }
    }

    /// Goes on to the next line, where neither the end nor a fault was met yet.
    fn advance_open(&mut self) -> Result<bool, ReadFault>
        requires { self.old.state ≡ Open }
        ensures lines { ReadsNext self.old self.new (answered result self.new) }
        ensures state { IsLeftBy result self.new }
        ensures cause { OnErr result (HasStopped self.old self.new) }
    {
        // What leaves early below is a fault.
        self.state = State::Stopped;
        let has_feed = self.input.take_line()?;
        if !has_feed && self.input.has_empty_line() {
            self.state = State::Ended;
            return Ok(false);
        }
        if self.number == LINE_LIMIT {
            return Err(ReadFault);
        }
        self.number += 1;
        self.state = if has_feed { State::Open } else { State::Ended };
        Ok(true)
    }

    /// The number of the last line that `advance` or `next_line` went on to, from 1; 0 before the first.
    pub fn number(&self) -> u64
        ensures { result ≡ self.now.number }
    {
        self.number
    }

    /// The line that `advance` or `next_line` went on to, without its end: a line feed, and one carriage
    /// return before it. It is `None` where the line has more than 1,024 bytes, a carriage return at its
    /// end counted. Where the last call went on to none, nothing is said of it.
    pub fn text(&self) -> Option<&[u8]>
        ensures body { MatchOption result ((line_at self.now).body ≡ None)
            (λ text. (line_at self.now).body ≡ Some text.now) }
        ensures few { IfSome result (λ text. length text.now ≤ MAX_LINE_LEN) }
    {
        match self.input.line() {
            Some(line) => Some(without_carriage_return(line)),
            None => None,
        }
    }

    /// The next line, or `None` at the end, for good; a fault as `advance` tells it. Only tests call this: a run calls
    /// `advance` and `text`, and copies no line.
    pub fn next_line(&mut self) -> Result<Option<Line>, ReadFault>
        ensures lines { ReadsNext self.old self.new (answered (has_line result) self.new) }
        ensures line { IfOk result (λ next. IfSome next (λ line. numbered_line line ≡ line_at self.new)) }
        ensures state { IsLeftBy (has_line result) self.new }

        ensures cause { OnErr result ((self.old.state ≡ Stopped) ⊎ HasStopped self.old self.new) }
        ensures ended { self.old.state ≡ Ended → (result ≡ Ok None) × (self.new ≡ self.old) }
        ensures stopped { self.old.state ≡ Stopped → IsErr result × (self.new ≡ self.old) }
    {
        if !self.advance()? {
            return Ok(None);
        }
        let body = match self.text() {
            Some(text) => Body::of(text),
            None => Body::TooLong,
        };
        Ok(Some(Line {
            number: self.number(),
            body,
        }))
    }
}
