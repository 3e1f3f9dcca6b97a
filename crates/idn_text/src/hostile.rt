//! A reader and a writer over memory, for tests, which fail where a test wants it. Neither takes
//! memory.

ghost use Rattle.std.specs.Prelude.{◌≡◌, ◌<◌, ◌≤◌, ◌+◌, ◌-◌};
ghost use Rattle.std.specs.Prelude.{◌↔◌, Some, length, min, IsTrue, IsErr, IfOk};
ghost use Rattle.std.specs.Io.{ReadsAtMost, WritesAtMost};
ghost use Rattle.std.specs.Io.KnownBytes.{ReadConsumes, WriteAppends};

use std::io::{Error, ErrorKind, Read, Result, Write};

/// Gives bytes in pieces, and fails at a numbered call.
#[derive(Drop)]
pub struct StopReader<'a> {
    rest: &'a [u8],
    piece: usize,
    fail_at: u64,
    once: bool,
    calls: u64,
    ghost some: { 0 < piece },
}

impl<'a> StopReader<'a> {
    ghost use Rattle.idn_text.specs.Hostile.{rest_of, given_at_once, fail_at_of, fails_once, calls_of};

    /// Gives at most `piece` bytes a call. The call numbered `fail_at`, from 1, is an error, and so
    /// are all later ones unless `once`; 0 is for no call.
    pub fn new(bytes: &'a [u8], piece: usize, fail_at: u64, once: bool) -> Self
        requires { 0 < piece }
        ensures rest { rest_of result ≡ bytes.now }
        ensures piece { given_at_once result ≡ piece }
        ensures stop { (fail_at_of result ≡ fail_at) × (fails_once result ≡ once) }
        ensures calls { calls_of result ≡ 0 }
    {
        StopReader {
            rest: bytes,
            piece,
            fail_at,
            once,
            calls: 0,
        }
    }
}

impl Read for StopReader<'_> {
    ghost use Rattle.idn_text.specs.Hostile.{rest_of, given_into, calls_of, fails_at, HasOneBehavior};

    ghost remaining = { λ s. Some (rest_of s) };

    fn read(&mut self, buffer: &mut [u8]) -> Result<usize>
        ensures bound { ReadsAtMost result buffer.new }
        ensures bytes { ReadConsumes (Some (rest_of self.old)) (Some (rest_of self.new)) result buffer.new }

        ensures counted { calls_of self.new ≡ min (calls_of self.old + 1) u64.MAX }
        ensures fails { IsErr result ↔ IsTrue (fails_at self.old (calls_of self.new)) }
        ensures piece { IfOk result (λ count. count ≡ given_into self.old (length buffer.new)) }
        ensures kept { HasOneBehavior self.old self.new }
    {
        self.calls = self.calls.saturating_add(1);
        let fails = if self.once {
            self.calls == self.fail_at
        } else {
            self.fail_at != 0 && self.fail_at <= self.calls
        };
        if fails {
            return Err(Error::from(ErrorKind::Other));
        }
        let count = buffer.len().min(self.piece).min(self.rest.len());
        buffer[..count].copy_from_slice(&self.rest[..count]);
        self.rest = &self.rest[count..];
        Ok(count)
    }
}

/// Takes bytes in pieces until its slice is full.
#[derive(Drop)]
pub struct StopWriter<'a> {
    room: &'a mut [u8],
    taken: usize,
    piece: usize,
    ghost some: { 0 < piece },
    ghost within: { taken ≤ length room.now },
}

impl<'a> StopWriter<'a> {
    ghost use Rattle.idn_text.specs.Hostile.{room_of, taken_of, taken_at_once};

    /// Takes at most `piece` bytes a call until the slice is full; then every call is an error.
    pub fn new(room: &'a mut [u8], piece: usize) -> Self
        requires { 0 < piece }
        ensures taken { taken_of result ≡ 0 }
        ensures piece { taken_at_once result ≡ piece }
        ensures room { room_of result ≡ room.old }
    {
        StopWriter {
            room,
            taken: 0,
            piece,
        }
    }

    /// How many bytes the front of the slice has taken.
    pub fn taken(&self) -> usize
        ensures { result ≡ taken_of self.now }
    {
        self.taken
    }
}

impl Write for StopWriter<'_> {
    ghost use Rattle.idn_text.specs.Hostile.{room_of, taken_of, taken_at_once, contents_of, taken_out_of};

    ghost contents = { λ s. Some (contents_of s) };

    fn write(&mut self, text: &[u8]) -> Result<usize>
        ensures bound { WritesAtMost result text.now }
        ensures bytes { WriteAppends (Some (contents_of self.old)) (Some (contents_of self.new)) result text.now }

        ensures fails { IsErr result ↔ (taken_of self.old ≡ length (room_of self.old)) }
        ensures piece { IfOk result (λ count. count ≡ taken_out_of self.old (length text.now)) }
        ensures room { length (room_of self.new) ≡ length (room_of self.old) }
        ensures kept { taken_at_once self.new ≡ taken_at_once self.old }
    {
        let left = self.room.len() - self.taken;
        if left == 0 {
            return Err(Error::from(ErrorKind::Other));
        }
        let count = text.len().min(self.piece).min(left);
        self.room[self.taken..self.taken + count].copy_from_slice(&text[..count]);
        self.taken += count;
        Ok(count)
    }

    fn flush(&mut self) -> Result<()> {
        Ok(())
    }
}
