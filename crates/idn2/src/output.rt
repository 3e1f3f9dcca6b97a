//! The standard output: a buffer before a writer. It is flushed before anyone waits for more input, and before a
//! message is written, so that neither overtakes an answer.
ghost use Rattle.std.specs.Prelude.{◌≡◌, ◌⊎◌, [], Some, true, false, IsErr, IfErr, IfOk, OnOk};
ghost use Rattle.std.specs.Io.{ReadsAtMost, WritesAtMost};
ghost use Rattle.std.specs.Io.Buffered.{writer_buffer, writer_contents};
ghost use Rattle.std.specs.Io.KnownBytes.{Keeps, ReadConsumes, WriteAppends};

pub mod taken;

use std::io::{BufWriter, Error, ErrorKind, Read, Result, Write};
use std::marker::Model;
use taken::Taken;

/// An output. Once a call of it has failed, each one does: a write after that would leave a gap.
#[derive(Drop)]
pub struct Output<W: Write + Drop> {
    writer: BufWriter<W>,
    fault: Option<ErrorKind>,
}

impl<W: Write + Drop> Model for Output<W> {
    ghost use Rattle.std.specs.Prelude.{is_some};
    ghost use Rattle.std.specs.Io.Buffered.{writer_buffer, writer_contents};
    ghost use Rattle.idn2.specs.Outputs.{Buffered};

    ghost Value = { Buffered };

    ghost view = { λ o. record {
      bytes = writer_contents W.contents o.writer;
      waiting = writer_buffer o.writer;
      has_failed = is_some o.fault;
    } };
}

impl<W: Write + Drop> Output<W> {
    /// An output of which no call failed yet.
    pub fn new(writer: BufWriter<W>) -> Self
        ensures bytes { result.bytes ≡ writer_contents W.contents writer }
        ensures waiting { result.waiting ≡ writer_buffer writer }
        ensures failed { result.has_failed ≡ false }
    {
        Output {
            writer,
            fault: None,
        }
    }

    /// Takes some of a text into the buffer, and returns how many bytes of it.
    pub fn write(&mut self, text: &[u8], taken: &mut Taken) -> Result<usize>
        ensures bound { WritesAtMost result text.now }
        ensures taken { WriteAppends (Some taken.old) (Some taken.new) result text.now }
        ensures bytes { WriteAppends self.old.bytes self.new.bytes result text.now }
        ensures failed { IfErr result (λ _. self.new.has_failed ≡ true) }
        ensures for_good { self.old.has_failed ≡ true → IsErr result × (self.new ≡ self.old) }
    {
        self.check()?;
        match self.writer.write(text) {
            Ok(count) => {
                taken.push(&text[..count]);
                Ok(count)
            }
            Err(error) => Err(self.fail(error)),
        }
    }

    /// Writes what waits in the buffer. An error says that some answer was lost, now or earlier.
    pub fn flush(&mut self) -> Result<()>
        ensures bytes { Keeps self.old.bytes self.new.bytes }
        ensures flushed { OnOk result (self.new.waiting ≡ []) }
        ensures failed { IfErr result (λ _. self.new.has_failed ≡ true) }
        ensures for_good { self.old.has_failed ≡ true → IsErr result × (self.new ≡ self.old) }
    {
        self.check()?;
        match self.writer.flush() {
            Ok(()) => Ok(()),
            Err(error) => Err(self.fail(error)),
        }
    }

    /// Reads some of an input, once nothing waits in the buffer.
    pub fn read_after<R: Read>(&mut self, input: &mut R, bytes: &mut [u8]) -> Result<usize>
        ensures bound { ReadsAtMost result bytes.new }
        ensures read { ReadConsumes (R.remaining input.old) (R.remaining input.new) result bytes.new }
        ensures bytes { Keeps self.old.bytes self.new.bytes }
        ensures flushed { (input.new ≡ input.old) ⊎ (self.new.waiting ≡ []) }
    {
        match self.flush() {
            Ok(()) => input.read(bytes),
            Err(lost) => Err(lost),
        }
    }

    /// Writes some of a message, once nothing waits in the buffer.
    pub fn write_after<E: Write>(
        &mut self,
        messages: &mut E,
        text: &[u8],
        taken: &mut Taken,
    ) -> Result<usize>
        ensures bound { WritesAtMost result text.now }
        ensures written { WriteAppends (E.contents messages.old) (E.contents messages.new) result text.now }
        ensures bytes { Keeps self.old.bytes self.new.bytes }
        ensures taken { WriteAppends (Some taken.old) (Some taken.new) result text.now }
        ensures flushed { (messages.new ≡ messages.old) ⊎ (self.new.waiting ≡ []) }
    {
        self.flush()?;
        let count = messages.write(text)?;
        taken.push(&text[..count]);
        Ok(count)
    }

    /// Writes what waits in the buffer, and gives the writer back. Where some answer was lost, what the buffer still
    /// holds is dropped with it: by itself the buffer would try once more to write it.
    pub fn end(mut self) -> Result<W>
        ensures { IfOk result (λ writer. Keeps self.bytes (W.contents writer)) }
    {
        let flushed = self.flush();
        let Output { writer, fault: _ } = self;
        let (writer, _lost) = writer.into_parts();
        match flushed {
            Ok(()) => Ok(writer),
            Err(error) => Err(error),
        }
    }

    /// The fault, if a call failed.
    fn check(&self) -> Result<()>
        ensures fault { IfErr result (λ _. self.now.has_failed ≡ true) }
        ensures none { OnOk result (self.now.has_failed ≡ false) }
    {
        match self.fault {
            Some(kind) => Err(Error::from(kind)),
            None => Ok(()),
        }
    }

    /// Keeps what kind of fault this is.
    fn fail(&mut self, error: Error) -> Error
        ensures { self.new ≡ record self.old { has_failed = true } }
    {
        self.fault = Some(error.kind());
        error
    }
}
