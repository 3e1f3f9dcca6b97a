//! The three streams of a run, which share one output.
//!
//! Once the output has failed, every read and every write of these streams fails. So the run ends at its next
//! step with no message of its own, and the program reports that answers were lost.
ghost use Rattle.std.specs.Prelude.{◌≡◌, [], Some};

use crate::output::Output;
use crate::output::taken::Taken;
use std::cell::{RefCell, RefMut};
use std::io::{Error, ErrorKind, Read, Result, Write};

/// Writes answers into the shared output. Contracts see those that it took.
#[derive(Drop)]
pub struct Answers<'a, W: Write + Drop> {
    output: &'a RefCell<Output<W>>,
    taken: Taken,
}

impl<'a, W: Write + Drop> Answers<'a, W> {
    /// Answers go into this output.
    pub fn new(output: &'a RefCell<Output<W>>) -> Self
        ensures { result.taken ≡ [] }
    {
        Answers {
            output,
            taken: Taken::new(),
        }
    }
}

impl<W: Write + Drop> Write for Answers<'_, W> {
    ghost contents = { λ answers. Some answers.taken };

    fn write(&mut self, text: &[u8]) -> Result<usize> {
        lend(self.output)?.write(text, &mut self.taken)
    }

    fn flush(&mut self) -> Result<()> {
        lend(self.output)?.flush()
    }
}

/// Writes messages, after the answers so far. Contracts see those that were taken.
#[derive(Drop)]
pub struct Messages<'a, E, W: Write + Drop> {
    messages: E,
    output: &'a RefCell<Output<W>>,
    taken: Taken,
}

impl<'a, E, W: Write + Drop> Messages<'a, E, W> {
    /// Messages go into `messages`, answers into this output.
    pub fn new(messages: E, output: &'a RefCell<Output<W>>) -> Self
        ensures { result.taken ≡ [] }
    {
        Messages {
            messages,
            output,
            taken: Taken::new(),
        }
    }
}

impl<E: Write, W: Write + Drop> Write for Messages<'_, E, W> {
    ghost contents = { λ messages. Some messages.taken };

    fn write(&mut self, text: &[u8]) -> Result<usize> {
        lend(self.output)?.write_after(&mut self.messages, text, &mut self.taken)
    }

    fn flush(&mut self) -> Result<()> {
        self.messages.flush()
    }
}

/// Reads input, after the answers so far are written.
#[derive(Drop)]
pub struct Input<'a, R, W: Write + Drop> {
    input: R,
    output: &'a RefCell<Output<W>>,
}

impl<'a, R, W: Write + Drop> Input<'a, R, W> {
    /// Lines come from `input`, answers go into this output.
    pub fn new(input: R, output: &'a RefCell<Output<W>>) -> Self {
        Input { input, output }
    }
}

impl<R: Read, W: Write + Drop> Read for Input<'_, R, W> {
    ghost remaining = { λ input. R.remaining input.input };

    fn read(&mut self, bytes: &mut [u8]) -> Result<usize> {
        lend(self.output)?.read_after(&mut self.input, bytes)
    }
}

/// The output, lent for one call: nobody else has it then.
fn lend<W: Write + Drop>(output: &RefCell<Output<W>>) -> Result<RefMut<'_, Output<W>>> {
    match output.try_borrow_mut() {
        Ok(output) => Ok(output),
        Err(_) => Err(Error::from(ErrorKind::Other)),
    }
}
