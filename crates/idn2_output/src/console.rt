//! The two writers of a run.

ghost use Rattle.idn_text.specs.Writers.{TakesPart, TakesWhole};
ghost use Rattle.std.specs.Prelude.{◌≡◌, ◌∷◌, [], IfErr, OnOk};

use crate::object::{Object, write_object};
use crate::stop::Stop;
use answer_json::ObjectRoom;
use idn_text::{Sink, WriteFault, write_text};
use std::marker::Model;

/// The output and the messages of a run. Contracts see what the two hold.
#[derive(Drop)]
pub struct Console<'o, 'm, W: Sink, E: Sink> {
    /// Takes the answers.
    pub output: &'o mut W,
    /// Takes what is reported of refusals and faults.
    pub messages: &'m mut E,
    /// Room for an object and a line feed. What is left in it says nothing.
    pub room: ObjectRoom,
}

impl<'o, 'm, W: Sink, E: Sink> Model for Console<'o, 'm, W, E> {
    ghost use Rattle.idn2_output.specs.Writing.{Held};

    ghost Value = { Held };

    ghost view = { λ c. record {
      output = W.state c.output.now;
      messages = E.state c.messages.now;
      output_loan = c.output.ghost_name;
      messages_loan = c.messages.ghost_name;
    } };
}

impl<'o, 'm, W: Sink, E: Sink> Console<'o, 'm, W, E> {
    ghost use Rattle.answer_json.specs.Answers.{line_of};
    ghost use Rattle.idn2_output.specs.OutputLines as transcript;
    ghost use Rattle.idn2_output.specs.Objects.{HasSpace, object_told};
    ghost use Rattle.idn2_output.specs.Writing.{Emits};
    ghost use Rattle.idn2_output.specs.declared.stop.Stop.TheVariants as stop;

    /// Writes a line to the output. It takes no memory.
    #[inline]
    pub fn output(&mut self, text: &[u8]) -> Result<(), Stop>
        ensures written { Emits self.old self.new (transcript.Output text.now ∷ []) result }
        ensures why { IfErr result (λ why. why ≡ stop.Output) }
    {
        match write_answer(self.output, text) {
            Ok(()) => Ok(()),
            Err(_fault) => Err(Stop::Output),
        }
    }

    /// Writes an object to the output. It takes no memory.
    ///
    /// Always inline, so that no object is made to be taken apart again.
    #[inline(always)]
    pub fn object(&mut self, object: &Object<'_>) -> Result<(), Stop>
        requires { HasSpace object.now }
        ensures written { Emits self.old self.new (transcript.Output (line_of (object_told object.now)) ∷ []) result }
        ensures why { IfErr result (λ why. why ≡ stop.Output) }
    {
        let line = write_object(&mut self.room, object);
        match write_line(self.output, line) {
            Ok(()) => Ok(()),
            Err(_fault) => Err(Stop::Output),
        }
    }

    /// Writes a line to the messages. It takes no memory.
    pub fn message(&mut self, text: &[u8]) -> Result<(), Stop>
        ensures written { Emits self.old self.new (transcript.Message text.now ∷ []) result }
        ensures why { IfErr result (λ why. why ≡ stop.Messages) }
    {
        match write_text(self.messages, text) {
            Ok(()) => Ok(()),
            Err(_fault) => Err(Stop::Messages),
        }
    }
}

/// Writes the line of an object to the output.
#[inline(never)]
fn write_line<W: Sink>(output: &mut W, line: &[u8]) -> Result<(), WriteFault>
    ensures whole { OnOk result (TakesWhole (W.state output.old) (W.state output.new) line.now) }
    ensures part { IfErr result (λ fault. TakesPart (W.state output.old) (W.state output.new) line.now fault.taken) }
{
    write_answer(output, line)
}

/// Writes a text whole to the output. Texts and objects go through it, so that `write_text` has one caller for the
/// output, and stands where lines are answered.
#[inline(always)]
fn write_answer<W: Sink>(output: &mut W, text: &[u8]) -> Result<(), WriteFault>
    ensures whole { OnOk result (TakesWhole (W.state output.old) (W.state output.new) text.now) }
    ensures part { IfErr result (λ fault. TakesPart (W.state output.old) (W.state output.new) text.now fault.taken) }
{
    write_text(output, text)
}
