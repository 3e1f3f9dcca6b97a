//! What a mode does with one line.

ghost use Rattle.std.specs.Prelude.{◌≡◌, ◌≢◌, ◌≤◌, ℕ, Bool, List, [], ◌∷◌, ◌++◌, length, IsUtf8, IfErr, false};
ghost use Rattle.answer_json.specs.Answers.{line_of};
ghost use Rattle.idn2_answers.specs.Answers.{LineAnswer, text_answer};
ghost use Rattle.idn2_answers.specs.Said.{Decoded, LookedUp};
ghost use Rattle.idn2_output.specs.Objects.{HasSpace, object_told};
ghost use Rattle.idn2_output.specs.OutputLines.{Output};
ghost use Rattle.idn2_output.specs.Writing.{Emits, StopsForMemory};
ghost use Rattle.idn2_cli.specs.inner.Asked.{object_to, reply_to, said_to};
ghost use Rattle.idn2_cli.specs.inner.LineAnswers.{KeepsIfRefused, longest, said_by};
ghost use Rattle.idn2_cli.specs.inner.ServedLines.{IsServedAs, answered_as, result_of};
ghost use Rattle.idn2_cli.specs.declared.modes.answering.Served.TheVariants as served;
ghost use Rattle.idn2_output.specs.declared.stop.Stop.TheVariants as stop;

use crate::modes::asked::Asked;
use crate::modes::buffers::Buffers;
use answer_json::Input;
use idn_text::{Refusal, Sink};
use idn2_options::Form;
use idn2_output::{Console, Object, Stop};
use std::alloc::Global;

/// What became of a line. Two bytes are enough for it, so it is handed back in registers.
#[derive(Clone, Copy)]
pub(crate) enum Served {
    /// The line was answered.
    Answered,
    /// The run stops.
    Stopped(Stop),
    /// The line is refused, and nothing was written.
    Refused(Refusal),
}

/// A mode that answers each line by itself.
pub(crate) trait Answering {
    // The answer to the code points of a line.
    ghost answer_of: { Self → List ℕ → LineAnswer };

    // What the mode needs to answer.
    ghost is_ready: { Self → Type 0 } = { λ _. Unit {0} };

    // The bytes of lines that it answers without memory.
    ghost needs_none: { Self → List ℕ → Type 0 } = { λ _ _. ⊥ };

    // The bytes of lines of which the answer, once begun, goes on without memory.
    ghost goes_on: { Self → List ℕ → Type 0 } = { λ _ _. Unit {0} };

    /// Writes the answer to the bytes of a line, or gives back why the line is refused.
    fn answer<W: Sink, E: Sink>(
        &self,
        alloc: Global,
        asked: &Asked<'_>,
        buffers: &mut Buffers,
        console: &mut Console<'_, '_, W, E>,
    ) -> Served
        requires ready { is_ready self.now }
        ensures written { Emits console.old console.new
            (reply_to asked.now (text_answer (answer_of self.now) asked.now.text.now)) (result_of result) }
        ensures refused { IsServedAs (text_answer (answer_of self.now) asked.now.text.now) result }
        ensures kept { KeepsIfRefused console.old console.new (result_of result) }
        ensures no_memory { needs_none self.now asked.now.text.now → result ≢ served.Stopped stop.Memory }
        ensures begun { StopsForMemory (goes_on self.now asked.now.text.now)
            console.old console.new (result_of result) };
}

/// That a line is refused. Refused memory is no refusal of the line: the run stops.
#[inline(always)]
pub(crate) fn refused(refusal: Refusal) -> Served
    ensures refused { refusal ≢ Refusal.Memory → result ≡ served.Refused refusal }
    ensures memory { refusal ≡ Refusal.Memory → result ≡ served.Stopped stop.Memory }
{
    match refusal {
        Refusal::Memory => Served::Stopped(Stop::Memory),
        _ => Served::Refused(refusal),
    }
}

/// That a line was answered, where its answer was written.
#[inline(always)]
pub(crate) fn answered(written: Result<(), Stop>) -> Served
    ensures { result_of result ≡ answered_as written }
{
    match written {
        Ok(()) => Served::Answered,
        Err(why) => stopped(why),
    }
}

/// That the run stops.
// Most answers are written.
#[cold]
#[inline(never)]
fn stopped(why: Stop) -> Served
    ensures { result ≡ served.Stopped why }
{
    Served::Stopped(why)
}

/// What one text says of a name.
#[derive(Clone, Copy)]
pub(crate) enum Kind {
    /// What the name is in a query.
    LookedUp,
    /// What the name is decoded to.
    Decoded,
}

/// Answers a line by a text, which is followed by a line feed. It takes no memory.
#[inline(always)]
pub(crate) fn reply<W: Sink, E: Sink>(
    asked: &Asked<'_>,
    kind: Kind,
    line: &[u8],
    console: &mut Console<'_, '_, W, E>,
) -> Result<(), Stop>
    requires utf8 { kind ≡ Kind.LookedUp → IsUtf8 asked.now.text.now }
    requires filled { 1 ≤ length line.now }
    requires short { length line.now ≤ longest kind }
    ensures written { (text : List ℕ) → line.now ≡ text ++ 10 ∷ [] →
        Emits console.old console.new (said_to asked.now (said_by kind text) ∷ []) result }
    ensures why { IfErr result (λ why. why ≡ stop.Output) }
{
    match asked.form {
        Form::Plain => console.output(line),
        Form::Json => write_object_of(*asked, kind, line, console),
    }
}

/// Writes the object that says what one text says of a name.
///
/// Not inlined: a line that is answered by a text needs no stack space for an object.
#[inline(never)]
fn write_object_of<W: Sink, E: Sink>(
    asked: Asked<'_>,
    kind: Kind,
    line: &[u8],
    console: &mut Console<'_, '_, W, E>,
) -> Result<(), Stop>
    requires utf8 { kind ≡ Kind.LookedUp → IsUtf8 asked.text.now }
    requires filled { 1 ≤ length line.now }
    requires short { length line.now ≤ longest kind }
    ensures written { (text : List ℕ) → line.now ≡ text ++ 10 ∷ [] →
        Emits console.old console.new (Output (line_of (object_to asked.entry (said_by kind text))) ∷ []) result }
    ensures why { IfErr result (λ why. why ≡ stop.Output) }
{
    match kind {
        Kind::LookedUp => console.object(&looked_up_of(asked, line)),
        Kind::Decoded => console.object(&decoded_of(asked, line)),
    }
}

/// The object of a name that is looked up.
#[inline(always)]
fn looked_up_of<'a>(asked: Asked<'a>, line: &'a [u8]) -> Object<'a>
    requires utf8 { IsUtf8 asked.text.now }
    requires filled { 1 ≤ length line.now }
    requires short { length line.now ≤ 255 }
    ensures told { (text : List ℕ) → line.now ≡ text ++ 10 ∷ [] →
        object_told result ≡ object_to asked.entry (LookedUp text) }
    ensures space { HasSpace result }
{
    let text = &line[..line.len() - 1];
    Object::LookedUp(asked.number, Input::of_utf8(asked.text), text)
}

/// The object of a name that is decoded.
#[inline(always)]
fn decoded_of<'a>(asked: Asked<'a>, line: &'a [u8]) -> Object<'a>
    requires filled { 1 ≤ length line.now }
    requires short { length line.now ≤ 4097 }
    ensures told { (text : List ℕ) → line.now ≡ text ++ 10 ∷ [] →
        object_told result ≡ object_to asked.entry (Decoded text) }
    ensures space { HasSpace result }
{
    let text = &line[..line.len() - 1];
    Object::Decoded(asked.number, Input::of(asked.text), text)
}
