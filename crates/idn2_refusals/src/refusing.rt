//! Refusals of lines: a message, which goes on with the cause if causes are wanted, or an object with the cause.
ghost use Rattle.std.specs.Prelude.{◌≡◌, ◌≢◌, ◌≤◌, [], ◌∷◌, IfErr, Err, None, Some};
ghost use Rattle.std.specs.Option.{option_copied};
ghost use Rattle.idn_text.specs.Reading.{line_at};
ghost use Rattle.answer_json.specs.Details.{given_len};
ghost use Rattle.answer_json.specs.Inputs.{told, told_len, told_of};
ghost use Rattle.idn2_refusals.specs.CauseWords.{tail_text};
ghost use Rattle.idn2_refusals.specs.Explained.{BodyCauseNeedsNone, body_cause};
ghost use Rattle.idn2_output.specs.OutputLines.{Message, Output};
ghost use Rattle.idn2_refusals.specs.Messages.{refusal_line, refused_message, refused_object};
ghost use Rattle.idn2_output.specs.Writing.{Emits};
ghost use Rattle.idn2_refusals.specs.Explaining.{explained_by};
ghost use Rattle.idn2_output.specs.declared.stop.Stop.TheVariants as stop;

use crate::cause::{Explaining, LineCause, cause_of_body};
use crate::message::{explained_message, line_message};
use crate::told_cause::members_of;
use answer_json::Input;
use idn_text::{Lines, MAX_LINE_LEN, Refusal, Sink, Source};
use idn2_options::Form;
use idn2_output::{Console, Object, Stop};
use std::alloc::Global;

/// Reports why the line that the input went on to is refused. Some causes take memory.
// Most lines are not refused.
#[cold]
#[inline(never)]
pub fn refuse<R: Source, W: Sink, E: Sink>(
    alloc: Global,
    form: Form,
    explaining: &Explaining<'_>,
    input: &Lines<R>,
    refusal: Refusal,
    console: &mut Console<'_, '_, W, E>,
) -> Result<(), Stop>
    ensures told { Emits console.old console.new
        (refusal_line form (line_at input.now) refusal
        (body_cause (explained_by explaining.now) (line_at input.now).body refusal) ∷ []) result }
    ensures no_memory { BodyCauseNeedsNone (explained_by explaining.now) (line_at input.now).body refusal →
        IfErr result (λ why. why ≢ stop.Memory) }
    ensures long { (line_at input.now).body ≡ None → IfErr result (λ why. why ≢ stop.Memory) }
    ensures begun { result ≡ Err stop.Memory → console.new ≡ console.old }
{
    let number = input.number();
    let text = input.text();
    match explaining {
        Explaining::Nothing => tell(form, number, text, refusal, None, console),
        _ => explain(alloc, form, explaining, number, text, refusal, console),
    }
}

/// Reports why a line of this number is refused, with the cause, if there is one. Of a line that is too long there is
/// no text.
///
/// Not inlined, and neither are some of the functions below: a refusal that is not explained needs no stack space for a
/// cause.
#[inline(never)]
fn explain<W: Sink, E: Sink>(
    alloc: Global,
    form: Form,
    explaining: &Explaining<'_>,
    number: u64,
    text: Option<&[u8]>,
    refusal: Refusal,
    console: &mut Console<'_, '_, W, E>,
) -> Result<(), Stop>
    requires { given_len (option_copied text) ≤ MAX_LINE_LEN }
    ensures told { Emits console.old console.new
        (refusal_line form (record { number = number; body = option_copied text.entry }) refusal
        (body_cause (explained_by explaining.now) (option_copied text.entry) refusal) ∷ []) result }
    ensures no_memory { BodyCauseNeedsNone (explained_by explaining.now) (option_copied text.entry) refusal →
        IfErr result (λ why. why ≢ stop.Memory) }
    ensures long { option_copied text.entry ≡ None → IfErr result (λ why. why ≢ stop.Memory) }
    ensures begun { result ≡ Err stop.Memory → console.new ≡ console.old }
{
    let cause = cause_of_body(alloc, text, refusal, explaining)?;
    tell(form, number, text, refusal, cause.as_ref(), console)
}

/// Tells that a line of this number is refused, with its cause, if there is one. It takes no memory.
#[inline(always)]
fn tell<W: Sink, E: Sink>(
    form: Form,
    number: u64,
    text: Option<&[u8]>,
    refusal: Refusal,
    cause: Option<&LineCause>,
    console: &mut Console<'_, '_, W, E>,
) -> Result<(), Stop>
    requires { given_len (option_copied text) ≤ MAX_LINE_LEN }
    ensures told { Emits console.old console.new
        (refusal_line form (record { number = number; body = option_copied text.entry }) refusal
        (option_copied cause.entry) ∷ []) result }
    ensures why { IfErr result (λ why. why ≢ stop.Memory) }
{
    match form {
        Form::Plain => tell_message(number, refusal, cause, console),
        Form::Json => tell_object(number, text, refusal, cause, console),
    }
}

/// Writes the message of a refused line, with its cause, if there is one.
#[inline(always)]
fn tell_message<W: Sink, E: Sink>(
    number: u64,
    refusal: Refusal,
    cause: Option<&LineCause>,
    console: &mut Console<'_, '_, W, E>,
) -> Result<(), Stop>
    ensures told { Emits console.old console.new
        (Message (refused_message number refusal (tail_text refusal (option_copied cause.entry))) ∷ []) result }
    ensures why { IfErr result (λ why. why ≡ stop.Messages) }
{
    match cause {
        Some(cause) => tell_explained(number, refusal, cause, console),
        None => {
            let message = line_message(number, &refusal);
            console.message(message.as_str().as_bytes())
        }
    }
}

/// Writes the message of a refused line with its cause.
#[inline(never)]
fn tell_explained<W: Sink, E: Sink>(
    number: u64,
    refusal: Refusal,
    cause: &LineCause,
    console: &mut Console<'_, '_, W, E>,
) -> Result<(), Stop>
    ensures told { Emits console.old console.new
        (Message (refused_message number refusal (tail_text refusal (Some cause.now))) ∷ []) result }
    ensures why { IfErr result (λ why. why ≡ stop.Messages) }
{
    let message = explained_message(b"idn2: line ", number, &refusal, cause);
    console.message(message.as_slice())
}

/// Writes the object of a refused line, with its cause, if there is one.
#[inline(never)]
fn tell_object<W: Sink, E: Sink>(
    number: u64,
    text: Option<&[u8]>,
    refusal: Refusal,
    cause: Option<&LineCause>,
    console: &mut Console<'_, '_, W, E>,
) -> Result<(), Stop>
    requires few { given_len (option_copied text) ≤ MAX_LINE_LEN }
    ensures told { Emits console.old console.new
        (Output (refused_object (record { number = number; body = option_copied text.entry }) refusal
        (option_copied cause.entry)) ∷ []) result }
    ensures why { IfErr result (λ why. why ≡ stop.Output) }
{
    let members = members_of(&refusal, cause);
    console.object(&Object::Refused(number, input_of(text), refusal, &members))
}

/// A line of input, of which the bytes may not be kept.
fn input_of(text: Option<&[u8]>) -> Input<'_>
    ensures told { told result ≡ told_of (option_copied text.entry) }
    ensures len { told_len result ≡ given_len (option_copied text.entry) }
{
    match text {
        Some(text) => Input::of(text),
        None => Input::NotKept,
    }
}
