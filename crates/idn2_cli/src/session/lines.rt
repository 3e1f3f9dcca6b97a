//! The lines of the input, one after another.

ghost use Rattle.std.specs.Prelude.{◌≡◌, ◌≢◌, IfOk, Err};
ghost use Rattle.std.specs.Result.{is_err};
ghost use Rattle.idn_text.specs.Reading.{IsUnread, line_at};
ghost use Rattle.idn2_answers.specs.Transcript.{line_output};
ghost use Rattle.idn2_output.specs.Writing.{Emits, StopsForMemory};
ghost use Rattle.idn2_refusals.specs.Explaining.{explained_by};
ghost use Rattle.idn2_cli.specs.Ends.{Does, lines_job};
ghost use Rattle.idn2_cli.specs.Memory.{NeedsNone};
ghost use Rattle.idn2_cli.specs.inner.LineAnswers.{KeepsIfRefused, reply_output};
ghost use Rattle.idn2_cli.specs.inner.ServedLines.{IsServedAs, LineNeedsNone, answer_at, result_of};
ghost use Rattle.idn2_cli.specs.declared.modes.answering.Served.TheVariants as served;
ghost use Rattle.idn2_output.specs.declared.stop.Stop.TheVariants as stop;

use crate::modes::answering::{Answering, Served};
use crate::modes::asked::Asked;
use crate::modes::buffers::Buffers;
use idn_text::{Lines, Refusal, Sink, Source};
use idn2_options::Form;
use idn2_output::{Console, Status, Stop};
use idn2_refusals::{Explaining, refuse};
use std::alloc::Global;

/// Answers each line to the end of the input, and gives the status of the run.
pub(crate) fn serve_lines<M: Answering, R: Source, W: Sink, E: Sink>(
    alloc: Global,
    form: Form,
    explaining: &Explaining<'_>,
    mode: &M,
    input: &mut Lines<R>,
    console: &mut Console<'_, '_, W, E>,
) -> Result<Status, Stop>
    requires ready { M.is_ready mode.now }
    requires unread { IsUnread input.old }
    ensures { Does
        (lines_job form (explained_by explaining.now) (M.answer_of mode.now) (M.needs_none mode.now)
        (M.goes_on mode.now))
        input.old input.new console.old console.new result }
{
    let mut buffers = Buffers::new();
    let mut has_refused = false;
    'lines: while input.advance()? {
        if serve_line(alloc, form, explaining, mode, input, &mut buffers, console)? {
            has_refused = true;
        }
    }
    Ok(if has_refused {
        Status::Refused
    } else {
        Status::Clean
    })
}

/// Answers the line that the input went on to, or reports why it is refused, and returns whether it was.
#[inline(always)]
fn serve_line<M: Answering, R: Source, W: Sink, E: Sink>(
    alloc: Global,
    form: Form,
    explaining: &Explaining<'_>,
    mode: &M,
    input: &Lines<R>,
    buffers: &mut Buffers,
    console: &mut Console<'_, '_, W, E>,
) -> Result<bool, Stop>
    requires { M.is_ready mode.now }
    ensures written { Emits console.old console.new
        (line_output form (explained_by explaining.now) (M.answer_of mode.now) (line_at input.now)) result }
    ensures refused { IfOk result (λ refused. refused ≡ is_err (answer_at (M.answer_of mode.now) input.now)) }
    ensures no_memory { LineNeedsNone
        (NeedsNone (explained_by explaining.now) (M.answer_of mode.now) (M.needs_none mode.now)) input.now →
        result ≢ Err stop.Memory }
    ensures begun { StopsForMemory (LineNeedsNone (M.goes_on mode.now) input.now) console.old console.new result }
{
    match answer_line(alloc, form, mode, input, buffers, console) {
        Served::Answered => Ok(false),
        Served::Refused(refusal) => {
            refuse(alloc, form, explaining, input, refusal, console)?;
            Ok(true)
        }
        Served::Stopped(why) => Err(why),
    }
}

/// Answers the line that the input went on to, or gives back why it is refused.
#[inline(always)]
fn answer_line<M: Answering, R: Source, W: Sink, E: Sink>(
    alloc: Global,
    form: Form,
    mode: &M,
    input: &Lines<R>,
    buffers: &mut Buffers,
    console: &mut Console<'_, '_, W, E>,
) -> Served
    requires { M.is_ready mode.now }
    ensures written { Emits console.old console.new
        (reply_output form (line_at input.now) (answer_at (M.answer_of mode.now) input.now)) (result_of result) }
    ensures refused { IsServedAs (answer_at (M.answer_of mode.now) input.now) result }
    ensures kept { KeepsIfRefused console.old console.new (result_of result) }
    ensures no_memory { LineNeedsNone (M.needs_none mode.now) input.now → result ≢ served.Stopped stop.Memory }
    ensures begun { StopsForMemory (LineNeedsNone (M.goes_on mode.now) input.now)
        console.old console.new (result_of result) }
{
    let number = input.number();
    match input.text() {
        Some(text) => {
            let asked = Asked { form, number, text };
            mode.answer(alloc, &asked, buffers, console)
        }
        None => Served::Refused(Refusal::LineTooLong),
    }
}
