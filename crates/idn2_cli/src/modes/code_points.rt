//! Modes that answer a line by its code points.

ghost use Rattle.std.specs.Prelude.{◌≢◌, ◌≤◌, ℕ, Bool, false, List, length, chars};
ghost use Rattle.idn_text.specs.Points.{AreScalarValues};
ghost use Rattle.idn2_answers.specs.Answers.{LineAnswer};
ghost use Rattle.idn2_output.specs.Writing.{Emits, StopsForMemory};
ghost use Rattle.idn2_cli.specs.inner.Asked.{reply_to};
ghost use Rattle.idn2_cli.specs.inner.LineAnswers.{KeepsIfRefused};
ghost use Rattle.idn2_cli.specs.inner.ServedLines.{IsServedAs, result_of};
ghost use Rattle.idn2_cli.specs.declared.modes.answering.Served.TheVariants as served;
ghost use Rattle.idn2_output.specs.declared.stop.Stop.TheVariants as stop;

use crate::modes::answering::{Answering, Served};
use crate::modes::asked::Asked;
use crate::modes::buffers::Buffers;
use idn_text::{MAX_LINE_LEN, Refusal, Sink, decode_points};
use idn2_output::Console;
use std::alloc::Global;

/// A mode that is handed the code points of a line.
pub(crate) trait PointAnswering {
    // The answer to the code points of a line.
    ghost answer_of: { Self → List ℕ → LineAnswer };

    // What the mode needs to answer.
    ghost is_ready: { Self → Type 0 } = { λ _. Unit {0} };

    // The code points of lines that it answers without memory.
    ghost needs_none: { Self → List ℕ → Type 0 } = { λ _ _. ⊥ };

    // The code points of lines of which the answer, once begun, goes on without memory.
    ghost goes_on: { Self → List ℕ → Type 0 } = { λ _ _. Unit {0} };

    /// Writes the answer to a line that spells these code points, or gives back why the line is refused.
    fn answer_points<W: Sink, E: Sink>(
        &self,
        alloc: Global,
        asked: &Asked<'_>,
        points: &[u32],
        console: &mut Console<'_, '_, W, E>,
    ) -> Served
        requires ready { is_ready self.now }
        requires few_points { length points.now ≤ MAX_LINE_LEN }
        requires scalar_values { AreScalarValues points.now }
        ensures written { Emits console.old console.new
            (reply_to asked.now (answer_of self.now points.now)) (result_of result) }
        ensures refused { IsServedAs (answer_of self.now points.now) result }
        ensures kept { KeepsIfRefused console.old console.new (result_of result) }
        ensures no_memory { needs_none self.now points.now → result ≢ served.Stopped stop.Memory }
        ensures begun { StopsForMemory (goes_on self.now points.now) console.old console.new (result_of result) };
}

/// Turns a mode that is handed the code points of a line into one that is handed its bytes.
#[derive(Drop)]
pub(crate) struct ByPoints<'m, M: PointAnswering> {
    pub mode: &'m M,
}

impl<'m, M: PointAnswering> Answering for ByPoints<'m, M> {
    ghost answer_of = { λ by. M.answer_of by.mode.now };

    ghost is_ready = { λ by. M.is_ready by.mode.now };

    ghost needs_none = { λ by line. M.needs_none by.mode.now (chars line) };

    ghost goes_on = { λ by line. M.goes_on by.mode.now (chars line) };

    fn answer<W: Sink, E: Sink>(
        &self,
        alloc: Global,
        asked: &Asked<'_>,
        buffers: &mut Buffers,
        console: &mut Console<'_, '_, W, E>,
    ) -> Served {
        match decode_points(asked.text, &mut buffers.points) {
            Err(_) => Served::Refused(Refusal::NotUtf8),
            Ok(()) if asked.text.is_empty() => Served::Refused(Refusal::Empty),
            Ok(()) => {
                let points = buffers.points.as_slice();
                self.mode.answer_points(alloc, asked, points, console)
            }
        }
    }
}
