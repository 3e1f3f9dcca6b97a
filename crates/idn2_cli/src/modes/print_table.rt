//! The canonical text of a table.

ghost use Rattle.std.specs.Prelude.{◌≡◌, ◌∷◌, [], IfOk};
ghost use Rattle.idn2_answers.specs.Transcript.{printed_text};
ghost use Rattle.idn2_output.specs.OutputLines.{Output};
ghost use Rattle.idn2_output.specs.Writing.{Emits};
ghost use Rattle.idn2_output.specs.declared.status.Status.TheVariants.{Clean};

use idn_text::Sink;
use idn2_output::{Console, Status, Stop};
use std::alloc::Global;
use variant_table::Table;

/// Writes the canonical text of a table, and gives the status of the run.
pub(crate) fn print_table<W: Sink, E: Sink>(
    alloc: Global,
    table: &Table,
    console: &mut Console<'_, '_, W, E>,
) -> Result<Status, Stop>
    ensures written { Emits console.old console.new (Output (printed_text table.now) ∷ []) result }
    ensures status { IfOk result (λ status. status ≡ Clean) }
{
    let text = table.write_table(alloc)?;
    match console.output(text.as_slice()) {
        Ok(()) => Ok(Status::Clean),
        Err(why) => Err(why),
    }
}
