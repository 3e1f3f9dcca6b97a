//! A file that isn't read as registered labels, before a run begins.
ghost use Rattle.idn2_cli.specs.Ends.{TellsUnread};
ghost use Rattle.idn2_output.specs.Writing.{held};

use idn_text::{Refusal, Sink};
use idn2_options::Options;
use idn2_output::Status;
use idn2_refusals::{refuse_registered, report};
use registered_labels::RegisteredFileFault;
use std::alloc::Global;

/// Writes why a file of this text is not read as registered labels, and answers the status. A wrong line is told by a
/// message, or by an object of the output, with its cause, if causes are wanted. Where the writer fails, a proper
/// prefix of that stands, and the status is that of a fault. A cause alone may take memory.
pub fn report_registered<W: Sink, E: Sink>(
    alloc: Global,
    options: &Options,
    text: &[u8],
    fault: &RegisteredFileFault,
    out: &mut W,
    err: &mut E,
) -> Status
    ensures { TellsUnread options.now text.now fault.now (held (W.state out.old) (E.state err.old))
        (held (W.state out.new) (E.state err.new)) result }
{
    match fault {
        RegisteredFileFault::Memory => report(&Refusal::Memory, err),
        RegisteredFileFault::Refused { line, refusal } => {
            refuse_registered(alloc, options, text, *line, refusal, out, err)
        }
    }
}
