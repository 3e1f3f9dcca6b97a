//! A table that can't be used.

ghost use Rattle.std.specs.Prelude.{◌≡◌, [], ◌∷◌, None, Err, IfOk, MatchOption};
ghost use Rattle.std.specs.Option.{option_copied};
ghost use Rattle.idn2_refusals.specs.CauseWords.{tail_text};
ghost use Rattle.idn2_refusals.specs.TableCauses.{fault_cause, told_if};
ghost use Rattle.idn2_output.specs.OutputLines.{Message};
ghost use Rattle.idn2_refusals.specs.Messages.{fault_line, table_message as table_message_of};
ghost use Rattle.idn2_output.specs.Writing.{Emits};
ghost use Rattle.idn2_refusals.specs.TableFaults.{told_of};
ghost use Rattle.idn_class.specs.declared.properties.Properties.{Properties};
ghost use Rattle.variant_table.specs.FaultyLines.{IsRefusalOf};
ghost use Rattle.variant_table.specs.declared.version.Notation.{Notation};
ghost use Rattle.idn2_output.specs.declared.status.Status.TheVariants as statuses;
ghost use Rattle.idn2_output.specs.declared.stop.Stop.TheVariants as stop;

use crate::cause::LineCause;
use crate::fault_cause::fault_cause_if_wanted;
use crate::message::{explained_message, table_message};
use crate::told_cause::members_of;
use idn_text::{Refusal, Sink};
use idn2_options::Form;
use idn2_output::{Console, Object, Status, Stop};
use variant_table::{TableFault, TableRefusal};

/// Tells the fault of the table that a text is to spell, with its cause, if causes are wanted, and gives the status of
/// the run. Lack of memory is no fault of the table: nothing is reported, and the run stops.
pub fn refuse_table<W: Sink, E: Sink>(
    form: Form,
    wanted: bool,
    text: &[u8],
    refusal: &TableRefusal<'_>,
    console: &mut Console<'_, '_, W, E>,
) -> Result<Status, Stop>
    ensures told { (properties : Properties) (notation : Notation) →
        IsRefusalOf properties notation text.now refusal.now →
        MatchOption (told_of refusal.now.fault) ((result ≡ Err stop.Memory) × (console.new ≡ console.old))
        (λ told. Emits console.old console.new
        (fault_line form told.0 told.1
        (told_if wanted (fault_cause properties notation text.now refusal.now.fault)) ∷ []) result) }
    ensures status { IfOk result (λ status. status ≡ statuses.Unusable) }
{
    let Some((line, told)) = told_of(refusal.fault) else {
        return Err(Stop::Memory);
    };
    let cause = fault_cause_if_wanted(wanted, text, refusal);
    write_fault(form, line, told, cause.as_ref(), console)?;
    Ok(Status::Unusable)
}

/// Tells why a line of a table is refused, without a cause, and gives the status of the run.
pub fn refuse_table_line<W: Sink, E: Sink>(
    form: Form,
    line: u64,
    refusal: Refusal,
    console: &mut Console<'_, '_, W, E>,
) -> Result<Status, Stop>
    ensures told { Emits console.old console.new (fault_line form line refusal None ∷ []) result }
    ensures status { IfOk result (λ status. status ≡ statuses.Unusable) }
{
    write_fault(form, line, refusal, None, console)?;
    Ok(Status::Unusable)
}

/// Writes why a line of a table is refused, with the cause, if there is one.
fn write_fault<W: Sink, E: Sink>(
    form: Form,
    line: u64,
    refusal: Refusal,
    cause: Option<&LineCause>,
    console: &mut Console<'_, '_, W, E>,
) -> Result<(), Stop>
    ensures { Emits console.old console.new (fault_line form line refusal (option_copied cause.entry) ∷ []) result }
{
    match form {
        Form::Plain => write_message(line, &refusal, cause, console),
        Form::Json => {
            let members = members_of(&refusal, cause);
            console.object(&Object::TableFault(line, refusal, &members))
        }
    }
}

/// Writes the message of a line of a table, with the cause, if there is one.
fn write_message<W: Sink, E: Sink>(
    line: u64,
    refusal: &Refusal,
    cause: Option<&LineCause>,
    console: &mut Console<'_, '_, W, E>,
) -> Result<(), Stop>
    ensures { Emits console.old console.new
        (Message (table_message_of line refusal.now (tail_text refusal.now (option_copied cause.entry))) ∷ []) result }
{
    match cause {
        Some(cause) => {
            let message = explained_message(b"idn2: table line ", line, refusal, cause);
            console.message(message.as_slice())
        }
        None => {
            let message = table_message(line, refusal);
            console.message(message.as_str().as_bytes())
        }
    }
}

/// What is told of a table that is not read. There is nothing for lack of memory.
fn told_of(fault: TableFault) -> Option<(u64, Refusal)>
    ensures { result ≡ told_of fault }
{
    match fault {
        TableFault::Syntax { line } => Some((line, Refusal::Syntax)),
        TableFault::SameSource { line } => Some((line, Refusal::SameSource)),
        TableFault::SameVariant { line } => Some((line, Refusal::SameVariant)),
        TableFault::BadClass { line } => Some((line, Refusal::BadClass)),
        TableFault::Limit { line } => Some((line, Refusal::Limit)),
        TableFault::NoSuchName { line } => Some((line, Refusal::NoSuchName)),
        TableFault::SameName { line } => Some((line, Refusal::SameName)),
        TableFault::Memory => None,
    }
}
