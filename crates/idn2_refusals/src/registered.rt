//! A file that isn't read as registered labels.
ghost use Rattle.std.specs.Option.{option_copied};
ghost use Rattle.idn2_output.specs.Writing.{held};
ghost use Rattle.idn2_refusals.specs.CauseWords.{tail_text};
ghost use Rattle.idn2_refusals.specs.Messages.{registered_message};
ghost use Rattle.idn2_refusals.specs.Reports.{TellsUnreadLine, TellsWrong, TellsWrongLine};

use crate::cause::LineCause;
use crate::closing::report;
use crate::message::{explained_message, registered_message};
use crate::registered_cause::cause_if_wanted;
use crate::told_cause::members_of;
use answer_json::MAX_OBJECT_LEN;
use idn_text::{Refusal, Sink, write_text};
use idn2_options::{Form, Options};
use idn2_output::{Object, Status, write_object};
use std::alloc::Global;

/// Writes why a line of a file of registered labels is wrong, and answers the status: by a message, or by an object of
/// the output, with its cause, if causes are wanted. Where the writer fails, a proper prefix of that stands, and the
/// status is that of a fault. A cause alone may take memory.
pub fn refuse_registered<W: Sink, E: Sink>(
    alloc: Global,
    options: &Options,
    text: &[u8],
    line: u64,
    refusal: &Refusal,
    out: &mut W,
    err: &mut E,
) -> Status
    ensures { TellsUnreadLine options.now text.now line refusal.now
        (held (W.state out.old) (E.state err.old)) (held (W.state out.new) (E.state err.new)) result }
{
    let wanted = options.tells_causes();
    match cause_if_wanted(alloc, wanted, text, line, *refusal, options.properties) {
        Ok(cause) => tell_wrong_line(options.form, line, refusal, cause.as_ref(), out, err),
        Err(_) => report(&Refusal::Memory, err),
    }
}

/// Tells of a wrong line of the registered labels, with its cause, if there is one, and answers the status.
fn tell_wrong_line<W: Sink, E: Sink>(
    form: Form,
    line: u64,
    refusal: &Refusal,
    cause: Option<&LineCause>,
    out: &mut W,
    err: &mut E,
) -> Status
    ensures { TellsWrongLine form line refusal.now (option_copied cause.entry)
        (held (W.state out.old) (E.state err.old)) (held (W.state out.new) (E.state err.new)) result }
{
    match form {
        Form::Plain => report_wrong_line(line, refusal, cause, err),
        Form::Json => {
            let mut room = [0; MAX_OBJECT_LEN];
            let members = members_of(refusal, cause);
            let fault = Object::RegisteredFault(line, *refusal, &members);
            let object = write_object(&mut room, &fault);
            match write_text(out, object) {
                Ok(()) => Status::Unusable,
                Err(_fault) => report(&Refusal::WriteFault, err),
            }
        }
    }
}

/// Writes the message of a wrong line of the registered labels, and answers the status.
fn report_wrong_line<E: Sink>(
    line: u64,
    refusal: &Refusal,
    cause: Option<&LineCause>,
    err: &mut E,
) -> Status
    ensures { TellsWrong (registered_message line refusal.now (tail_text refusal.now (option_copied cause.entry)))
        (E.state err.old) (E.state err.new) result }
{
    match cause {
        Some(cause) => {
            let message = explained_message(b"idn2: registered line ", line, refusal, cause);
            tell_wrong(message.as_slice(), err)
        }
        None => tell_wrong(registered_message(line, refusal).as_str().as_bytes(), err),
    }
}

/// Writes this message of a wrong line of the registered labels, and answers the status.
fn tell_wrong<E: Sink>(message: &[u8], err: &mut E) -> Status
    ensures { TellsWrong message.now (E.state err.old) (E.state err.new) result }
{
    match write_text(err, message) {
        Ok(()) => Status::Unusable,
        Err(_fault) => Status::Faulty,
    }
}
