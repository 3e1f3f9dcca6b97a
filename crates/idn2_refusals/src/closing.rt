//! What ends the program outside a line.
ghost use Rattle.std.specs.Prelude.{◌≡◌};
ghost use Rattle.idn2_refusals.specs.Reports.{IsFault, TakesText, closing_message, closing_status};

use idn_text::{Refusal, Sink, write_text};
use idn2_output::Status;

/// Writes the message of `Usage`, `ReadFault`, `WriteFault` or `Memory`, and answers its status.
/// The status is the same where the writer fails, and then a proper prefix of the message stands.
/// It takes no memory.
pub fn report<E: Sink>(refusal: &Refusal, err: &mut E) -> Status
    requires { IsFault refusal.now }
    ensures status { result ≡ closing_status refusal.now }
    ensures message { TakesText (closing_message refusal.now) (E.state err.old) (E.state err.new) }
{
    tell(message_of(refusal).as_bytes(), err);
    status_of(refusal)
}

/// Writes a text, as far as the writer takes it.
fn tell<E: Sink>(text: &[u8], err: &mut E)
    ensures { TakesText text.now (E.state err.old) (E.state err.new) }
{
    // There is nowhere left to report a fault here.
    let _ = write_text(err, text);
}

fn message_of(refusal: &Refusal) -> &'static str
    requires { IsFault refusal.now }
    ensures { result.now ≡ closing_message refusal.now }
{
    match refusal {
        Refusal::ReadFault => "idn2: 60 read fault\n",
        Refusal::WriteFault => "idn2: 61 write fault\n",
        Refusal::Memory => "idn2: 70 out of memory\n",
        _ => "idn2: 50 usage\n",
    }
}

fn status_of(refusal: &Refusal) -> Status
    ensures { result ≡ closing_status refusal.now }
{
    match refusal {
        Refusal::ReadFault | Refusal::WriteFault => Status::Faulty,
        Refusal::Memory => Status::OutOfMemory,
        _ => Status::Unusable,
    }
}
