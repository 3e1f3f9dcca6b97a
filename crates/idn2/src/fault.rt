//! What ends the program outside a run: its refusal, and its cause, where causes are asked for.
ghost use Rattle.idn2_refusals.specs.Reports.{IsFault};

use idn_text::{Device, Refusal, write_text};
use idn2_cli::{Status, push_escaped, report};
use std::alloc::{AllocError, AllocFailed, Global};
use std::io::ErrorKind;

/// Why the program ends outside a run. A cause is left out where it isn't asked for, or memory ran out for it.
#[derive(Drop)]
pub enum Fault {
    /// The words can't be used.
    Usage(Option<String>),
    /// A file can't be read.
    Read(Option<String>),
    /// The output can't be written.
    Write(Option<String>),
    /// Whoever read the output reads no more of it, which is no news to them.
    ClosedPipe,
    /// Memory ran out.
    Memory,
}

impl From<AllocError> for Fault {
    fn from(_error: AllocError) -> Fault {
        Fault::Memory
    }
}

impl<T: Drop> From<AllocFailed<T>> for Fault {
    fn from(_error: AllocFailed<T>) -> Fault {
        Fault::Memory
    }
}

impl Fault {
    /// The fault of the standard output.
    pub fn of_write(alloc: Global, kind: ErrorKind, explains: bool) -> Fault {
        match kind {
            ErrorKind::BrokenPipe => Fault::ClosedPipe,
            _ => Fault::Write(cause_of(alloc, "standard output", kind, explains)),
        }
    }

    /// The fault of a file of this name that can't be read.
    pub fn of_read(alloc: Global, name: &str, kind: ErrorKind, explains: bool) -> Fault {
        match kind {
            ErrorKind::OutOfMemory => Fault::Memory,
            _ => Fault::Read(cause_of(alloc, name, kind, explains)),
        }
    }

    /// Tells it, if there is something to tell, and answers its status.
    pub fn tell(&self, rt: &HostRuntime) -> Status {
        if matches!(self, Fault::ClosedPipe) {
            return Status::Faulty;
        }
        let mut messages = Device::new(rt.stderr());
        let refusal = self.refusal();
        match self.cause() {
            Some(cause) => match message_of(rt.alloc(), &refusal, cause) {
                Ok(message) => {
                    // There is nowhere left to report a fault here.
                    let _ = write_text(&mut messages, message.as_bytes());
                    self.status()
                }
                Err(_) => report(&refusal, &mut messages),
            },
            None => report(&refusal, &mut messages),
        }
    }

    /// The cause that is told.
    fn cause(&self) -> Option<&str> {
        match self {
            Fault::Usage(cause) | Fault::Read(cause) | Fault::Write(cause) => cause.as_deref(),
            Fault::ClosedPipe | Fault::Memory => None,
        }
    }

    /// The refusal of the whole call.
    fn refusal(&self) -> Refusal
        ensures { IsFault result }
    {
        match self {
            Fault::Usage(_) => Refusal::Usage,
            Fault::Read(_) => Refusal::ReadFault,
            Fault::Write(_) | Fault::ClosedPipe => Refusal::WriteFault,
            Fault::Memory => Refusal::Memory,
        }
    }

    fn status(&self) -> Status {
        match self {
            Fault::Usage(_) => Status::Unusable,
            Fault::Read(_) | Fault::Write(_) | Fault::ClosedPipe => Status::Faulty,
            Fault::Memory => Status::OutOfMemory,
        }
    }
}

/// The message of a refusal with its cause.
fn message_of(alloc: Global, refusal: &Refusal, cause: &str) -> Result<String, AllocError> {
    let (number, text) = (refusal.number(), refusal.text());
    format!(in alloc; "idn2: {number} {text}: {cause}\n")
}

/// The cause of a fault of a file or a stream, if it is asked for.
fn cause_of(alloc: Global, name: &str, kind: ErrorKind, explains: bool) -> Option<String> {
    if !explains {
        return None;
    }
    match named_cause(alloc, name, kind) {
        Ok(cause) => Some(cause),
        Err(_) => None,
    }
}

/// The name in one line, and what is wrong with what has it.
fn named_cause(alloc: Global, name: &str, kind: ErrorKind) -> Result<String, AllocError> {
    let mut cause = String::new(alloc);
    push_escaped(&mut cause, name)?;
    cause.push_str(": ")?;
    cause.push_str(text_of(kind))?;
    Ok(cause)
}

/// What is wrong, in a few words.
fn text_of(kind: ErrorKind) -> &'static str {
    match kind {
        ErrorKind::NotFound => "no such file",
        ErrorKind::PermissionDenied => "permission denied",
        ErrorKind::IsADirectory => "is a directory",
        ErrorKind::NotADirectory => "not a directory",
        ErrorKind::StorageFull => "no space left",
        _ => "input/output error",
    }
}
