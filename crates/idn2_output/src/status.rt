//! How a run ended, and its exit status.
ghost use Rattle.std.specs.Prelude.{◌≡◌};
ghost use Rattle.idn2_output.specs.Statuses.{code_of};

/// How the program ended.
#[derive(Clone, Copy, PartialEq, Eq)]
pub enum Status {
    /// Nothing was refused, and no gap was found.
    Clean,
    /// A line was refused, or the check of a table found something.
    Refused,
    /// The words, the table or the registered labels can't be used.
    Unusable,
    /// A read or a write failed.
    Faulty,
    /// Memory ran out.
    OutOfMemory,
}

impl Status {
    /// The exit status of the process.
    pub fn code(&self) -> u8
        ensures { result ≡ code_of self.now }
    {
        match self {
            Status::Clean => 0,
            Status::Refused => 1,
            Status::Unusable => 2,
            Status::Faulty => 3,
            Status::OutOfMemory => 4,
        }
    }
}
