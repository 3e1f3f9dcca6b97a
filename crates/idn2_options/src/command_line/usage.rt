//! Why the words of the command line give no options.
ghost use Rattle.std.specs.Prelude.{◌≡◌};
ghost use Rattle.idn2_options.specs.declared.command_line.usage.Usage.TheVariants as usage;

use std::alloc::AllocError;

/// Why the words give no options.
#[derive(Debug, Drop)]
pub enum Usage {
    /// The words can't be read: refusal 50.
    Bad,
    /// Help or the version was requested; this is its text.
    Show(String),
    /// Memory ran out: refusal 70.
    Memory,
}

impl From<AllocError> for Usage {
    ghost from_gives = { λ _ result. result ≡ usage.Memory };

    fn from(_error: AllocError) -> Self {
        Usage::Memory
    }
}
