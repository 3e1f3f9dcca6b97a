//! What a writer took.
ghost use Rattle.std.specs.Prelude.{◌≡◌, ◌++◌, []};

use http_server::Log;
use std::marker::Model;

/// The bytes that a writer took, for contracts alone: the log has no bytes, and its calls do nothing when they run.
#[derive(Drop)]
pub struct Taken {
    log: Log<u8, ()>,
}

impl Model for Taken {
    ghost use Rattle.std.specs.Prelude.{List, ℕ, map};

    ghost Value = { List ℕ };

    ghost view = { λ t. map (λ entry. entry.0) t.log.items };
}

impl Taken {
    /// Nothing.
    pub fn new() -> Self
        ensures { result ≡ [] }
    {
        Taken { log: Log::new() }
    }

    /// The text after what was taken. Only an output may say so, of which each call tells what became of the bytes.
    pub(super) fn push(&mut self, text: &[u8])
        ensures { self.new ≡ self.old ++ text.now }
    {
        for byte in text {
            self.log = self.log.and(byte, &());
        }
    }
}
