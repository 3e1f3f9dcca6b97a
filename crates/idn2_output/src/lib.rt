//! What a run writes to: its two writers, the objects and texts that it writes, why it stops, and its status.
#![tactic(auto)]

mod console;
mod object;
mod status;
mod stop;
mod text;

pub use console::Console;
pub use object::{Object, write_object};
pub use status::Status;
pub use stop::Stop;
pub use text::append;
