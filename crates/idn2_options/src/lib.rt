//! What the words of the command line request: the options of a run, and the input that the words give.
#![tactic(auto)]

mod command_line;
pub mod laws;

pub use command_line::broken_rule::{BrokenRule, ListingOption};
pub use command_line::form::Form;
pub use command_line::misuse::Misuse;
pub use command_line::mode::Mode;
pub use command_line::options::Options;
pub use command_line::strings::input_text;
pub use command_line::usage::Usage;
pub use command_line::usage_cause::{UsageCause, push_escaped};
pub use command_line::uses::asks_for_causes;
pub use command_line::words::{read_options, usage_cause};
pub use variant_table::Notation;
