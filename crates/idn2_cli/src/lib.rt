//! The command `idn2` as a library: one run. Its options are those of `idn2_options`, its messages those of
//! `idn2_refusals`.
#![tactic(auto)]

mod modes;
mod session;
mod settings;

pub use idn2_options::{
    Form, Mode, Notation, Options, Usage, asks_for_causes, input_text, push_escaped, read_options,
    usage_cause,
};
pub use idn2_output::Status;
pub use idn2_refusals::report;
pub use session::report::report_registered;
pub use session::run::{run, run_among};
