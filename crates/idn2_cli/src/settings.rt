//! The settings of a run.

use idn2_options::Options;
use registered_labels::RegisteredLabels;
use std::marker::Model;

/// The options of a run, within its limits, and the registered labels among which its labels are asked, if there are
/// some. Contracts see both as one value.
#[derive(Drop)]
pub(crate) struct RunSettings<'r, 'b> {
    pub options: &'r Options,
    pub registered: Option<&'r RegisteredLabels<'b>>,
}

impl<'r, 'b> Model for RunSettings<'r, 'b> {
    ghost use Rattle.std.specs.Prelude.{IfSome};
    ghost use Rattle.std.specs.Option.{option_copied};
    ghost use Rattle.registered_labels.specs.Registered.{AreRegistered};
    ghost use Rattle.idn2_options.specs.Settings.{IsWithinLimits, Settings, keeping};

    ghost Value = { Settings };

    ghost view = { λ s. keeping (option_copied s.registered) s.options.now };

    ghost invariant = { λ s. IsWithinLimits s.options.now
        × IfSome (option_copied s.registered) (AreRegistered s.options.now.properties) };
}
