//! A run by the bytes of its files.
ghost use Rattle.std.specs.Prelude.{option_map, IfSome};
ghost use Rattle.std.specs.Option.{option_copied};
ghost use Rattle.registered_labels.specs.Registered.{AreRegistered};
ghost use Rattle.idn_text.specs.Reading.{IsUnread};
ghost use Rattle.idn2_output.specs.Writing.{held};
ghost use Rattle.idn2_cli.specs.Settings.{IsWithinLimits};
ghost use Rattle.idn2.specs.Runs.{Runs, RunsByFiles};

use idn_text::{Lines, Sink, Source};
use idn2_cli::{Options, Status, report_registered, run_among};
use registered_labels::RegisteredLabels;
use std::alloc::Global;

/// Answers the lines of an input by the text of a table and, if there is one, that of a file of registered labels.
pub fn run_by_files<R: Source, W: Sink, E: Sink>(
    alloc: Global,
    options: &Options,
    table: &[u8],
    file: Option<&[u8]>,
    input: &mut Lines<R>,
    out: &mut W,
    err: &mut E,
) -> Status
    requires limits { IsWithinLimits options.now }
    requires unread { IsUnread input.old }
    ensures { RunsByFiles options.now table.now (option_map (λ text. text.now) file.entry) input.old input.new
        (held (W.state out.old) (E.state err.old)) (held (W.state out.new) (E.state err.new)) result }
{
    match file {
        Some(text) => match RegisteredLabels::read(alloc, text, options.properties) {
            Ok(registered) => run_by(alloc, options, table, Some(&registered), input, out, err),
            Err(fault) => report_registered(alloc, options, text, &fault, out, err),
        },
        None => run_by(alloc, options, table, None, input, out, err),
    }
}

/// Answers the lines of an input by the text of a table, among these registered labels, if there are some.
fn run_by<R: Source, W: Sink, E: Sink>(
    alloc: Global,
    options: &Options,
    table: &[u8],
    registered: Option<&RegisteredLabels<'_>>,
    input: &mut Lines<R>,
    out: &mut W,
    err: &mut E,
) -> Status
    requires limits { IsWithinLimits options.now }
    requires registered { IfSome (option_copied registered) (AreRegistered options.now.properties) }
    requires unread { IsUnread input.old }
    ensures { Runs options.now table.now (option_copied registered.entry) input.old input.new
        (held (W.state out.old) (E.state err.old)) (held (W.state out.new) (E.state err.new)) result }
{
    run_among(alloc, options, table, registered, input, out, err)
}
