//! A whole run.

ghost use Rattle.std.specs.Prelude.{◌≡◌, ℕ, List, Some, None, IfSome};
ghost use Rattle.std.specs.Option.{option_copied};
ghost use Rattle.idn_text.specs.Reading.{IsUnread};
ghost use Rattle.idn_label.specs.FirstFault.{IsRegistrable};
ghost use Rattle.registered_labels.specs.Registered.{AreRegistered};
ghost use Rattle.valid_labels.specs.Validity.{IsSound};
ghost use Rattle.variant_table.specs.Entries.{TableValue};
ghost use Rattle.idn2_options.specs.Settings.{IsWithinLimits, keeping};
ghost use Rattle.idn2_answers.specs.Answers.{jump_answer, variants_answer, IsJumpAnswer, IsListing};
ghost use Rattle.idn2_answers.specs.Transcript.{IsCheck, IsReadAs, IsTableIn};
ghost use Rattle.idn2_answers.specs.Transcript.{check_findings};
ghost use Rattle.idn2_refusals.specs.Requests.{requested_label};
ghost use Rattle.idn2_refusals.specs.Reports.{closing_status};
ghost use Rattle.idn2_output.specs.Writing.{held, refusal_of};
ghost use Rattle.idn2_cli.specs.Ends.{Closes, Does, RunsBy, at_lines_alone, mode_job};
ghost use Rattle.idn2_cli.specs.Headline.{AnswersLabels, PrintsByText};
ghost use Rattle.idn2_cli.specs.Memory.{IsFoundWithoutMemory};
ghost use Rattle.idn2_cli.specs.inner.Searches.{IsReady};
ghost use Rattle.idn2_cli.specs.inner.ServedModes.{Serves, mode_of, search_mode};
ghost use Rattle.idn2_options.specs.declared.command_line.mode.Mode.TheVariants as modes;

use crate::modes::code_points::ByPoints;
use crate::modes::{
    Among, Decode, DecodeOld, Dispositions, Jumps, Lookup, Register, Search, Variants, check_table,
    print_table, ruling_of_table,
};
use crate::session::lines::serve_lines;
use crate::session::table::{line_of_entry, read_table, refuse_unread};
use crate::settings::RunSettings;
use answer_json::MAX_OBJECT_LEN;
use idn_text::{Lines, Refusal, Sink, Source};
use idn2_options::{Mode, Options};
use idn2_output::{Console, Status, Stop};
use idn2_refusals::{Explaining, refuse_table_line, report};
use registered_labels::RegisteredLabels;
use std::alloc::Global;
use variant_list::{Reversed, ReversedFault};
use variant_table::Table;

/// Runs a mode over its input, of which no line was read yet. Where nothing fails, the output lines of the transcript
/// are written, and the status says whether something was refused. A fault of a reader, of a writer or of memory ends
/// the run at once with a last message. Nothing is asked among registered labels: for options that name a file of them
/// there is `run_among`. Only tests call this: the program calls `run_among` in each mode.
pub fn run<R: Source, W: Sink, E: Sink>(
    alloc: Global,
    options: &Options,
    table: &[u8],
    input: &mut Lines<R>,
    out: &mut W,
    err: &mut E,
) -> Status
    requires limits { IsWithinLimits options.now }
    requires unread { IsUnread input.old }
    ensures ends { RunsBy options.now table.now input.old input.new
        (held (W.state out.old) (E.state err.old)) (held (W.state out.new) (E.state err.new)) result }
    // The theorem of listings and of jumps: these bytes of this output are the answers to these lines.
    ensures headline { AnswersLabels options.now.mode → PrintsByText options.now table.now input.old input.new
        (W.state out.old).contents (W.state out.new).contents result }
    // What the transcript has for a label that may be registered, for a request, and for the check of a table.
    ensures listing { (given : TableValue) (label : List ℕ) →
        IsReadAs options.now.properties options.now.notation table.now (Ok given) →
        IsRegistrable options.now.properties label →
        IsListing options.now given label (variants_answer options.now given label) }
    ensures jump { (given : TableValue) (request : List ℕ) →
        IsReadAs options.now.properties options.now.notation table.now (Ok given) →
        IsRegistrable options.now.properties (requested_label request) →
        IsJumpAnswer options.now given request (jump_answer options.now.properties given request) }
    ensures check { (given : TableValue) → IsReadAs options.now.properties options.now.notation table.now (Ok given) →
        IsCheck given (check_findings given) }
{
    // Only for the proof: where a field is read, it is known what contracts see of the options: no registered labels.
    let _ = &options.mode;
    run_among(alloc, options, table, None, input, out, err)
}

/// Runs a mode over its input, as `run` does. Where there are registered labels, a label is answered by those of them
/// that collide with it, in place of its variants.
pub fn run_among<R: Source, W: Sink, E: Sink>(
    alloc: Global,
    options: &Options,
    table: &[u8],
    registered: Option<&RegisteredLabels<'_>>,
    input: &mut Lines<R>,
    out: &mut W,
    err: &mut E,
) -> Status
    requires limits { IsWithinLimits options.now }
    requires registered { IfSome (option_copied registered) (AreRegistered options.now.properties) }
    requires unread { IsUnread input.old }
    ensures ends { RunsBy (keeping (option_copied registered.entry) options.now) table.now input.old input.new
        (held (W.state out.old) (E.state err.old)) (held (W.state out.new) (E.state err.new)) result }
    ensures headline { AnswersLabels options.now.mode →
        PrintsByText (keeping (option_copied registered.entry) options.now) table.now input.old input.new
        (W.state out.old).contents (W.state out.new).contents result }
    ensures listing { (given : TableValue) (label : List ℕ) →
        IsReadAs options.now.properties options.now.notation table.now (Ok given) →
        IsRegistrable options.now.properties label →
        IsListing (keeping (option_copied registered.entry) options.now) given label
        (variants_answer (keeping (option_copied registered.entry) options.now) given label) }
    ensures jump { (given : TableValue) (request : List ℕ) →
        IsReadAs options.now.properties options.now.notation table.now (Ok given) →
        IsRegistrable options.now.properties (requested_label request) →
        IsJumpAnswer options.now given request (jump_answer options.now.properties given request) }
    ensures check { (given : TableValue) → IsReadAs options.now.properties options.now.notation table.now (Ok given) →
        IsCheck given (check_findings given) }
{
    let settings = RunSettings {
        options,
        registered,
    };
    let mut console = Console {
        output: out,
        messages: err,
        room: [0; MAX_OBJECT_LEN],
    };
    let status = serve(alloc, &settings, table, input, &mut console);
    // Only for the proof: the two writers are given back, so that the contract can say what they hold.
    let (_output, _messages) = (console.output, console.messages);
    status
}

/// Runs a mode over its input, as `run_among` does, with the two writers as one value.
fn serve<R: Source, W: Sink, E: Sink>(
    alloc: Global,
    settings: &RunSettings<'_, '_>,
    table: &[u8],
    input: &mut Lines<R>,
    console: &mut Console<'_, '_, W, E>,
) -> Status
    requires unread { IsUnread input.old }
    ensures { RunsBy settings.now table.now input.old input.new console.old console.new result }
{
    match serve_mode(alloc, settings, table, input, console) {
        Ok(status) => status,
        Err(why) => close(why, console),
    }
}

/// Runs the mode to its end, and gives the status, or to a stop.
fn serve_mode<R: Source, W: Sink, E: Sink>(
    alloc: Global,
    settings: &RunSettings<'_, '_>,
    table: &[u8],
    input: &mut Lines<R>,
    console: &mut Console<'_, '_, W, E>,
) -> Result<Status, Stop>
    requires unread { IsUnread input.old }
    ensures { Serves settings.now table.now input.old input.new console.old console.new result }
{
    let options = settings.options;
    let properties = options.properties;
    let wanted = options.tells_causes();
    match options.mode {
        Mode::Lookup => {
            let explaining = Explaining::Query(options.std3).if_wanted(wanted);
            let mode = Lookup { std3: options.std3 };
            serve_lines(alloc, options.form, &explaining, &mode, input, console)
        }
        Mode::Register => {
            let explaining = Explaining::Label(properties).if_wanted(wanted);
            let mode = Register { properties };
            serve_lines(alloc, options.form, &explaining, &mode, input, console)
        }
        Mode::Decode => {
            let explaining = Explaining::Name(properties).if_wanted(wanted);
            let mode = Decode { properties };
            serve_lines(alloc, options.form, &explaining, &mode, input, console)
        }
        Mode::DecodeOld => {
            let explaining = Explaining::Label(properties).if_wanted(wanted);
            let mode = DecodeOld { properties };
            serve_lines(alloc, options.form, &explaining, &mode, input, console)
        }
        Mode::Variants => {
            serve_by_table(alloc, settings, TableMode::Variants, table, input, console)
        }
        Mode::Jump => serve_by_table(alloc, settings, TableMode::Jump, table, input, console),
        Mode::CheckTable => {
            serve_by_table(alloc, settings, TableMode::Check, table, input, console)
        }
        Mode::PrintTable => {
            serve_by_table(alloc, settings, TableMode::Print, table, input, console)
        }
    }
}

/// A mode that works by a table.
#[derive(Clone, Copy)]
enum TableMode {
    Variants,
    Jump,
    Check,
    Print,
}

/// Runs a mode by the table that a text gives, or reports the fault of the text.
fn serve_by_table<R: Source, W: Sink, E: Sink>(
    alloc: Global,
    settings: &RunSettings<'_, '_>,
    mode: TableMode,
    text: &[u8],
    input: &mut Lines<R>,
    console: &mut Console<'_, '_, W, E>,
) -> Result<Status, Stop>
    requires mode { settings.now.mode ≡ mode_of mode }
    requires unread { IsUnread input.old }
    ensures { Serves settings.now text.now input.old input.new console.old console.new result }
{
    let options = settings.options;
    let table = match read_table(alloc, options.notation, text, options.properties) {
        Ok(table) => table,
        Err(unread) => {
            let wanted = options.tells_causes();
            return refuse_unread(options.form, wanted, text, &unread, console);
        }
    };
    match mode {
        TableMode::Variants => match settings.registered {
            None => serve_variants(alloc, settings, &table, input, console),
            among => serve_search(alloc, settings, among, text, &table, input, console),
        },
        TableMode::Jump => serve_search(alloc, settings, None, text, &table, input, console),
        TableMode::Check => check_table(alloc, options.form, &table, console),
        TableMode::Print => print_table(alloc, &table, console),
    }
}

/// Lists the variants of each line by a table. Not inlined, so that a search needs no stack space for it.
#[inline(never)]
fn serve_variants<R: Source, W: Sink, E: Sink>(
    alloc: Global,
    settings: &RunSettings<'_, '_>,
    table: &Table,
    input: &mut Lines<R>,
    console: &mut Console<'_, '_, W, E>,
) -> Result<Status, Stop>
    requires mode { settings.now.mode ≡ modes.Variants }
    requires whole { settings.now.registered ≡ None }
    requires sound { IsSound table.now }
    requires unread { IsUnread input.old }
    ensures { Does (mode_job settings.now (Ok table.now)) input.old input.new console.old console.new result }
{
    let options = settings.options;
    let ruling = ruling_of_table(table);
    let dispositions = Dispositions::of_table(alloc, table)?;
    let mode = Variants {
        table,
        ruling: &ruling,
        dispositions: &dispositions,
        options,
    };
    let explaining = Explaining::Table(options.properties, table).if_wanted(options.tells_causes());
    let by_points = ByPoints { mode: &mode };
    serve_lines(alloc, options.form, &explaining, &by_points, input, console)
}

/// Searches by a table what each line asks, among registered labels, if there are some; unless a sequence of the table
/// is a variant of too many sources.
fn serve_search<R: Source, W: Sink, E: Sink>(
    alloc: Global,
    settings: &RunSettings<'_, '_>,
    among: Option<&RegisteredLabels<'_>>,
    text: &[u8],
    table: &Table,
    input: &mut Lines<R>,
    console: &mut Console<'_, '_, W, E>,
) -> Result<Status, Stop>
    requires mode { settings.now.mode ≡ search_mode (option_copied among) }
    requires among { IfSome (option_copied among) (λ labels. settings.now.registered ≡ Some labels) }
    requires given { IsTableIn settings.now.properties settings.now.notation text.now table.now }
    requires properties { table.now.definitions.properties ≡ settings.now.properties }
    requires sound { IsSound table.now }
    requires unread { IsUnread input.old }
    ensures serves { Serves settings.now text.now input.old input.new console.old console.new result }
    // Where nothing is found of the table with memory, it runs out at a line alone.
    ensures no_memory { IsFoundWithoutMemory table.now → Does (at_lines_alone (mode_job settings.now (Ok table.now)))
        input.old input.new console.old console.new result }
{
    let options = settings.options;
    let reversed = match Reversed::of_table(alloc, table) {
        Ok(reversed) => reversed,
        Err(ReversedFault::Memory) => return Err(Stop::Memory),
        Err(ReversedFault::TooManySources { entry }) => {
            let line = line_of_entry(alloc, options.notation, text, table, entry)?;
            return refuse_table_line(options.form, line, Refusal::Limit, console);
        }
    };
    let ruling = ruling_of_table(table);
    let dispositions = Dispositions::of_table(alloc, table)?;
    let search = Search {
        table,
        ruling: &ruling,
        dispositions: &dispositions,
        reversed: &reversed,
    };
    match among {
        Some(registered) => serve_among(alloc, settings, registered, &search, input, console),
        None => serve_jumps(alloc, settings, &search, input, console),
    }
}

/// Answers the label of each line by the registered labels that collide with it.
fn serve_among<R: Source, W: Sink, E: Sink>(
    alloc: Global,
    settings: &RunSettings<'_, '_>,
    registered: &RegisteredLabels<'_>,
    search: &Search<'_>,
    input: &mut Lines<R>,
    console: &mut Console<'_, '_, W, E>,
) -> Result<Status, Stop>
    requires mode { settings.now.mode ≡ modes.Variants }
    requires among { settings.now.registered ≡ Some registered.now }
    requires ready { IsReady search.now }
    requires unread { IsUnread input.old }
    ensures { Does (at_lines_alone (mode_job settings.now (Ok search.now.table.now))) input.old input.new
        console.old console.new result }
{
    let options = settings.options;
    let mode = Among {
        search: &*search,
        options,
        registered: &*registered,
    };
    let explaining = Explaining::Table(options.properties, search.table).if_wanted(
        options.tells_causes(),
    );
    let by_points = ByPoints { mode: &mode };
    serve_lines(alloc, options.form, &explaining, &by_points, input, console)
}

/// Answers the request of each line by the least near label.
fn serve_jumps<R: Source, W: Sink, E: Sink>(
    alloc: Global,
    settings: &RunSettings<'_, '_>,
    search: &Search<'_>,
    input: &mut Lines<R>,
    console: &mut Console<'_, '_, W, E>,
) -> Result<Status, Stop>
    requires mode { settings.now.mode ≡ modes.Jump }
    requires ready { IsReady search.now }
    requires unread { IsUnread input.old }
    ensures { Does (at_lines_alone (mode_job settings.now (Ok search.now.table.now))) input.old input.new
        console.old console.new result }
{
    let options = settings.options;
    let mode = Jumps {
        search: &*search,
        properties: options.properties,
    };
    let explaining = Explaining::Request(options.properties, search.table).if_wanted(
        options.tells_causes(),
    );
    let by_points = ByPoints { mode: &mode };
    serve_lines(alloc, options.form, &explaining, &by_points, input, console)
}

/// Writes the last message of a run that stops, and gives its status.
fn close<W: Sink, E: Sink>(why: Stop, console: &mut Console<'_, '_, W, E>) -> Status
    ensures closes { Closes why console.old console.new }
    ensures status { result ≡ closing_status (refusal_of why) }
{
    if let Stop::Messages = why {
        return Status::Faulty;
    }
    report(&why.refusal(), console.messages)
}
