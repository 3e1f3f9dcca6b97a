//! The command `idn2`: its words, its files, and one run from its input to its output.
#![tactic(auto)]

mod fault;
mod output;
mod pipes;
mod run;
mod streams;
mod system;
mod words;

ghost use Rattle.std.specs.Prelude.{option_map};
ghost use Rattle.idn2_cli.specs.Settings.{IsWithinLimits};
ghost use Rattle.idn2.specs.Runs.{HasAnswered};

use fault::Fault;
use idn_text::{Device, Lines};
use idn2_cli::{Options, Status, Usage, asks_for_causes, input_text, read_options, usage_cause};
use output::Output;
use run::run_by_files;
use std::alloc::Global;
use std::cell::RefCell;
use std::io::{Stdout, Write};
use std::process::ExitCode;
use streams::{Answers, Input, Messages};
use system::{read_registered, read_table, standard_output};
use words::words;

fn main(rt: HostRuntime) -> ExitCode {
    let status = match serve(&rt) {
        Ok(status) => status,
        Err(fault) => fault.tell(&rt),
    };
    ExitCode::from(status.code())
}

/// Answers what the words request. A fault is that of the whole call, and no message reports it yet.
fn serve(rt: &HostRuntime) -> Result<Status, Fault> {
    let words = words(rt)?;
    let options = match read_options(rt.alloc(), &words) {
        Ok(options) => options,
        Err(Usage::Show(text)) => return show(rt, &text, asks_for_causes(&words)),
        Err(Usage::Bad) => return Err(Fault::Usage(cause_of_words(rt.alloc(), &words))),
        Err(Usage::Memory) => return Err(Fault::Memory),
    };
    let given = input_text(rt.alloc(), &options)?;
    pipes::check_read_once(rt, &options, given.is_some())?;
    let table = read_table(rt, &options)?;
    let file = read_registered(rt, &options)?;
    let output = RefCell::new(Output::new(standard_output(rt)?));
    let status = answer(
        rt,
        &options,
        &table,
        file.as_deref(),
        given.as_deref(),
        &output,
    );
    // Where answers were lost the run could report nothing more, whatever its status is.
    match output.into_inner().end() {
        Ok(_stdout) => Ok(status),
        Err(error) => Err(Fault::of_write(rt.alloc(), error.kind(), options.explain)),
    }
}

/// Why the words are refused, if causes are asked for among them. It is left out where memory runs out for it.
fn cause_of_words(alloc: Global, words: &[String]) -> Option<String> {
    if !asks_for_causes(words) {
        return None;
    }
    match usage_cause(alloc, words) {
        Ok(Some(cause)) => cause.text(alloc).ok(),
        _ => None,
    }
}

/// Prints a text that was requested.
fn show(rt: &HostRuntime, text: &str, explains: bool) -> Result<Status, Fault> {
    match rt.stdout().write_all(text.as_bytes()) {
        Ok(()) => Ok(Status::Clean),
        Err(error) => Err(Fault::of_write(rt.alloc(), error.kind(), explains)),
    }
}

/// Answers the lines of the STRINGS or, if there are none, those of the standard input.
fn answer(
    rt: &HostRuntime,
    options: &Options,
    table: &[u8],
    file: Option<&[u8]>,
    given: Option<&[u8]>,
    output: &RefCell<Output<Stdout>>,
) -> Status
    requires { IsWithinLimits options.now }
    ensures { HasAnswered options.now table.now (option_map (λ text. text.now) file.entry)
        (option_map (λ text. text.now) given.entry) result }
{
    let mut out = Device::new(Answers::new(output));
    let mut err = Device::new(Messages::new(rt.stderr(), output));
    match given {
        Some(text) => {
            let mut lines = Lines::new(Device::new(text));
            run_by_files(
                rt.alloc(),
                options,
                table,
                file,
                &mut lines,
                &mut out,
                &mut err,
            )
        }
        None => {
            let mut lines = Lines::new(Device::new(Input::new(rt.stdin(), output)));
            run_by_files(
                rt.alloc(),
                options,
                table,
                file,
                &mut lines,
                &mut out,
                &mut err,
            )
        }
    }
}
