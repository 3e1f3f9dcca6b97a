//! The options that the words of the command line request.
ghost use Rattle.std.specs.Prelude.{◌≡◌, IfOk, IsUtf8, OnOk, is_some, map, option_and_then, option_map, string_bytes};
ghost use Rattle.std.specs.Str.{chars};
ghost use Rattle.clap.specs.Words.{found_of, kind_of, rows_of};
ghost use Rattle.idn2_options.specs.Causes.{cause_of, told_by};
ghost use Rattle.idn2_options.specs.Settings.{IsWithinLimits, SuitsMode};
ghost use Rattle.idn2_options.specs.Words.{IsAnswer, IsUsage, count_of, form_of, is_refused, mode_of, options_of};
ghost use Rattle.idn2_options.specs.Words.{properties_of, settings_of, start_of, steps_of, strings_of, value_of};

use crate::command_line::arguments::{
    AMONG, DECODE, EXPLAIN, JSON, JUMP, LIMIT, OLD, OTHERS, REGISTER, STANDARD, STD3, STEPS,
    STRINGS, TRIES, has_flag, value_of,
};
use crate::command_line::command;
use crate::command_line::counts::{count_of, steps_of};
use crate::command_line::form::Form;
use crate::command_line::given::Given;
use crate::command_line::mode::Mode;
use crate::command_line::options::Options;
use crate::command_line::rules::{broken_rule, is_allowed, start_of};
use crate::command_line::usage::Usage;
use crate::command_line::usage_cause::{UsageCause, refused_by_clap};
use crate::command_line::uses::front;
use clap::error::ErrorKind;
use clap::{ArgMatches, Error};
use idn_class::Properties;
use std::alloc::{AllocError, Global};

/// `--tries` where it is left out.
const DEFAULT_TRIES: u64 = 1_000_000;

/// The options that the words request; the first word is the program's name. `clap`'s refusal comes
/// first, the program's own rules after it, so that `--limit 0 -h` shows the help and `--bogus -h`
/// is refused.
pub fn read_options(alloc: Global, words: &[String]) -> Result<Options, Usage>
    ensures answer { IsAnswer (options_of (map string_bytes words.now)) result }
    ensures limits { IfOk result IsWithinLimits }
    ensures suits { IfOk result SuitsMode }
{
    let matches = match command::matches(alloc, words) {
        Ok(matches) => matches,
        Err(error) => return Err(usage_of(alloc, &error)),
    };
    let given = Given::of(&matches);
    if !is_allowed(&given) {
        return Err(Usage::Bad);
    }
    Ok(settings_of(alloc, &given)?)
}

/// Why words are refused, if they are; the first word is the program's name. `clap`'s refusal comes first.
pub fn usage_cause(alloc: Global, words: &[String]) -> Result<Option<UsageCause>, AllocError>
    ensures cause { IfOk result (λ cause. option_map told_by cause ≡ cause_of (map string_bytes words.now)) }
    ensures refused { IfOk result (λ cause. is_some cause ≡ is_refused (options_of (map string_bytes words.now))) }
{
    match command::matches(alloc, words) {
        Ok(matches) => match broken_rule(&Given::of(&matches)) {
            Some(rule) => Ok(Some(UsageCause::Rule(rule))),
            None => Ok(None),
        },
        Err(error) => match error.kind() {
            ErrorKind::OutOfMemory => Err(AllocError),
            kind => refused_by_clap(alloc, front(words), kind),
        },
    }
}

// What `clap`'s error comes to: only help and the version have a text to be shown.
fn usage_of(alloc: Global, error: &Error) -> Usage
    ensures { IsUsage (kind_of error.now) result }
{
    match error.kind() {
        ErrorKind::DisplayHelp | ErrorKind::DisplayVersion => {
            match format!(in alloc; "{error}") {
                Ok(text) => Usage::Show(text),
                Err(_) => Usage::Memory,
            }
        }
        ErrorKind::OutOfMemory => Usage::Memory,
        _ => Usage::Bad,
    }
}

fn settings_of(alloc: Global, given: &Given<'_, '_>) -> Result<Options, AllocError>
    ensures value { IfOk result (λ options. options ≡ settings_of given.now) }
    ensures is_text { OnOk result (IsUtf8 (start_of given.now)) }
{
    let matches = given.matches;
    Ok(Options {
        mode: mode_of(given),
        std3: has_flag(matches, STD3),
        properties: properties_of(matches),
        explain: has_flag(matches, EXPLAIN),
        form: form_of(matches),
        file: String::from_str(alloc, given.file())?,
        notation: given.notation(),
        strings: strings_of(alloc, matches)?,
        after: points_of(alloc, start_of(matches))?,
        limit: count_at(matches, LIMIT),
        tries: count_at(matches, TRIES).unwrap_or(DEFAULT_TRIES),
        steps: steps_at(matches),
        among: among_at(alloc, matches)?,
        others: has_flag(matches, OTHERS),
    })
}

fn mode_of(given: &Given<'_, '_>) -> Mode
    ensures { result ≡ mode_of given.now }
{
    if has_flag(given.matches, REGISTER) {
        Mode::Register
    } else if has_flag(given.matches, DECODE) {
        if has_flag(given.matches, OLD) {
            Mode::DecodeOld
        } else {
            Mode::Decode
        }
    } else if given.lists() {
        if has_flag(given.matches, JUMP) {
            Mode::Jump
        } else {
            Mode::Variants
        }
    } else if given.checks() {
        Mode::CheckTable
    } else if given.prints() {
        Mode::PrintTable
    } else {
        Mode::Lookup
    }
}

fn form_of(matches: &ArgMatches<'_>) -> Form
    ensures { result ≡ form_of (rows_of (found_of matches.now)) }
{
    if has_flag(matches, JSON) {
        Form::Json
    } else {
        Form::Plain
    }
}

fn properties_of(matches: &ArgMatches<'_>) -> Properties
    ensures { result ≡ properties_of (rows_of (found_of matches.now)) }
{
    if has_flag(matches, STANDARD) {
        Properties::Unicode
    } else {
        Properties::Profile
    }
}

/// The name of the file of registered labels, if there is one.
fn among_at(alloc: Global, matches: &ArgMatches<'_>) -> Result<Option<String>, AllocError>
    ensures { IfOk result (λ name. option_map string_bytes name ≡ value_of AMONG.now (rows_of (found_of matches.now))) }
{
    match value_of(matches, AMONG) {
        Some(name) => Ok(Some(String::from_str(alloc, name)?)),
        None => Ok(None),
    }
}

fn strings_of(alloc: Global, matches: &ArgMatches<'_>) -> Result<Vec<String>, AllocError>
    ensures { IfOk result (λ strings. map string_bytes strings.items ≡ strings_of (rows_of (found_of matches.now))) }
{
    match matches.get_strs(STRINGS) {
        Some(strings) => copies(alloc, strings),
        None => Ok(Vec::new(alloc)),
    }
}

fn copies(alloc: Global, texts: &[&str]) -> Result<Vec<String>, AllocError>
    ensures { IfOk result (λ copies. map string_bytes copies.items ≡ map (λ text. text.now) texts.now) }
{
    let mut copies = Vec::new(alloc);
    for text in texts {
        copies.push(String::from_str(alloc, text)?)?;
    }
    Ok(copies)
}

fn points_of(alloc: Global, text: &str) -> Result<Vec<u32>, AllocError>
    ensures { IfOk result (λ points. points.items ≡ chars text.now) }
{
    // Not by `collect`, which goes on where the room that it takes ahead is refused.
    let mut points = Vec::with_capacity(alloc, text.len())?;
    for c in text.chars() {
        points.push(u32::from(c))?;
    }
    Ok(points)
}

fn count_at(matches: &ArgMatches<'_>, name: &str) -> Option<u64>
    ensures { result ≡ option_and_then count_of (value_of name.now (rows_of (found_of matches.now))) }
{
    count_of(value_of(matches, name)?)
}

fn steps_at(matches: &ArgMatches<'_>) -> Option<u64>
    ensures { result ≡ option_and_then steps_of (value_of STEPS.now (rows_of (found_of matches.now))) }
{
    steps_of(value_of(matches, STEPS)?)
}
