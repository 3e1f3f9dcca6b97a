//! The words of the command line as `clap` reads them: flags, options with a value, and STRINGS.
//! No argument has a rule on another, so that `clap`'s definition gives what the words mean.
ghost use Rattle.std.specs.Prelude.{◌≡◌, IfOk, false, map, string_bytes};
ghost use Rattle.clap.specs.Words.{FailsBy, app_of, fault_of, found_of, matches_of, rows_of, rule_of};
ghost use Rattle.idn2_options.specs.CommandLine.{app, flag_rule, strings_rule, value_rule, with_rules};
ghost use Rattle.idn2_options.specs.inner.Known.{known_rule};

use crate::command_line::arguments::STRINGS;
use crate::command_line::known::{Known, OPTIONS, OWN};
use clap::{Arg, ArgAction, ArgMatches, Command, Error};
use std::alloc::{AllocError, Global};

/// The version of the program, and of Unicode's tables.
const VERSION: &str = "0.1.0 (Unicode 18.0.0)";

const ABOUT: &str = "Converts and tests internationalized domain names, and lists variants.";

/// The lines of the help have at most 80 columns.
const AFTER_HELP: &str = "\
What goes with --variants goes with --ruleset, too.
Without --limit and --steps there is no limit; without --tries it is 1000000.
Write --after=TEXT where TEXT begins with '-';
strings that begin with '-' come after '--'.

Examples:
  idn2 faß.de
      answers xn--fa-hia.de
  idn2 --variants german.txt --limit 100 strasse
      lists the first 100 variants of strasse
  idn2 --variants german.txt --among registered.txt strasse
      lists the labels in registered.txt that collide with strasse

Status:
  0  every line was answered
  1  a line was refused, or a check found something
  2  the options or a file can't be used
  3  reading or writing failed
  4  memory ran out";

/// What `clap` finds in the words, of which the first is the program's name.
pub(crate) fn matches<'a>(alloc: Global, words: &'a [String]) -> Result<ArgMatches<'a>, Error>
    ensures ok { IfOk result (λ m. rows_of (found_of m) ≡ matches_of app (map string_bytes words.entry.now)) }
    ensures fault { FailsBy (fault_of app (map string_bytes words.entry.now)) result }
{
    let command = command(alloc)?;
    command.try_get_matches_from(words)
}

fn command<'a>(alloc: Global) -> Result<Command<'a>, AllocError>
    ensures { IfOk result (λ c. app_of c ≡ app) }
{
    let command = Command::new(alloc, "idn2")
        .version(VERSION)
        .about(ABOUT)
        .after_help(AFTER_HELP);
    let command = with_options(command, alloc, &OPTIONS[..OWN])?;
    command.arg(strings(
        alloc,
        STRINGS,
        "Lines of input [default: the standard input]",
    ))
}

/// The command with these options, too.
fn with_options<'a>(
    mut command: Command<'a>,
    alloc: Global,
    options: &[Known],
) -> Result<Command<'a>, AllocError>
    ensures { IfOk result (λ r. app_of r ≡ with_rules (app_of command.entry) (map known_rule options.now)) }
{
    for option in options {
        command = command.arg(argument(alloc, option))?;
    }
    Ok(command)
}

fn argument<'a>(alloc: Global, option: &Known) -> Arg<'a>
    ensures rule { rule_of result ≡ known_rule option.now }
    ensures local { result.global ≡ false }
{
    match *option {
        Known::Flag(name, letter, help) => flag(alloc, name, letter, help),
        Known::Valued(name, value, help) => valued(alloc, name, value, help),
    }
}

fn flag<'a>(alloc: Global, name: &'a str, letter: Option<char>, help: &'a str) -> Arg<'a>
    ensures rule { rule_of result ≡ flag_rule name.entry.now letter }
    ensures local { result.global ≡ false }
{
    let flag = Arg::new(alloc, name)
        .long(name)
        .help(help)
        .action(ArgAction::SetTrue);
    match letter {
        Some(letter) => flag.short(letter),
        None => flag,
    }
}

fn valued<'a>(alloc: Global, name: &'a str, value: &'a str, help: &'a str) -> Arg<'a>
    ensures rule { rule_of result ≡ value_rule name.entry.now }
    ensures local { result.global ≡ false }
{
    Arg::new(alloc, name)
        .long(name)
        .value_name(value)
        .help(help)
        .action(ArgAction::Set)
}

fn strings<'a>(alloc: Global, name: &'a str, help: &'a str) -> Arg<'a>
    ensures rule { rule_of result ≡ strings_rule name.entry.now }
    ensures local { result.global ≡ false }
{
    Arg::new(alloc, name)
        .help(help)
        .action(ArgAction::Append)
        .num_args(0..)
}
