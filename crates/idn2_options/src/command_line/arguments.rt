//! The arguments of the command line by their names, and what `clap` found for each.
ghost use Rattle.std.specs.Prelude.{◌≡◌, option_map};
ghost use Rattle.clap.specs.Words.{found_of, rows_of};
ghost use Rattle.idn2_options.specs.Words.{has_flag, has_strings, has_value, value_of};

use clap::ArgMatches;

// The names of the options, as they stand after two dashes, and of the words that belong to none.
pub(crate) const LOOKUP: &str = "lookup";

pub(crate) const REGISTER: &str = "register";

pub(crate) const DECODE: &str = "decode";

pub(crate) const VARIANTS: &str = "variants";

pub(crate) const CHECK_TABLE: &str = "check-table";

pub(crate) const RULESET: &str = "ruleset";

pub(crate) const CHECK_RULESET: &str = "check-ruleset";

pub(crate) const PRINT_RULESET: &str = "print-ruleset";

pub(crate) const AMONG: &str = "among";

pub(crate) const OTHERS: &str = "others";

pub(crate) const JUMP: &str = "jump";

pub(crate) const OLD: &str = "old";

pub(crate) const TR46NT: &str = "tr46nt";

pub(crate) const STD3: &str = "usestd3asciirules";

pub(crate) const STANDARD: &str = "standard";

pub(crate) const EXPLAIN: &str = "explain";

pub(crate) const JSON: &str = "json";

pub(crate) const QUIET: &str = "quiet";

pub(crate) const AFTER: &str = "after";

pub(crate) const LIMIT: &str = "limit";

pub(crate) const TRIES: &str = "tries";

pub(crate) const STEPS: &str = "steps";

pub(crate) const STRINGS: &str = "STRINGS";

/// Whether the flag is set. Unlike `get_flag`, `get_one` says what it makes of each text.
pub(crate) fn has_flag(matches: &ArgMatches<'_>, name: &str) -> bool
    ensures { result ≡ has_flag name.now (rows_of (found_of matches.now)) }
{
    matches.get_one::<bool>(name).unwrap_or(false)
}

/// The value of the option.
pub(crate) fn value_of<'a>(matches: &ArgMatches<'a>, name: &str) -> Option<&'a str>
    ensures { option_map (λ text. text.now) result ≡ value_of name.now (rows_of (found_of matches.now)) }
{
    matches.get_str(name)
}

/// Whether the option is given.
pub(crate) fn has_value(matches: &ArgMatches<'_>, name: &str) -> bool
    ensures { result ≡ has_value name.now (rows_of (found_of matches.now)) }
{
    value_of(matches, name).is_some()
}

/// Whether there are words that belong to no option.
pub(crate) fn has_strings(matches: &ArgMatches<'_>) -> bool
    ensures { result ≡ has_strings (rows_of (found_of matches.now)) }
{
    match matches.get_strs(STRINGS) {
        Some(strings) => !strings.is_empty(),
        None => false,
    }
}
