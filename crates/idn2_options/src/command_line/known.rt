//! What the command line knows of each option.
ghost use Rattle.std.specs.Prelude.{◌≡◌, option_map};
ghost use Rattle.clap.specs.Walk.{arg_by_long, arg_by_short};
ghost use Rattle.idn2_options.specs.Uses.{known_rules};
ghost use Rattle.idn2_options.specs.inner.Known.{has_letter, name_of, shown_by, shown_of, takes_value};

use crate::command_line::arguments::{
    AFTER, AMONG, CHECK_RULESET, CHECK_TABLE, DECODE, EXPLAIN, JSON, JUMP, LIMIT, LOOKUP, OLD,
    OTHERS, PRINT_RULESET, QUIET, REGISTER, RULESET, STANDARD, STD3, STEPS, TR46NT, TRIES,
    VARIANTS,
};

/// An option of the command line: its name, and what the help says of it.
#[derive(Clone, Copy)]
pub(crate) enum Known {
    /// It takes no value, and may have a letter.
    Flag(&'static str, Option<char>, &'static str),
    /// It takes a value, which goes by a word in the help.
    Valued(&'static str, &'static str, &'static str),
}

/// The options in the order of the help, and the two that `clap` adds by itself.
pub(crate) const OPTIONS: [Known; 24] = [
    Known::Flag(
        LOOKUP,
        Some('l'),
        "Convert each name for a query; the default",
    ),
    Known::Flag(
        REGISTER,
        Some('r'),
        "Test each line, one label, and print its A-label",
    ),
    Known::Flag(
        DECODE,
        Some('d'),
        "Turn the A-labels of each name into U-labels",
    ),
    Known::Valued(
        VARIANTS,
        "FILE",
        "List each label's variants by the table in FILE",
    ),
    Known::Valued(
        CHECK_TABLE,
        "FILE",
        "Print the pairs that the table in FILE lacks",
    ),
    Known::Valued(
        RULESET,
        "FILE",
        "List each label's variants by the ruleset in FILE",
    ),
    Known::Valued(
        CHECK_RULESET,
        "FILE",
        "Print the pairs that the ruleset in FILE lacks",
    ),
    Known::Valued(
        PRINT_RULESET,
        "FILE",
        "Print what the ruleset in FILE says; not as JSON",
    ),
    Known::Valued(
        AMONG,
        "FILE",
        "With --variants: list labels in FILE that collide",
    ),
    Known::Flag(OTHERS, None, "With --among: leave out the label itself"),
    Known::Flag(
        JUMP,
        None,
        "With --variants: answer LABEL TAB TEXT by a label",
    ),
    Known::Flag(OLD, None, "With --decode: print lines of registered labels"),
    Known::Flag(
        TR46NT,
        Some('N'),
        "Non-transitional lookup, which lookup does anyway",
    ),
    Known::Flag(
        STD3,
        None,
        "Lookup refuses ASCII but letters, digits, hyphens",
    ),
    Known::Flag(
        STANDARD,
        None,
        "Test labels by Unicode's own data, not by lists",
    ),
    Known::Flag(
        EXPLAIN,
        None,
        "Messages of refused lines go on with the cause",
    ),
    Known::Flag(
        JSON,
        None,
        "Answer by objects of JSON, with causes of refusals",
    ),
    Known::Flag(QUIET, None, "Accepted; there is no banner"),
    Known::Valued(
        AFTER,
        "TEXT",
        "With --variants: list only variants after TEXT",
    ),
    Known::Valued(
        LIMIT,
        "N",
        "With --variants: stop after N variants of a line",
    ),
    Known::Valued(TRIES, "N", "With --variants: stop after N tested labels"),
    Known::Valued(
        STEPS,
        "N",
        "With --variants: stop after N steps of the search",
    ),
    Known::Flag("help", Some('h'), "Print help"),
    Known::Flag("version", Some('V'), "Print version"),
];

/// How many of them `clap` doesn't add.
pub(crate) const OWN: usize = 22;

impl Known {
    /// The option of this name.
    pub(crate) fn by_name(name: &str) -> Option<Known>
        ensures { option_map shown_by result ≡ option_map shown_of (arg_by_long known_rules name.now) }
    {
        OPTIONS.iter().find(|option| option.name() == name).copied()
    }

    /// The option that has this letter.
    pub(crate) fn by_letter(letter: char) -> Option<Known>
        ensures { option_map shown_by result ≡ option_map shown_of (arg_by_short known_rules letter) }
    {
        OPTIONS
            .iter()
            .find(|option| option.has_letter(letter))
            .copied()
    }

    /// What stands after two dashes.
    pub(crate) fn name(&self) -> &'static str
        ensures { result.now ≡ name_of self.now }
    {
        match self {
            Known::Flag(name, _, _) | Known::Valued(name, _, _) => name,
        }
    }

    /// Whether the letter may stand after one.
    fn has_letter(&self, letter: char) -> bool
        ensures { result ≡ has_letter letter self.now }
    {
        match self {
            Known::Flag(_, Some(own), _) => *own == letter,
            Known::Flag(_, None, _) | Known::Valued(_, _, _) => false,
        }
    }

    pub(crate) fn takes_value(&self) -> bool
        ensures { result ≡ takes_value self.now }
    {
        matches!(self, Known::Valued(_, _, _))
    }
}
