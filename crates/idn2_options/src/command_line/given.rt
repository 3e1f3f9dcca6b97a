//! What `clap` found, and the files that the options name.

use crate::command_line::arguments::{
    CHECK_RULESET, CHECK_TABLE, PRINT_RULESET, RULESET, VARIANTS, value_of,
};
use clap::ArgMatches;
use std::marker::Model;
use variant_table::Notation;

/// What `clap` found, with the files that the options name, each of them looked up once.
#[derive(Drop)]
pub(crate) struct Given<'m, 'a> {
    pub matches: &'m ArgMatches<'a>,
    pub listing_table: Option<&'a str>,
    pub listing_ruleset: Option<&'a str>,
    pub checked_table: Option<&'a str>,
    pub checked_ruleset: Option<&'a str>,
    pub printed_ruleset: Option<&'a str>,
}

/// Contracts see the rows that `clap` found.
impl<'m, 'a> Model for Given<'m, 'a> {
    ghost use Rattle.std.specs.Prelude.{◌≡◌, List, option_map};
    ghost use Rattle.clap.specs.Words.{Row, found_of, rows_of};
    ghost use Rattle.idn2_options.specs.Names.{check_ruleset_name, check_table_name, print_ruleset_name};
    ghost use Rattle.idn2_options.specs.Names.{ruleset_name, variants_name};
    ghost use Rattle.idn2_options.specs.Words.{value_of};

    ghost Value = { List Row };

    ghost view = { λ given. rows_of (found_of given.matches.now) };

    ghost invariant = { λ given. let rows = rows_of (found_of given.matches.now) in
        (option_map (λ file. file.now) given.listing_table ≡ value_of variants_name rows)
        × (option_map (λ file. file.now) given.listing_ruleset ≡ value_of ruleset_name rows)
        × (option_map (λ file. file.now) given.checked_table ≡ value_of check_table_name rows)
        × (option_map (λ file. file.now) given.checked_ruleset ≡ value_of check_ruleset_name rows)
        × (option_map (λ file. file.now) given.printed_ruleset ≡ value_of print_ruleset_name rows) };
}

impl<'m, 'a> Given<'m, 'a> {
    ghost use Rattle.std.specs.Prelude.{◌≡◌, option_map};
    ghost use Rattle.clap.specs.Words.{found_of, rows_of};
    ghost use Rattle.idn2_options.specs.Words.{checked_file, checks, file_of, listing_file, lists, notation_of, prints};

    /// What `clap` found in these matches.
    pub(crate) fn of(matches: &'m ArgMatches<'a>) -> Given<'m, 'a>
        ensures { result ≡ rows_of (found_of matches.now) }
    {
        Given {
            matches,
            listing_table: value_of(matches, VARIANTS),
            listing_ruleset: value_of(matches, RULESET),
            checked_table: value_of(matches, CHECK_TABLE),
            checked_ruleset: value_of(matches, CHECK_RULESET),
            printed_ruleset: value_of(matches, PRINT_RULESET),
        }
    }

    /// The file by which variants are listed or requests are answered: a table or a ruleset.
    fn listing_file(&self) -> Option<&'a str>
        ensures { option_map (λ file. file.now) result ≡ listing_file self.now }
    {
        match self.listing_table {
            Some(file) => Some(file),
            None => self.listing_ruleset,
        }
    }

    /// The file that is checked: a table or a ruleset.
    fn checked_file(&self) -> Option<&'a str>
        ensures { option_map (λ file. file.now) result ≡ checked_file self.now }
    {
        match self.checked_table {
            Some(file) => Some(file),
            None => self.checked_ruleset,
        }
    }

    /// Whether there is a file by which variants are listed or requests are answered.
    pub(crate) fn lists(&self) -> bool
        ensures { result ≡ lists self.now }
    {
        self.listing_file().is_some()
    }

    /// Whether there is a file that is checked.
    pub(crate) fn checks(&self) -> bool
        ensures { result ≡ checks self.now }
    {
        self.checked_file().is_some()
    }

    /// Whether there is a file that is printed.
    pub(crate) fn prints(&self) -> bool
        ensures { result ≡ prints self.now }
    {
        self.printed_ruleset.is_some()
    }

    /// How the file is read: as a table or as a ruleset.
    pub(crate) fn notation(&self) -> Notation
        ensures { result ≡ notation_of self.now }
    {
        if self.listing_ruleset.is_some() || self.checked_ruleset.is_some() || self.prints() {
            Notation::Ruleset
        } else {
            Notation::Table
        }
    }

    /// The name of the file of the table or ruleset, which is empty where the mode has none.
    pub(crate) fn file(&self) -> &'a str
        ensures { result.now ≡ file_of self.now }
    {
        match (self.listing_file(), self.checked_file()) {
            (Some(file), _) => file,
            (None, Some(file)) => file,
            (None, None) => self.printed_ruleset.unwrap_or(""),
        }
    }
}
