//! The program's own rules on its options, which `clap` does not know.
ghost use Rattle.std.specs.Prelude.{◌≡◌, count_by};
ghost use Rattle.clap.specs.Words.{found_of, rows_of};
ghost use Rattle.idn2_options.specs.Causes.{broken_rule, listing_option, misfit_of, misfit_of_among, wrong_number};
ghost use Rattle.idn2_options.specs.Words.{among_of, checks_alone, decodes_old, has_among, has_counts};
ghost use Rattle.idn2_options.specs.Words.{has_listing_option, has_short_start, is_allowed, is_bound_if_given};
ghost use Rattle.idn2_options.specs.Words.{is_count_if_given, jumps_by_table, listing_options_fit, names_one_mode};
ghost use Rattle.idn2_options.specs.Words.{prints_alone, prints_plainly, start_of, suits_among};

use crate::command_line::arguments::{
    AFTER, AMONG, DECODE, JSON, JUMP, LIMIT, LOOKUP, OLD, OTHERS, REGISTER, STEPS, TRIES, has_flag,
    has_strings, has_value, value_of,
};
use crate::command_line::broken_rule::{BrokenRule, ListingOption};
use crate::command_line::counts::{count_of, steps_of};
use crate::command_line::given::Given;
use clap::ArgMatches;
use idn_text::MAX_LINE_LEN;

/// Whether the options may stand together, and their values are in their ranges.
pub(crate) fn is_allowed(given: &Given<'_, '_>) -> bool
    ensures { result ≡ is_allowed given.now }
{
    names_one_mode(given)
        && listing_options_fit(given)
        && jumps_by_table(given)
        && decodes_old(given.matches)
        && has_among(given.matches)
        && suits_among(given)
        && has_counts(given.matches)
        && has_short_start(given.matches)
        && checks_alone(given)
        && prints_alone(given)
        && prints_plainly(given)
}

/// The first rule that is broken.
pub(crate) fn broken_rule(given: &Given<'_, '_>) -> Option<BrokenRule>
    ensures { result ≡ broken_rule given.now }
{
    if !names_one_mode(given) {
        return Some(BrokenRule::TwoModes);
    }
    if !listing_options_fit(given) {
        return Some(misfit_of(given));
    }
    if !jumps_by_table(given) {
        return Some(BrokenRule::JumpWithoutTable);
    }
    if !decodes_old(given.matches) {
        return Some(BrokenRule::OldWithoutDecode);
    }
    if !has_among(given.matches) {
        return Some(BrokenRule::OthersWithoutAmong);
    }
    if !suits_among(given) {
        return Some(misfit_of_among(given.matches));
    }
    if !has_counts(given.matches) {
        return Some(wrong_number(given.matches));
    }
    if !has_short_start(given.matches) {
        return Some(BrokenRule::LongStart);
    }
    if !checks_alone(given) {
        return Some(BrokenRule::CheckedStrings);
    }
    if !prints_alone(given) {
        return Some(BrokenRule::PrintedStrings);
    }
    if !prints_plainly(given) {
        return Some(BrokenRule::PrintedObjects);
    }
    None
}

/// How the options of a listing do not fit, where they do not.
fn misfit_of(given: &Given<'_, '_>) -> BrokenRule
    ensures { result ≡ misfit_of given.now }
{
    let option = listing_option(given.matches);
    if given.lists() {
        BrokenRule::NotWithJump(option)
    } else {
        BrokenRule::GoesWithVariants(option)
    }
}

/// The first option of a listing that is given, if one is.
fn listing_option(matches: &ArgMatches<'_>) -> ListingOption
    ensures { result ≡ listing_option (rows_of (found_of matches.now)) }
{
    if has_value(matches, AFTER) {
        ListingOption::After
    } else if has_value(matches, LIMIT) {
        ListingOption::Limit
    } else if has_value(matches, TRIES) {
        ListingOption::Tries
    } else if has_value(matches, STEPS) {
        ListingOption::Steps
    } else {
        ListingOption::Among
    }
}

/// What does not suit `--among`, where something does not.
fn misfit_of_among(matches: &ArgMatches<'_>) -> BrokenRule
    ensures { result ≡ misfit_of_among (rows_of (found_of matches.now)) }
{
    if has_value(matches, TRIES) {
        BrokenRule::NotWithAmong(ListingOption::Tries)
    } else if has_value(matches, STEPS) {
        BrokenRule::NotWithAmong(ListingOption::Steps)
    } else {
        BrokenRule::SameFile
    }
}

/// The first number that is out of its range, where one is.
fn wrong_number(matches: &ArgMatches<'_>) -> BrokenRule
    ensures { result ≡ wrong_number (rows_of (found_of matches.now)) }
{
    if !is_count_if_given(matches, LIMIT) {
        BrokenRule::OutOfRange(ListingOption::Limit)
    } else if !is_count_if_given(matches, TRIES) {
        BrokenRule::OutOfRange(ListingOption::Tries)
    } else {
        BrokenRule::OutOfRange(ListingOption::Steps)
    }
}

/// The text of `--after`, which is empty where it is left out.
pub(crate) fn start_of<'a>(matches: &ArgMatches<'a>) -> &'a str
    ensures { result.now ≡ start_of (rows_of (found_of matches.now)) }
{
    match value_of(matches, AFTER) {
        Some(text) => text,
        None => "",
    }
}

/// Whether the words name one mode at most.
fn names_one_mode(given: &Given<'_, '_>) -> bool
    ensures { result ≡ names_one_mode given.now }
{
    let named = [
        has_flag(given.matches, LOOKUP),
        has_flag(given.matches, REGISTER),
        has_flag(given.matches, DECODE),
        given.listing_table.is_some(),
        given.checked_table.is_some(),
        given.listing_ruleset.is_some(),
        given.checked_ruleset.is_some(),
        given.prints(),
    ];
    count_true(&named) <= 1
}

/// How many of the tests are true.
fn count_true(tests: &[bool]) -> usize
    ensures { result ≡ count_by (λ test. test) tests.now }
{
    tests.iter().filter(|test| **test).count()
}

/// Whether options of a listing are given only where variants are listed.
fn listing_options_fit(given: &Given<'_, '_>) -> bool
    ensures { result ≡ listing_options_fit given.now }
{
    !has_listing_option(given.matches) || given.lists() && !has_flag(given.matches, JUMP)
}

/// Whether an option of a listing is given: `--after`, `--limit`, `--tries`, `--steps` or `--among`.
fn has_listing_option(matches: &ArgMatches<'_>) -> bool
    ensures { result ≡ has_listing_option (rows_of (found_of matches.now)) }
{
    has_value(matches, AFTER)
        || has_value(matches, LIMIT)
        || has_value(matches, TRIES)
        || has_value(matches, STEPS)
        || has_value(matches, AMONG)
}

/// Whether `--jump` is given only with a table or ruleset.
fn jumps_by_table(given: &Given<'_, '_>) -> bool
    ensures { result ≡ jumps_by_table given.now }
{
    !has_flag(given.matches, JUMP) || given.lists()
}

/// Whether `--old` is given only with `--decode`.
fn decodes_old(matches: &ArgMatches<'_>) -> bool
    ensures { result ≡ decodes_old (rows_of (found_of matches.now)) }
{
    !has_flag(matches, OLD) || has_flag(matches, DECODE)
}

/// Whether `--others` is given only with `--among`.
fn has_among(matches: &ArgMatches<'_>) -> bool
    ensures { result ≡ has_among (rows_of (found_of matches.now)) }
{
    !has_flag(matches, OTHERS) || has_value(matches, AMONG)
}

/// Whether what stands with `--among` suits it: neither `--tries` nor `--steps`, and not the same file twice.
fn suits_among(given: &Given<'_, '_>) -> bool
    ensures { result ≡ suits_among given.now }
{
    !has_value(given.matches, AMONG)
        || !has_value(given.matches, TRIES)
            && !has_value(given.matches, STEPS)
            && given.file() != among_of(given.matches)
}

/// The name of the file of registered labels, which is empty where there is none.
fn among_of<'a>(matches: &ArgMatches<'a>) -> &'a str
    ensures { result.now ≡ among_of (rows_of (found_of matches.now)) }
{
    match value_of(matches, AMONG) {
        Some(file) => file,
        None => "",
    }
}

/// Whether the numbers of `--limit`, `--tries` and `--steps` are in their ranges, where they are given.
fn has_counts(matches: &ArgMatches<'_>) -> bool
    ensures { result ≡ has_counts (rows_of (found_of matches.now)) }
{
    is_count_if_given(matches, LIMIT)
        && is_count_if_given(matches, TRIES)
        && is_bound_if_given(matches)
}

/// Whether the value of this option is a count, where it is given.
fn is_count_if_given(matches: &ArgMatches<'_>, name: &str) -> bool
    ensures { result ≡ is_count_if_given name.now (rows_of (found_of matches.now)) }
{
    match value_of(matches, name) {
        Some(text) => count_of(text).is_some(),
        None => true,
    }
}

/// Whether the value of `--steps` is a number of steps, where it is given.
fn is_bound_if_given(matches: &ArgMatches<'_>) -> bool
    ensures { result ≡ is_bound_if_given (rows_of (found_of matches.now)) }
{
    match value_of(matches, STEPS) {
        Some(text) => steps_of(text).is_some(),
        None => true,
    }
}

/// Whether the text of `--after` is not too long.
fn has_short_start(matches: &ArgMatches<'_>) -> bool
    ensures { result ≡ has_short_start (rows_of (found_of matches.now)) }
{
    start_of(matches).len() <= MAX_LINE_LEN
}

/// Whether there are no STRINGS where a table is checked.
fn checks_alone(given: &Given<'_, '_>) -> bool
    ensures { result ≡ checks_alone given.now }
{
    !given.checks() || !has_strings(given.matches)
}

/// Whether there are no STRINGS where a ruleset is printed.
fn prints_alone(given: &Given<'_, '_>) -> bool
    ensures { result ≡ prints_alone given.now }
{
    !given.prints() || !has_strings(given.matches)
}

/// Whether no objects are asked for where a ruleset is printed.
fn prints_plainly(given: &Given<'_, '_>) -> bool
    ensures { result ≡ prints_plainly given.now }
{
    !given.prints() || !has_flag(given.matches, JSON)
}
