//! The program's own rules that words may break, as a cause tells them.

/// An option that says what a listing has.
#[derive(Clone, Copy, PartialEq, Eq)]
pub enum ListingOption {
    After,
    Limit,
    Tries,
    Steps,
    Among,
}

/// A rule that is broken.
#[derive(Clone, Copy, PartialEq, Eq)]
pub enum BrokenRule {
    /// Two modes are named.
    TwoModes,
    /// The option stands without a table or ruleset by which variants are listed.
    GoesWithVariants(ListingOption),
    /// The option stands with `--jump`, which lists nothing.
    NotWithJump(ListingOption),
    /// `--jump` stands without a table or ruleset.
    JumpWithoutTable,
    /// `--old` stands without `--decode`.
    OldWithoutDecode,
    /// `--others` stands without `--among`.
    OthersWithoutAmong,
    /// The option stands with `--among`.
    NotWithAmong(ListingOption),
    /// The file of registered labels is that of the table.
    SameFile,
    /// The option's value is no number, or out of its range.
    OutOfRange(ListingOption),
    /// The text of `--after` is too long.
    LongStart,
    /// STRINGS stand where a table or ruleset is checked.
    CheckedStrings,
    /// STRINGS stand where a ruleset is printed.
    PrintedStrings,
    /// `--json` stands where a ruleset is printed.
    PrintedObjects,
}

impl ListingOption {
    /// The option as it is written.
    pub(crate) fn as_str(self) -> &'static str {
        match self {
            ListingOption::After => "--after",
            ListingOption::Limit => "--limit",
            ListingOption::Tries => "--tries",
            ListingOption::Steps => "--steps",
            ListingOption::Among => "--among",
        }
    }
}

impl BrokenRule {
    /// The option that the rule is about, and what the rule says of it.
    pub(crate) fn parts(self) -> (&'static str, &'static str) {
        match self {
            BrokenRule::TwoModes => ("", "two modes are named"),
            BrokenRule::GoesWithVariants(option) => (option.as_str(), " goes with --variants"),
            BrokenRule::NotWithJump(option) => (option.as_str(), " doesn't go with --jump"),
            BrokenRule::JumpWithoutTable => ("--jump", " goes with --variants"),
            BrokenRule::OldWithoutDecode => ("--old", " goes with --decode"),
            BrokenRule::OthersWithoutAmong => ("--others", " goes with --among"),
            BrokenRule::NotWithAmong(option) => (option.as_str(), " doesn't go with --among"),
            BrokenRule::SameFile => ("--among", " takes another file than the table"),
            BrokenRule::OutOfRange(ListingOption::Steps) => {
                ("--steps", " takes a number from 2 to 1000000000000000000")
            }
            BrokenRule::OutOfRange(option) => {
                (option.as_str(), " takes a number from 1 to 1000000000")
            }
            BrokenRule::LongStart => ("--after", " takes at most 1024 bytes"),
            BrokenRule::CheckedStrings => ("", "the check of a table takes no STRINGS"),
            BrokenRule::PrintedStrings => ("--print-ruleset", " takes no STRINGS"),
            BrokenRule::PrintedObjects => ("--print-ruleset", " doesn't go with --json"),
        }
    }
}
