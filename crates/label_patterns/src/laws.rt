//! Laws of patterns, each the contract of a function that does nothing.
ghost use Rattle.label_patterns.specs.Laws.{BeforeStays, MatchesStay, MatchesParts};
ghost use Rattle.label_patterns.specs.TestLaws.{BarredForGood, BarringStays, TestsAgree};

/// What matches a pattern without an end matches it still where the label is lengthened, and nothing else does up to
/// the old end.
pub fn matches_stay()
    ensures { MatchesStay }
{}

/// What is before a place ends in what stands before `_`, or doesn't, whatever follows the place.
pub fn before_stays()
    ensures { BeforeStays }
{}

/// A part that matches begins at or before its end, and lies within the label if it begins there.
pub fn matches_are_parts()
    ensures { MatchesParts }
{}

/// The tests that compute are true exactly where the definitions hold.
pub fn tests_agree()
    ensures { TestsAgree }
{}

/// A condition that is barred fails whatever follows.
pub fn barred_for_good()
    ensures { BarredForGood }
{}

/// Whether a condition is barred at a place doesn't depend on what follows the place.
pub fn barring_stays()
    ensures { BarringStays }
{}
