//! Laws of the definitions, each the contract of a function that does nothing.
ghost use Rattle.lgr_table.specs.Examples.{EntriesOfExamples};

/// Examples of entries and numbers, which the definitions compute.
pub fn definitions_compute_the_examples()
    ensures { EntriesOfExamples }
{}
