//! Laws of the definitions that the contract of `read_options` speaks of. Each holds by its proof alone.
ghost use Rattle.idn2_options.specs.Laws.{CausesAreFirst, MisusesAreRefused, ModeIsTheOneNamed};
ghost use Rattle.idn2_options.specs.Examples.{ExamplesOfWords};

/// The mode of a run is the one that its words name.
pub fn mode_is_the_one_named()
    ensures { ModeIsTheOneNamed }
{}

/// An option that is used in a wrong way is never passed over, and `clap` refuses words for nothing else.
pub fn misuses_are_refused()
    ensures { MisusesAreRefused }
{}

/// The use that a cause tells is the first that is wrong.
pub fn causes_are_first()
    ensures { CausesAreFirst }
{}

/// Worked examples of command lines.
pub fn words_are_read()
    ensures { ExamplesOfWords }
{}
