//! Laws of the definitions, each the contract of a function that does nothing.
ghost use Rattle.valid_labels.specs.CauseLaws.{CauseIsExact};
ghost use Rattle.valid_labels.specs.DispositionExamples.{DispositionsOfExamples};
ghost use Rattle.valid_labels.specs.Examples.{ValidityOfExamples};
ghost use Rattle.valid_labels.specs.Furthest.{FurthestIsTold};
ghost use Rattle.valid_labels.specs.Laws.{AdmittedAreValid, DeadForGood, LongestFirst, NothingIsAsked, OneCut};
ghost use Rattle.valid_labels.specs.Laws.{LabelsAreToldThemselves, ReadingsAreTold, SegmentationsAgree, TestsAgree};
ghost use Rattle.valid_labels.specs.Laws.{TypelessAreClear};

/// Longest first accepts no more labels than any cut, and the same where each source is one code point.
pub fn longest_first()
    ensures { LongestFirst }
{}

/// A label has one longest-first cut.
pub fn one_cut()
    ensures { OneCut }
{}

/// A label with a segmentation is made of sources, and a label that is made of sources without conditions has one.
pub fn segmentations_agree()
    ensures { SegmentationsAgree }
{}

/// The tests that compute are true exactly where the definitions hold.
pub fn tests_agree()
    ensures { TestsAgree }
{}

/// What is dead stays so whatever follows, and is never valid.
pub fn dead_for_good()
    ensures { DeadForGood }
{}

/// A label that may be asked about is valid, can be cut into sources that may stand where they do, and has one
/// disposition.
pub fn admitted_are_valid()
    ensures { AdmittedAreValid }
{}

/// Under a table that asks nothing of what is made of sources, as each of version 1 or 2 does, each such label may be
/// asked about, so none is refused as not valid. Where it asks nothing of variants, either, they are valid.
pub fn nothing_is_asked()
    ensures { NothingIsAsked }
{}

/// What is told of a label by its readings is so.
pub fn readings_are_told()
    ensures { ReadingsAreTold }
{}

/// What is told of a label itself is so by its segmentations.
pub fn labels_are_told_themselves()
    ensures { LabelsAreToldThemselves }
{}

/// Where no source has a type, each label is clear.
pub fn typeless_are_clear()
    ensures { TypelessAreClear }
{}

/// Worked examples hold, by computation.
pub fn examples_hold()
    ensures { ValidityOfExamples }
{}

/// So do those of dispositions.
pub fn dispositions_of_examples_hold()
    ensures { DispositionsOfExamples }
{}

/// The place up to which sources reach is the one that is told.
pub fn furthest_is_told()
    ensures { FurthestIsTold }
{}

/// The cause that is told is the one that there is, and there is one where a label may not be asked about, and there
/// alone.
pub fn cause_is_exact()
    ensures { CauseIsExact }
{}
