//! Laws of dispositions. The functions are empty, and their contracts are the laws.
ghost use Rattle.variant_dispositions.specs.Laws.{KindsAreASet, OneIfClear, ThereIsOne, ByRulesAlone, BlockedBlocks};
ghost use Rattle.variant_dispositions.specs.Laws.{TwoDefaultsCount, OnlyIsAll};
ghost use Rattle.variant_dispositions.specs.Examples.{TypesOfExamples};

/// The order in which kinds are recorded makes no difference, nor how often.
pub fn kinds_are_a_set()
    ensures { KindsAreASet }
{}

/// A label that is clear has one disposition.
pub fn one_if_clear()
    ensures { OneIfClear }
{}

/// A label that is spelled has a disposition, and the last default action is always triggered.
pub fn there_is_one()
    ensures { ThereIsOne }
{}

/// Actions that ask for no types decide by rules alone.
pub fn by_rules_alone()
    ensures { ByRulesAlone }
{}

/// Without actions of a ruleset's own a blocked type blocks.
pub fn blocked_blocks()
    ensures { BlockedBlocks }
{}

/// Whether a label may be had is decided by the first two default actions.
pub fn two_defaults_count()
    ensures { TwoDefaultsCount }
{}

/// `only` is `all` of what has no source that stays without a type.
pub fn only_is_all()
    ensures { OnlyIsAll }
{}

/// The worked examples hold of the definitions themselves.
pub fn examples_hold()
    ensures { TypesOfExamples }
{}
