//! Laws of rulesets. The functions are empty, and their contracts are the laws.
ghost use Rattle.lgr_text.specs.Examples.{AreCountExamples, AreNoSpans, IsActionExample, IsEntryExample, IsNoEntry};
ghost use Rattle.lgr_text.specs.Examples.{IsRangeExample, IsSpansExample};
ghost use Rattle.lgr_text.specs.Laws.{ADocumentSaysOneRuleset, SetsHaveOneForm};
ghost use Rattle.lgr_text.specs.RuleExamples.{AreClasses, AreNoRules, AreNoSets, AreRules, AreSets, IsChoice};

/// Two sets that have the same code points are held in the same form.
pub fn sets_have_one_form()
    ensures { SetsHaveOneForm }
{}

/// The tokens of a document say one ruleset at most.
pub fn a_document_says_one_ruleset()
    ensures { ADocumentSaysOneRuleset }
{}

/// Elements as RFC 7940 has them in its sections 6.2 to 6.4 define what it says, and what it forbids defines nothing.
pub fn rule_examples_hold()
    ensures classes { AreClasses }
    ensures sets { AreSets }
    ensures no_sets { AreNoSets }
    ensures choice { IsChoice }
    ensures rules { AreRules }
    ensures no_rules { AreNoRules }
{}

/// Examples of RFC 7940 say what it says that they say.
pub fn definitions_give_the_examples()
    ensures spans { IsSpansExample }
    ensures no_spans { AreNoSpans }
    ensures counts { AreCountExamples }
    ensures entry { IsEntryExample }
    ensures range { IsRangeExample }
    ensures no_entry { IsNoEntry }
    ensures action { IsActionExample }
{}
