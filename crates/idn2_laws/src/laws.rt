//! Laws of the definitions that the contract of `idn2_cli::run` speaks of. Each holds by its proof alone.
ghost use Rattle.std.specs.Prelude.{ℕ, List};
ghost use Rattle.idn2_answers.specs.Answers.{LineAnswer};
ghost use Rattle.idn2_laws.specs.Laws.{CausesAreTold, ConditionsAloneDiffer, FormsSayTheSame};
ghost use Rattle.idn2_laws.specs.Laws.{RulesetsAnswerAsTheySay};
ghost use Rattle.idn2_laws.specs.DispositionLaws.{BlockedBlocks, DispositionsAreTold, ReadingsDecide, RulesAloneDecide};
ghost use Rattle.idn2_laws.specs.DemandLaws.{DemandsAreActions};
ghost use Rattle.idn2_laws.specs.TypeExamples.{ChineseForms, OwnActionsFirst, UnclearVariants};
ghost use Rattle.idn2_laws.specs.ToldAlike.{CausesAreToldAlike};
ghost use Rattle.idn2_laws.specs.ListingLaws.{AdmittedAreListed, ListedAreMutual, NotValidIsNeverTold};
ghost use Rattle.idn2_laws.specs.ListingLaws.{RulesetsSayTheSame, SpelledAreValid};
ghost use Rattle.idn2_laws.specs.LineCauses.{RefusalsAreExplained};
ghost use Rattle.idn2_laws.specs.ReadBack.{FindingsAreReadBack, RefusalsAreReadBack, RegisteredFaultsAreReadBack};
ghost use Rattle.idn2_laws.specs.ReadBack.{SaidIsReadBack, TableFaultsAreReadBack};
ghost use Rattle.idn2_laws.specs.ListingExamples.{ListingsOfExamples};
ghost use Rattle.idn2_laws.specs.CollisionLaws.{CollisionsAreFound, CollisionsGoBothWays, KeysDecide, RegardsAreTold};
ghost use Rattle.idn2_laws.specs.TurnLaws.{JumpsFindTheSame, TurnsFindWhatIsNear};
ghost use Rattle.idn2_laws.specs.CollisionExamples.{HoldersMayHave, ListingsDecide, RelationDecides};
ghost use Rattle.idn2_laws.specs.CauseExamples.{ExamplesOfCauses};
ghost use Rattle.idn2_laws.specs.Examples.{ExamplesOfARun, ExamplesOfBlocks, ExamplesOfLines};
ghost use Rattle.idn2_laws.specs.Examples.{ExamplesOfRefusals, ExamplesOfTranscripts};

/// The disposition of a variant is told, and it has one.
pub fn dispositions_are_told()
    ensures { DispositionsAreTold }
{}

/// What a label spells has a disposition by each of its readings, and one by all of them where it is clear. Without
/// types rules alone decide; and without actions what is blocked blocks.
pub fn readings_decide()
    ensures readings { ReadingsDecide }
    ensures rules { RulesAloneDecide }
    ensures blocked { BlockedBlocks }
{}

/// A label that may be asked about is among its own variants, with its own disposition.
pub fn admitted_labels_are_listed()
    ensures { AdmittedAreListed }
{}

/// In a table without gaps, of single code points and without conditions at variants, where sources alone refuse,
/// labels that are variants of each other have the same variants, and so the same least one; and others don't.
pub fn listed_labels_are_mutual()
    ensures { ListedAreMutual }
{}

/// A demand says what an action says that makes invalid what doesn't meet it.
pub fn demands_are_actions()
    ensures { DemandsAreActions }
{}

/// A ruleset says what the table of version 2 with the same entries says.
pub fn rulesets_say_the_same()
    ensures { RulesetsSayTheSame }
{}

/// Where a table asks nothing of labels that are made of sources, none is refused as not valid.
pub fn not_valid_is_never_told()
    ensures { NotValidIsNeverTold }
{}

/// What a label spells is valid where the table asks nothing.
pub fn spelled_labels_are_valid()
    ensures { SpelledAreValid }
{}

/// Two labels collide whichever is asked about, and what collides is near.
pub fn collisions_go_both_ways()
    ensures { CollisionsGoBothWays }
{}

/// Each registered label that is a variant, whichever way, is found, and no other where both labels are good.
pub fn collisions_are_found()
    ensures { CollisionsAreFound }
{}

/// What a label is to another one is told.
pub fn regards_are_told()
    ensures { RegardsAreTold }
{}

/// In a table without gaps, of single code points and without conditions at variants, where sources alone refuse, two
/// good labels collide whichever is a variant of the other, and exactly where the least label of their listings is the
/// same.
pub fn keys_decide()
    ensures { KeysDecide }
{}

/// Worked examples of collisions hold of the definitions themselves.
pub fn collisions_are_decided()
    ensures listings { ListingsDecide }
    ensures holders { HoldersMayHave }
    ensures relation { RelationDecides }
{}

/// Turns of `--jump` and of a register find what `--among` does, in so many jumps; and one jump decides a pair.
pub fn turns_find_the_same()
    ensures near { TurnsFindWhatIsNear }
    ensures among { JumpsFindTheSame }
{}

/// The check of a table of which no variant has a condition finds its gaps, and nothing that differs.
pub fn conditions_alone_differ()
    ensures { ConditionsAloneDiffer }
{}

/// What the message of a refused line goes on with; and that the object tells the same place.
pub fn causes_are_told()
    ensures laws { CausesAreTold }
    ensures alike { CausesAreToldAlike }
    ensures examples { ExamplesOfCauses }
{}

/// Each line that a mode refuses is told with its cause, where causes are wanted.
pub fn refusals_are_explained()
    ensures { RefusalsAreExplained }
{}

/// A run says the same in both forms.
pub fn forms_say_the_same()
    ensures { FormsSayTheSame }
{}

/// Each object in answer to a line is read back by the grammar of JSON as it is meant, is one line, and is UTF-8,
/// whatever the line holds. The number of the line is below 2^64; so is that of the registered labels to which a
/// listing is kept.
pub fn said_is_read_back()
    ensures { SaidIsReadBack }
{}

/// So is the object of each line that a mode refuses, with its cause. The octets that a cause tells, of an A-label or
/// of a name, are fewer than 2^64; each other number is within the line or the table.
pub fn refusals_are_read_back()
    ensures { RefusalsAreReadBack }
{}

/// So are the objects of the check of a table, and that of the fault of a table or of the registered labels. Fewer than
/// 2^64 pairs are missing, and the number of the line and the place in it are small.
pub fn tables_are_read_back()
    ensures findings { FindingsAreReadBack }
    ensures faults { TableFaultsAreReadBack }
    ensures registered { RegisteredFaultsAreReadBack }
{}

/// Under each table that a ruleset in XML says, labels are answered as the ruleset says.
pub fn rulesets_answer_as_they_say()
    ensures { RulesetsAnswerAsTheySay }
{}

/// Worked examples hold of the definitions themselves.
pub fn examples_hold()
    ensures run { ExamplesOfARun }
    ensures lines { (answer : List ℕ → LineAnswer) → ExamplesOfLines answer }
    ensures blocks { ExamplesOfBlocks }
    ensures refusals { ExamplesOfRefusals }
    ensures transcripts { ExamplesOfTranscripts }
    ensures listings { ListingsOfExamples }
{}

/// Worked examples of types and actions hold of the definitions themselves.
pub fn types_decide()
    ensures chinese { ChineseForms }
    ensures unclear { UnclearVariants }
    ensures actions { OwnActionsFirst }
{}
