//! Laws of the definitions, each the contract of a function that does nothing.
ghost use Rattle.std.specs.Prelude.{is_some, not, ◌≡◌, ◌≤◌, ◌↔◌, Ok, Err, ℕ, [], ◌∷◌, length, List, Option, Some, None};
ghost use Rattle.std.specs.Prelude.{true, false, codes};
ghost use Rattle.label_patterns.specs.declared.span.Span.{Span};
ghost use Rattle.label_patterns.specs.Patterns.{Pattern};
ghost use Rattle.ruleset_text.specs.declared.definition.DemandKind.TheVariants as demand;
ghost use Rattle.label_patterns.specs.declared.condition.ConditionKind.TheVariants as condition;
ghost use Rattle.ruleset_text.specs.declared.fault.DefinitionFault.{DefinitionFault};
ghost use Rattle.ruleset_text.specs.declared.fault.DefinitionFault.TheVariants.{BadClass, Limit, NoSuchName, SameName};
ghost use Rattle.ruleset_text.specs.declared.fault.DefinitionFault.TheVariants.{Syntax};
ghost use Rattle.ruleset_text.specs.declared.keyword.Keyword.{Keyword};
ghost use Rattle.ruleset_text.specs.declared.token.Token.{Token};
ghost use Rattle.label_patterns.specs.Patterns as patterns;
ghost use Rattle.label_patterns.specs.Matches.{HasItsSets};
ghost use Rattle.ruleset_text.specs.declared.action.TriggerKind.TheVariants as kind;
ghost use Rattle.ruleset_text.specs.ActionSteps.{action, trigger};
ghost use Rattle.ruleset_text.specs.Canonical.{HasPoints, pattern_text};
ghost use Rattle.ruleset_text.specs.Definition.{Definition, contexts_of, definition_of, demand_of};
ghost use Rattle.ruleset_text.specs.Definition as definition;
ghost use Rattle.ruleset_text.specs.Definitions.{Definitions, added, canonical_lines, canonical_size, defined};
ghost use Rattle.ruleset_text.specs.Definitions.{nothing_defined, with_lines, with_words};
ghost use Rattle.ruleset_text.specs.DefinitionOrder.{IsDefinitionFault, IsDefinitionLine, SpellsDefinition, SpellsLine};
ghost use Rattle.ruleset_text.specs.DefinitionPlaces.{AreFaultsOf, faults_after};
ghost use Rattle.ruleset_text.specs.DefinitionReading.{definition_read, line_read};
ghost use Rattle.ruleset_text.specs.LineStops.{IsLineStop};
ghost use Rattle.ruleset_text.specs.PlacedLexemes.{Placed, unplaced};
ghost use Rattle.ruleset_text.specs.declared.fault.FaultPlace.{FaultPlace};
ghost use Rattle.ruleset_text.specs.Grammar.{Is, Whole, SpellsPattern, tokens};
ghost use Rattle.ruleset_text.specs.EntryFaults.{PlacedWord};
ghost use Rattle.ruleset_text.specs.LineFaults.{IsFirstTold, first_told};
ghost use Rattle.ruleset_text.specs.declared.entry_notes.LinePoint.{LinePoint};
ghost use Rattle.ruleset_text.specs.PatternLimits.{is_past_limits, marks};
ghost use Rattle.std.specs.List.{list_any};
ghost use Rattle.ruleset_text.specs.EntrySteps.{entry_in};
ghost use Rattle.ruleset_text.specs.inner.Examples.{some_defined, written};
ghost use Rattle.ruleset_text.specs.Lexemes.{lexemes};
ghost use Rattle.ruleset_text.specs.Names.{AreNames, is_name};
ghost use Rattle.ruleset_text.specs.Reading.{pattern_of};
ghost use Rattle.ruleset_text.specs.SpanWords.{SpellSet};
ghost use Rattle.ruleset_text.specs.Spans.{span, spans_in, spans_of};
ghost use Rattle.ruleset_text.specs.Tokens.{tokens_of};
ghost use Rattle.ruleset_text.specs.WellFormed.{AreDefinitions};
ghost use Rattle.idn_class.specs.declared.properties.Properties.{Properties};
ghost use Rattle.variant_dispositions.specs.declared.disposition.Disposition.TheVariants as disposition;

/// The function that reads a pattern tells exactly what the grammar says; so tokens spell one pattern at most.
pub fn reading_a_pattern_is_exact()
    ensures exact { (ts : List Token) (p : Pattern) → (pattern_of ts ≡ Some p) ↔ SpellsPattern ts p }
    ensures one { (ts : List Token) (p q : Pattern) → SpellsPattern ts p → SpellsPattern ts q → p ≡ q }
{}

/// The function that reads the spans of a set tells exactly what the grammar says; so lexemes spell one list of spans
/// at most.
pub fn reading_spans_is_exact()
    ensures exact { (words : List (List ℕ)) (spans : List Span) → (spans_in words ≡ Some spans) ↔ SpellSet words spans }
    ensures one { (words : List (List ℕ)) (spans others : List Span) → SpellSet words spans → SpellSet words others →
        spans ≡ others }
{}

/// The function that reads a definition tells exactly what the grammar says of the line; so a line spells one
/// definition at most.
pub fn reading_a_definition_is_exact()
    ensures exact { (names : List (List ℕ)) (keyword : Keyword) (words : List (List ℕ)) (x : Definition) →
        (definition_of names keyword words ≡ Some x) ↔ SpellsDefinition names keyword words x }
    ensures one { (names : List (List ℕ)) (keyword : Keyword) (words : List (List ℕ)) (x y : Definition) →
        SpellsDefinition names keyword words x → SpellsDefinition names keyword words y → x ≡ y }
{}

/// What is read of a line is the definition that it spells; or the place where it stops defining something: some
/// definition begins with the lexemes before, and none goes on with the one that stands there; or the line ends there
/// too early. Of an action of more than 8,192 lexemes that isn't said, since it may list all names that there are.
pub fn a_line_stops_where_no_definition_goes_on()
    ensures read { (names : List (List ℕ)) (end : ℕ) (ws : List Placed) (x : Definition) →
        (line_read names end ws ≡ Ok x) ↔ SpellsLine names (unplaced ws) x }
    ensures place { (names : List (List ℕ)) (end : ℕ) (ws : List Placed) (place : FaultPlace) → length ws ≤ 8192 →
        (line_read names end ws ≡ Err place) ↔ IsLineStop (IsDefinitionLine names) ws end place }
{}

/// A line that is to define something is refused exactly if some condition of a refusal holds for it, and the fault is
/// that of the first one that holds.
pub fn the_first_condition_of_a_definition_is_told()
    ensures { (limit : ℕ) (d : Definitions) (keyword : Keyword) (words : List (List ℕ)) (fault : DefinitionFault) →
        (defined limit d keyword words ≡ Err fault) ↔ IsDefinitionFault limit d keyword words fault }
{}

/// What is told of the lexemes of a line, of its words or of its code points is told of the first of which something is
/// told.
pub fn the_first_lexeme_is_told()
    ensures lexeme { (f : Placed → Option FaultPlace) (ws : List Placed) (place : FaultPlace) →
        (first_told f ws ≡ Some place) ↔ IsFirstTold f ws place }
    ensures word { (f : PlacedWord → Option FaultPlace) (words : List PlacedWord) (place : FaultPlace) →
        (first_told f words ≡ Some place) ↔ IsFirstTold f words place }
    ensures point { (f : LinePoint → Option FaultPlace) (points : List LinePoint) (place : FaultPlace) →
        (first_told f points ≡ Some place) ↔ IsFirstTold f points place }
{}

/// Each token of a pattern has a mark, and some mark is true exactly if the pattern goes past a limit.
pub fn tokens_past_limits_are_marked()
    ensures each { (left : ℕ) (p : Pattern) → length (marks 0 left p) ≡ length (tokens p) }
    ensures some { (left : ℕ) (p : Pattern) → list_any (λ mark. mark) (marks 0 left p) ≡ is_past_limits left p }
{}

/// A place is told of a line that defines something exactly where reading refuses it: for a pattern past a limit or a
/// definition too many, for a set, a type or a rule that isn't defined, for a code point that no label has.
pub fn places_are_told_of_definitions_that_are_refused()
    ensures { (d : Definitions) (keyword : Keyword) (end : ℕ) (ws : List Placed) (x : Definition) → AreDefinitions d →
        definition_read d.set_names keyword end ws ≡ Ok x → AreFaultsOf d x (faults_after d x ws) }
{}

/// The canonical text of a pattern, cut into tokens, is read as that pattern, where its sets are among those that are
/// named.
pub fn canonical_text_is_read_back()
    ensures { (names : List (List ℕ)) (p : Pattern) → AreNames names → HasItsSets (length names) p → HasPoints p →
        Is Whole p →
        pattern_of (tokens_of names (pattern_text names p)) ≡ Some p }
{}

/// What lines define has no fault: none is in what no line defines, and a line adds none.
pub fn what_lines_define_has_no_fault()
    ensures nothing { (properties : Properties) → AreDefinitions (nothing_defined properties) }
    ensures more { (d e : Definitions) (limit : ℕ) (keyword : Keyword) (words : List (List ℕ)) → AreDefinitions d →
        defined limit d keyword words ≡ Ok e → AreDefinitions e }
{}

/// Definitions without a fault are read back from their canonical lines, where the canonical text may have as many
/// bytes as these.
pub fn canonical_lines_are_read_back()
    ensures { (d : Definitions) (limit : ℕ) → AreDefinitions d → canonical_size d ≤ limit →
        with_lines limit (nothing_defined d.properties) (canonical_lines d) ≡ Ok d }
{}

/// Examples, which the definitions compute; one set is defined, with the name A.
pub fn definitions_compute_the_examples()
    ensures demand { demand_of (codes "A" ∷ []) (codes "(0030 /u+0031).*@A?") ≡
        Some (patterns.Then (patterns.Group (patterns.Either (patterns.Point 48) (patterns.Point 49)))
        (patterns.Then (patterns.Many patterns.Any) (patterns.Optional (patterns.Set 0)))) }
    ensures unknown { demand_of (codes "A" ∷ []) (codes "@B") ≡ Some (patterns.Set 1) }
    ensures no_item { demand_of (codes "A" ∷ []) (codes "()") ≡ None }
    ensures not_closed { demand_of (codes "A" ∷ []) (codes "(@A") ≡ None }
    ensures not_opened { demand_of (codes "A" ∷ []) (codes "@A)") ≡ None }
    ensures no_branch { demand_of (codes "A" ∷ []) (codes "@A /") ≡ None }
    ensures first_branch { demand_of (codes "A" ∷ []) (codes "/ @A") ≡ None }
    ensures start_many { demand_of (codes "A" ∷ []) (codes "^*") ≡ None }
    ensures two_signs { demand_of (codes "A" ∷ []) (codes "@A**") ≡ None }
    ensures no_atom { demand_of (codes "A" ∷ []) (codes "*") ≡ None }
    ensures one_word { demand_of (codes "A" ∷ []) (codes "@A@A") ≡ None }
    ensures stops { demand_of (codes "A" ∷ []) (codes "..") ≡ None }
    ensures no_name { demand_of (codes "A" ∷ []) (codes "@") ≡ None }
    ensures word { demand_of (codes "A" ∷ []) (codes "A") ≡ None }
    ensures place { demand_of (codes "A" ∷ []) (codes "@A _") ≡ None }
    ensures nothing { demand_of (codes "A" ∷ []) (codes "") ≡ None }
    ensures contexts { contexts_of (codes "A" ∷ []) (codes "^ _ / _ $") ≡
        Some (patterns.Either (patterns.Then patterns.Start patterns.Anchor)
        (patterns.Then patterns.Anchor patterns.End)) }
    ensures anchor_alone { contexts_of (codes "A" ∷ []) (codes "_") ≡ Some patterns.Anchor }
    ensures no_anchor { contexts_of (codes "A" ∷ []) (codes "@A") ≡ None }
    ensures two_anchors { contexts_of (codes "A" ∷ []) (codes "@A _ _") ≡ None }
    ensures branch_without { contexts_of (codes "A" ∷ []) (codes "_ / @A") ≡ None }
    ensures anchor_in_a_group { contexts_of (codes "A" ∷ []) (codes "(_)") ≡ None }
    ensures end_before { contexts_of (codes "A" ∷ []) (codes "$ _") ≡ None }
    ensures end_in_a_group { contexts_of (codes "A" ∷ []) (codes "(@A / $) _") ≡ None }
    ensures start_last { contexts_of (codes "A" ∷ []) (codes "_ ^") ≡ None }
    ensures no_context { contexts_of (codes "A" ∷ []) (codes "") ≡ None }
    ensures range { contexts_of (codes "A" ∷ []) (codes "0061..0062 _") ≡ None }
    ensures sequence { contexts_of (codes "A" ∷ []) (codes "0061-0062 _") ≡ None }
    ensures spans { spans_of (codes "0061 0063..0065 u+0066") ≡ Some (span 97 97 ∷ span 99 101 ∷ span 102 102 ∷ []) }
    ensures falling { spans_of (codes "0062 0061") ≡ None }
    ensures touching { spans_of (codes "0061..0063 0063") ≡ None }
    ensures turned { spans_of (codes "0063..0061") ≡ None }
    ensures set { spans_of (codes "@A") ≡ None }
    ensures two_digits { spans_of (codes "61") ≡ None }
    ensures no_span { spans_of (codes "") ≡ None }
    ensures open { spans_of (codes "0061..") ≡ None }
    ensures begun { spans_of (codes "..0061") ≡ None }
    ensures name { is_name (codes "Final_2") ≡ true }
    ensures digit_first { is_name (codes "9c") ≡ false }
    ensures hyphen { is_name (codes "C-D") ≡ false }
    ensures long_name { is_name (codes "nnnnnnnnnnnnnnnnnnnnnnnnnnnnnnnnn") ≡ false }
{}

/// Examples of lines, which the definitions compute; before them are defined the types t and v, the set A, the context
/// rule r and the whole-label rule w.
pub fn definitions_compute_the_lines()
    ensures variant_type { with_words 1000 some_defined (lexemes (codes "%type a")) ≡
        Ok (added some_defined (definition.VariantType (codes "a"))) }
    ensures capital { with_words 1000 some_defined (lexemes (codes "%type R")) ≡
        Ok (added some_defined (definition.VariantType (codes "R"))) }
    ensures whole { with_words 1000 some_defined (lexemes (codes "%whole U @A $")) ≡
        Ok (added some_defined (definition.Rule (codes "U") (patterns.Then (patterns.Set 0) patterns.End))) }
    ensures action { with_words 1000 some_defined (lexemes (codes "%action valid when w only t , blocked")) ≡
        Ok (added some_defined (definition.Action (action disposition.Valid
        (Some (record { kind = condition.When; rule = codes "w" }))
        (Some (trigger kind.Only (codes "t" ∷ codes "blocked" ∷ [])))))) }
    ensures catch_all { with_words 1000 some_defined (lexemes (codes "%action blocked")) ≡
        Ok (added some_defined (definition.Action (action disposition.Blocked None None))) }
    ensures rule { with_words 1000 some_defined (lexemes (codes "%rule U _ @A")) ≡
        Ok (added some_defined (definition.Rule (codes "U") (patterns.Then patterns.Anchor (patterns.Set 0)))) }
    ensures demand { with_words 1000 some_defined (lexemes (codes "%always @A .*")) ≡
        Ok (added some_defined (definition.Demand demand.Always
        (patterns.Then (patterns.Set 0) (patterns.Many patterns.Any)))) }
    ensures no_word { with_words 1000 some_defined (lexemes (codes "")) ≡ Err Syntax }
    ensures version { with_words 1000 some_defined (lexemes (codes "%version 3")) ≡ Err Syntax }
    ensures capital_keyword { with_words 1000 some_defined (lexemes (codes "%Set C 0061")) ≡ Err Syntax }
    ensures blank_in_keyword { with_words 1000 some_defined (lexemes (codes "% set C 0061")) ≡ Err Syntax }
    ensures no_name { with_words 1000 some_defined (lexemes (codes "%set")) ≡ Err Syntax }
    ensures no_span { with_words 1000 some_defined (lexemes (codes "%set C")) ≡ Err Syntax }
    ensures falling { with_words 1000 some_defined (lexemes (codes "%set C 0062 0061")) ≡ Err Syntax }
    ensures touching { with_words 1000 some_defined (lexemes (codes "%set C 0061..0063 0063")) ≡ Err Syntax }
    ensures turned { with_words 1000 some_defined (lexemes (codes "%set C 0063..0061")) ≡ Err Syntax }
    ensures set_in_set { with_words 1000 some_defined (lexemes (codes "%set C @A")) ≡ Err Syntax }
    ensures two_digits { with_words 1000 some_defined (lexemes (codes "%set C 61")) ≡ Err Syntax }
    ensures digit_first { with_words 1000 some_defined (lexemes (codes "%set 9c 0061")) ≡ Err Syntax }
    ensures hyphen { with_words 1000 some_defined (lexemes (codes "%set C-D 0061")) ≡ Err Syntax }
    ensures tag { with_words 1000 some_defined (lexemes (codes "%tag a")) ≡ Err Syntax }
    ensures no_type { with_words 1000 some_defined (lexemes (codes "%type")) ≡ Err Syntax }
    ensures two_types { with_words 1000 some_defined (lexemes (codes "%type a b")) ≡ Err Syntax }
    ensures long_name { with_words 1000 some_defined (lexemes (codes "%type nnnnnnnnnnnnnnnnnnnnnnnnnnnnnnnnn")) ≡
        Err Syntax }
    ensures whole_with_anchor { with_words 1000 some_defined (lexemes (codes "%whole s @A _")) ≡ Err Syntax }
    ensures whole_without_pattern { with_words 1000 some_defined (lexemes (codes "%whole s")) ≡ Err Syntax }
    ensures no_disposition { with_words 1000 some_defined (lexemes (codes "%action")) ≡ Err Syntax }
    ensures misspelt { with_words 1000 some_defined (lexemes (codes "%action block any blocked")) ≡ Err Syntax }
    ensures no_types { with_words 1000 some_defined (lexemes (codes "%action valid any")) ≡ Err Syntax }
    ensures comma_last { with_words 1000 some_defined (lexemes (codes "%action blocked any blocked,")) ≡ Err Syntax }
    ensures no_comma { with_words 1000 some_defined (lexemes (codes "%action blocked any blocked valid")) ≡
        Err Syntax }
    ensures type_twice { with_words 1000 some_defined (lexemes (codes "%action blocked any blocked,valid,blocked")) ≡
        Err Syntax }
    ensures condition_last { with_words 1000 some_defined (lexemes (codes "%action valid any valid when w")) ≡
        Err Syntax }
    ensures two_triggers { with_words 1000 some_defined (lexemes (codes "%action valid any valid all valid")) ≡
        Err Syntax }
    ensures no_rule { with_words 1000 some_defined (lexemes (codes "%action valid when")) ≡ Err Syntax }
    ensures two_conditions { with_words 1000 some_defined (lexemes (codes "%action valid when w unless w")) ≡
        Err Syntax }
    ensures no_anchor { with_words 1000 some_defined (lexemes (codes "%rule s @A")) ≡ Err Syntax }
    ensures two_anchors { with_words 1000 some_defined (lexemes (codes "%rule s @A _ _")) ≡ Err Syntax }
    ensures no_context { with_words 1000 some_defined (lexemes (codes "%rule s")) ≡ Err Syntax }
    ensures rule_range { with_words 1000 some_defined (lexemes (codes "%rule s 0061..0062 _")) ≡ Err Syntax }
    ensures rule_sequence { with_words 1000 some_defined (lexemes (codes "%rule s 0061-0062 _")) ≡ Err Syntax }
    ensures no_pattern { with_words 1000 some_defined (lexemes (codes "%never")) ≡ Err Syntax }
    ensures place { with_words 1000 some_defined (lexemes (codes "%never @A _")) ≡ Err Syntax }
    ensures word { with_words 1000 some_defined (lexemes (codes "%never A")) ≡ Err Syntax }
    ensures first_branch { with_words 1000 some_defined (lexemes (codes "%always / @A")) ≡ Err Syntax }
    ensures groups { with_words 1000 some_defined (lexemes (codes "%never (((((((((@A)))))))))")) ≡ Err Limit }
    ensures stars { with_words 1000 some_defined (lexemes (codes "%never ((@A* @A)* @A)*")) ≡ Err Limit }
    ensures limit_before_name { with_words 1000 some_defined (lexemes (codes "%never (((((((((@nope)))))))))")) ≡
        Err Limit }
    ensures form_before_limit { with_words 1000 some_defined (lexemes (codes "%never (((((((((@A))))))))) _")) ≡
        Err Syntax }
    ensures limit_before_class { with_words 1000 some_defined (lexemes (codes "%rule s (((((((((0041))))))))) _")) ≡
        Err Limit }
    ensures unknown { with_words 1000 some_defined (lexemes (codes "%rule s @B _")) ≡ Err NoSuchName }
    ensures no_set { with_words 1000 some_defined (lexemes (codes "%rule s @r _")) ≡ Err NoSuchName }
    ensures second { with_words 1000 some_defined (lexemes (codes "%never (@A @B)")) ≡ Err NoSuchName }
    ensures name_before_class { with_words 1000 some_defined (lexemes (codes "%never @nope 0041")) ≡ Err NoSuchName }
    ensures no_such_type { with_words 1000 some_defined (lexemes (codes "%action blocked any t,s")) ≡ Err NoSuchName }
    ensures no_such_rule { with_words 1000 some_defined (lexemes (codes "%action invalid when s")) ≡ Err NoSuchName }
    ensures context_rule { with_words 1000 some_defined (lexemes (codes "%action invalid when r")) ≡ Err NoSuchName }
    ensures type_as_rule { with_words 1000 some_defined (lexemes (codes "%action invalid when t")) ≡ Err NoSuchName }
    ensures rule_as_type { with_words 1000 some_defined (lexemes (codes "%action blocked any w")) ≡ Err NoSuchName }
    ensures name_before_same_name { with_words 1000 some_defined (lexemes (codes "%rule t @nope _")) ≡ Err NoSuchName }
    ensures class { with_words 1000 some_defined (lexemes (codes "%set C 0041")) ≡ Err BadClass }
    ensures class_before_same_name { with_words 1000 some_defined (lexemes (codes "%set t 0041")) ≡ Err BadClass }
    ensures same_type { with_words 1000 some_defined (lexemes (codes "%type t")) ≡ Err SameName }
    ensures predefined { with_words 1000 some_defined (lexemes (codes "%type blocked")) ≡ Err SameName }
    ensures predefined_as_set { with_words 1000 some_defined (lexemes (codes "%set valid 0061")) ≡ Err SameName }
    ensures set_as_type { with_words 1000 some_defined (lexemes (codes "%type A")) ≡ Err SameName }
    ensures rule_as_a_type { with_words 1000 some_defined (lexemes (codes "%type r")) ≡ Err SameName }
    ensures rule_again { with_words 1000 some_defined (lexemes (codes "%rule r _")) ≡ Err SameName }
    ensures whole_as_rule { with_words 1000 some_defined (lexemes (codes "%rule w _")) ≡ Err SameName }
    ensures set_as_rule { with_words 1000 some_defined (lexemes (codes "%rule A _")) ≡ Err SameName }
{}

/// Examples of entries and of ranges, which the definitions compute.
pub fn definitions_compute_the_entries()
    ensures entry { entry_in (lexemes (codes "0061-0065 | ! u+00e4")) ≡
        Some (record {
          mapped = written false (97 ∷ 101 ∷ []) None None ∷ written true (228 ∷ []) None None ∷ [];
          last = None;
        }) }
    ensures types { entry_in (lexemes (codes "56FD as r_simp|570B as trad:!0061")) ≡
        Some (record {
          mapped = written false (22269 ∷ []) (Some (codes "r_simp")) None ∷
              written false (22283 ∷ []) (Some (codes "trad")) None ∷ written true (97 ∷ []) None None ∷ [];
          last = None;
        }) }
    ensures range_with_type { entry_in (lexemes (codes "0061..0063 as low")) ≡
        Some (record { mapped = written false (97 ∷ []) (Some (codes "low")) None ∷ []; last = Some 99 }) }
    ensures words_as_names { entry_in (lexemes (codes "0061 as as when when")) ≡
        Some (record {
          mapped = written false (97 ∷ []) (Some (codes "as"))
              (Some (record { kind = condition.When; rule = codes "when" })) ∷ [];
          last = None;
        }) }
    ensures range { entry_in (lexemes (codes "!0062 .. 0063 unless r")) ≡
        Some (record {
          mapped = written true (98 ∷ []) None
              (Some (record { kind = condition.Unless; rule = codes "r" })) ∷ [];
          last = Some 99;
        }) }
    ensures mark_with_type { entry_in (lexemes (codes "!0061 as t")) ≡ None }
    ensures blocked_with_type { entry_in (lexemes (codes "0061|!0062 as t")) ≡ None }
    ensures two_types { entry_in (lexemes (codes "0061 as t,v")) ≡ None }
    ensures no_type { entry_in (lexemes (codes "0061 as")) ≡ None }
    ensures types_without_comma { entry_in (lexemes (codes "0061 as t v")) ≡ None }
    ensures type_last { entry_in (lexemes (codes "0061 when r as t")) ≡ None }
    ensures two_conditions { entry_in (lexemes (codes "0061 when r unless r")) ≡ None }
    ensures no_rule { entry_in (lexemes (codes "0061 when")) ≡ None }
    ensures no_variant { entry_in (lexemes (codes "0061 when r|")) ≡ None }
    ensures no_source { entry_in (lexemes (codes "when r")) ≡ None }
    ensures no_point { entry_in (lexemes (codes "0061-when")) ≡ None }
    ensures range_as_variant { entry_in (lexemes (codes "0061|0062..0063")) ≡ None }
    ensures range_of_sequence { entry_in (lexemes (codes "0061-0062..0063")) ≡ None }
    ensures two_marks { entry_in (lexemes (codes "!!0061")) ≡ None }
    ensures bar_last { entry_in (lexemes (codes "0061|")) ≡ None }
    ensures comma { entry_in (lexemes (codes "0061,0062")) ≡ None }
    ensures comment_last { entry_in (lexemes (codes "0061 # a")) ≡ None }
    ensures falling { entry_in (lexemes (codes "0063..0061")) ≡ None }
    ensures variant_of_range { entry_in (lexemes (codes "0061..0063|0064")) ≡ None }
    ensures colon_first { entry_in (lexemes (codes "0061:0062")) ≡ None }
    ensures two_bars { entry_in (lexemes (codes "0061|0062|0063")) ≡ None }
    ensures nothing { entry_in (lexemes (codes "")) ≡ None }
{}
