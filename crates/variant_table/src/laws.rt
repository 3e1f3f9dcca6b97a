//! Laws of the definitions, each the contract of a function that does nothing.
ghost use Rattle.std.specs.Prelude.{◌≡◌, ◌+◌, ◌↔◌, ◌⊎◌, ◌≤◌, ℕ, true, false, List, [], ◌∷◌, ◌++◌, length, Ok, Err};
ghost use Rattle.std.specs.Prelude.{None, Some, codes, is_some, not};
ghost use Rattle.std.specs.List.{list_any};
ghost use Rattle.std.specs.Str.Lines.{strip_carriage_return};
ghost use Rattle.idn_text.specs.Lines.{raw_lines, with_last_feed};
ghost use Rattle.variant_table.specs.Faults.{LineFault};
ghost use Rattle.variant_table.specs.Canonical.{canonical_line, table_text};
ghost use Rattle.ruleset_text.specs.Definitions.{Definitions, nothing_defined};
ghost use Rattle.idn_class.specs.declared.properties.Properties.{Properties};
ghost use Rattle.idn_class.specs.declared.properties.Properties.TheVariants.{Profile};
ghost use Rattle.ruleset_text.specs.Entries.{EntryForm};
ghost use Rattle.ruleset_text.specs.WellFormed.{AreDefinitions};
ghost use Rattle.variant_table.specs.Entries.{Entry, TableValue, IsOfVersion, entry_from, plain_variant, table_of};
ghost use Rattle.ruleset_text.specs.Lexemes.{lexemes};
ghost use Rattle.ruleset_text.specs.EntryFaults.{notes_of};
ghost use Rattle.ruleset_text.specs.EntrySteps.{entry_in};
ghost use Rattle.variant_table.specs.Conditions.{has_bad_class, has_repeat, is_too_large};
ghost use Rattle.variant_table.specs.Forms.{HasForm, entries_of, knows_all, written_out};
ghost use Rattle.variant_table.specs.LinePlaces.{IsSyntaxPlace, body_place, form_place};
ghost use Rattle.variant_table.specs.PlaceExamples.{ExamplesOfPlaces};
ghost use Rattle.variant_table.specs.declared.fault.TableFault.TheVariants as tables;
ghost use Rattle.ruleset_text.specs.declared.fault.FaultPlace.{FaultPlace};
ghost use Rattle.ruleset_text.specs.declared.fault.FaultPlace.TheVariants as places;
ghost use Rattle.variant_table.specs.Reading.{form_in, table_of_text};
ghost use Rattle.variant_table.specs.FaultyLines.{at_line, fault_place, faulty_line};
ghost use Rattle.variant_table.specs.Texts.{IsTextOf, IsFaultOf, IsFirstFaulty, LineSpells};
ghost use Rattle.variant_table.specs.declared.version.Version.{Version};
ghost use Rattle.variant_table.specs.Versions.{head_of, is_version_line, notation_of, size_of};
ghost use Rattle.variant_table.specs.inner.Examples.{conditional, entries_in, repeated, spelled, text_told};
ghost use Rattle.variant_table.specs.inner.Examples.{told, two_types, written, EachTold};
ghost use Rattle.label_patterns.specs.declared.condition.ConditionKind.TheVariants as kinds;
ghost use Rattle.variant_table.specs.Ranges.{point_entry, point_variant};
ghost use Rattle.variant_table.specs.declared.version.Notation.{Notation};
ghost use Rattle.variant_table.specs.declared.version.Notation.TheVariants as notations;
ghost use Rattle.variant_table.specs.declared.version.Version.TheVariants as versions;
ghost use Rattle.variant_table.specs.Differences.{AreDifferencesOf, differences_of};
ghost use Rattle.variant_table.specs.Gaps.{AreGapsOf, gaps_of};
ghost use Rattle.variant_table.specs.Limits.{line_limit, text_limit};
ghost use Rattle.variant_table.specs.Places.{entries_at};
ghost use Rattle.variant_table.specs.Faults as faults;
ghost use Rattle.variant_table.specs.WellFormed.{IsEntry, IsNamed, IsWellFormed, IsTable};
ghost use Rattle.variant_table.specs.WordsAgain.{BeginsOldSource, BeginsOldVariant, TellsFirst, TellsFirstName};

/// The form that is read from the lexemes of a line is the one that it has in the version, and where it has none, none
/// is read.
pub fn reading_a_line_is_exact()
    ensures { (version : Version) (line : List ℕ) (form : EntryForm) →
        (form_in version (lexemes line) ≡ Ok form) ↔ HasForm version line form }
{}

/// The place that is told of a line without a form, or that defines nothing, is that of the lexeme at which each form
/// of the version or each definition ends, or its end.
pub fn places_of_syntax_are_told()
    ensures { (definitions : Definitions) (number : ℕ) (version : Version) (line : List ℕ) (place : FaultPlace) →
        length line ≤ line_limit version →
        (body_place definitions (tables.Syntax number) version line ≡ Some place)
        ↔ IsSyntaxPlace definitions.set_names version line place }
{}

/// A place is told of an entry or of a range exactly where reading refuses it: past a limit, if it has too many
/// variants or too long a sequence; for a name, if a type or a rule that it names isn't defined; for a class, if some
/// code point of its entries may not be held; for a variant, if one is given again; and always for a source that is
/// given twice.
pub fn places_are_told_where_reading_refuses()
    ensures limit { (d : Definitions) (n : ℕ) (line : List ℕ) (form : EntryForm) →
        entry_in (lexemes line) ≡ Some form →
        is_some (form_place d (tables.Limit n) form (notes_of d form line)) ≡ list_any is_too_large (written_out form) }
    ensures name { (d : Definitions) (n : ℕ) (line : List ℕ) (form : EntryForm) →
        entry_in (lexemes line) ≡ Some form →
        is_some (form_place d (tables.NoSuchName n) form (notes_of d form line)) ≡ not (knows_all d form.mapped) }
    ensures class { (d : Definitions) (n : ℕ) (line : List ℕ) (form : EntryForm) →
        entry_in (lexemes line) ≡ Some form →
        is_some (form_place d (tables.BadClass n) form (notes_of d form line)) ≡
        list_any (has_bad_class d.properties) (entries_of d form) }
    ensures again { (d : Definitions) (n : ℕ) (line : List ℕ) (form : EntryForm) →
        entry_in (lexemes line) ≡ Some form →
        is_some (form_place d (tables.SameVariant n) form (notes_of d form line)) ≡
        list_any has_repeat (entries_of d form) }
    ensures source { (d : Definitions) (n : ℕ) (line : List ℕ) (form : EntryForm) →
        entry_in (lexemes line) ≡ Some form →
        is_some (form_place d (tables.SameSource n) form (notes_of d form line)) ≡ true }
{}

/// What a line gives again is told of the first of its words that does: a source that an earlier entry has, a variant
/// that is the source or one before it, and a name that is defined already, with the keyword for a word of the line.
pub fn the_first_word_given_again_is_told()
    ensures source { (properties : Properties) (notation : Notation) (text : List ℕ) (number : ℕ)
        (f : IsFirstFaulty properties notation text number faults.SameSource) →
        TellsFirst (BeginsOldSource f.table) places.Source f.table.version (strip_carriage_return f.line)
        (fault_place properties notation text (tables.SameSource number)) }
    ensures variant { (properties : Properties) (notation : Notation) (text : List ℕ) (number : ℕ)
        (f : IsFirstFaulty properties notation text number faults.SameVariant) →
        TellsFirst (BeginsOldVariant f.table.definitions) places.Variant f.table.version (strip_carriage_return f.line)
        (fault_place properties notation text (tables.SameVariant number)) }
    ensures name { (properties : Properties) (notation : Notation) (text : List ℕ) (number : ℕ)
        (f : IsFirstFaulty properties notation text number faults.SameName) →
        TellsFirstName f.table.definitions (strip_carriage_return f.line)
        (fault_place properties notation text (tables.SameName number)) }
{}

/// Examples of places, which the definitions compute.
pub fn definitions_compute_the_places()
    ensures { ExamplesOfPlaces }
{}

/// A line has the entries of one entry or range at most.
pub fn a_line_has_one_form()
    ensures form { (version : Version) (line : List ℕ) (a b : EntryForm) → HasForm version line a →
        HasForm version line b → a ≡ b }
    ensures entries { (version : Version) (definitions : Definitions) (line : List ℕ) (a b : List Entry) →
        LineSpells version definitions line a → LineSpells version definitions line b → a ≡ b }
{}

/// The function that reads a text tells exactly what the definitions say of it.
pub fn reading_is_exact()
    ensures table { (properties : Properties) (notation : Notation) (text : List ℕ) (table : TableValue) →
        (table_of_text properties notation text ≡ Ok table) ↔ IsTextOf properties notation text table }
    ensures fault { (properties : Properties) (notation : Notation) (text : List ℕ) (line : ℕ) (kind : LineFault) →
        (table_of_text properties notation text ≡ Err (line, kind)) ↔ IsFaultOf properties notation text line kind }
{}

/// The line that is told of a text with a fault is its first faulty one, with what the lines before it define.
pub fn the_first_faulty_line_is_told()
    ensures { (properties : Properties) (notation : Notation) (text : List ℕ) (number : ℕ) (fault : LineFault)
        (f : IsFirstFaulty properties notation text number fault) →
        faulty_line properties notation text
        ≡ Some (at_line (size_of (head_of notation (raw_lines text)) + size_of f.before) f.table f.line) }
{}

/// In each notation each text has exactly one table, or exactly one fault: a line and what is told of it.
pub fn a_text_has_one_table_or_one_fault()
    ensures some { (properties : Properties) (notation : Notation) (text : List ℕ) →
        ((table : TableValue) × IsTextOf properties notation text table)
        ⊎ ((line : ℕ) × (kind : LineFault) × IsFaultOf properties notation text line kind) }
    ensures not_both { (properties : Properties) (notation : Notation) (text : List ℕ) (table : TableValue) (line : ℕ)
        (kind : LineFault) →
        IsTextOf properties notation text table → IsFaultOf properties notation text line kind → ⊥ }
    ensures one_table { (properties : Properties) (notation : Notation) (text : List ℕ) (a b : TableValue) →
        IsTextOf properties notation text a → IsTextOf properties notation text b → a ≡ b }
    ensures one_fault { (properties : Properties) (notation : Notation) (text : List ℕ) (m n : ℕ) (f g : LineFault) →
        IsFaultOf properties notation text m f → IsFaultOf properties notation text n g → (m ≡ n) × (f ≡ g) }
{}

/// No text is both a table and a ruleset.
pub fn no_text_is_a_table_and_a_ruleset()
    ensures { (properties other : Properties) (text : List ℕ) (a b : TableValue) →
        IsTextOf properties notations.Table text a → IsTextOf other notations.Ruleset text b → ⊥ }
{}

/// A table of version 2 is a ruleset of the same entries once its first line says so, with a carriage return or without
/// one.
pub fn a_table_of_version_2_is_a_ruleset()
    ensures { (properties : Properties) (text other first second : List ℕ) (lines : List (List ℕ))
        (entries : List Entry) →
        raw_lines text ≡ first ∷ lines → raw_lines other ≡ second ∷ lines →
        is_version_line notations.Table first ≡ true → is_version_line notations.Ruleset second ≡ true →
        IsTextOf properties notations.Table text (table_of versions.Two (nothing_defined properties) entries) →
        IsTextOf properties notations.Ruleset other (table_of versions.Three (nothing_defined properties) entries) }
{}

/// The canonical text of a well-formed table spells that table, in the notation of its version.
pub fn canonical_text_is_read_back()
    ensures { (table : TableValue) → IsTable table →
        IsTextOf table.definitions.properties (notation_of table.version)
        (table_text table.version table.definitions table.entries) table }
{}

/// The canonical text of a table of version 1 is at most as long as any text that spells the table, a
/// line feed added where the last line has none. In each version it is within the limit of a text, that of a ruleset
/// within 8 MiB. A canonical line has at most 951 bytes in version 1, 967 in version 2, and 2,243 in version 3.
pub fn canonical_text_is_never_longer()
    ensures text { (properties : Properties) (notation : Notation) (text : List ℕ) (table : TableValue) →
        IsTextOf properties notation text table → table.version ≡ versions.One →
        length (table_text table.version table.definitions table.entries) ≤ size_of (raw_lines text) }
    ensures limit { (table : TableValue) → IsTable table →
        length (table_text table.version table.definitions table.entries) ≤ text_limit table.version }
    ensures ruleset { (properties : Properties) (text : List ℕ) (table : TableValue) →
        IsTextOf properties notations.Ruleset text table →
        length (table_text table.version table.definitions table.entries) ≤ 8388608 }
    ensures line { (d : Definitions) (e : Entry) → IsEntry e → IsOfVersion versions.One e →
        length (canonical_line d e) ≤ 951 }
    ensures blocked { (d : Definitions) (e : Entry) → IsEntry e → IsOfVersion versions.Two e →
        length (canonical_line d e) ≤ 967 }
    ensures named { (d : Definitions) (e : Entry) → AreDefinitions d → IsEntry e → IsNamed d e →
        length (canonical_line d e) ≤ 2243 }
    ensures feeds { (text : List ℕ) → size_of (raw_lines text) ≡ length (with_last_feed text) }
{}

/// The list that is computed for a well-formed table has its gaps, each once and in order.
pub fn gaps_of_are_the_gaps()
    ensures { (table : List Entry) → IsWellFormed table → AreGapsOf table (gaps_of table) }
{}

/// The list that is computed for a well-formed table has its differences, each once and in order.
pub fn differences_of_are_the_differences()
    ensures { (table : List Entry) → IsWellFormed table → AreDifferencesOf table (differences_of table) }
{}

/// Examples of version 1, which the definitions compute.
pub fn definitions_compute_the_examples()
    ensures read { entries_in versions.One (nothing_defined Profile) (lexemes (codes "u+0061 | 0062 : 0063-0064")) ≡
        Ok (entry_from (point_variant None 97 ∷ point_variant None 98 ∷ plain_variant None (99 ∷ 100 ∷ []) ∷ []) ∷
        []) }
    ensures written { table_text versions.One (nothing_defined Profile)
        (entry_from (point_variant None 97 ∷ point_variant None 98 ∷ plain_variant None (99 ∷ 100 ∷ []) ∷ []) ∷
        []) ≡ codes "0061|0062:0063-0064" ++ 10 ∷ [] }
    ensures six { canonical_line (nothing_defined Profile)
        (entry_from (plain_variant None (0x10FFFF ∷ 0x4E2D ∷ []) ∷ [])) ≡ codes "10FFFF-4E2D" }
    ensures syntax { table_of_text Profile notations.Table (codes "0061|") ≡ Err (1, faults.Syntax) }
    ensures range { table_of_text Profile notations.Table (codes "0061..0063") ≡ Err (1, faults.Syntax) }
    ensures blocked { table_of_text Profile notations.Table (codes "0061|!0062") ≡ Err (1, faults.Syntax) }
    ensures version { table_of_text Profile notations.Table (codes "%version 3") ≡ Err (1, faults.Syntax) }
    ensures later { table_of_text Profile notations.Table (10 ∷ codes "%version 2") ≡ Err (2, faults.Syntax) }
    ensures limit { table_of_text Profile notations.Table (codes "0041-0041-0041-0041-0041-0041-0041-0041-0041") ≡
        Err (1, faults.Limit) }
    ensures bad_class { table_of_text Profile notations.Table (codes "0041") ≡ Err (1, faults.BadClass) }
    ensures same_variant { table_of_text Profile notations.Table (codes "0061|0061") ≡ Err (1, faults.SameVariant) }
    ensures same_source { table_of_text Profile notations.Table (codes "0061" ++ 10 ∷ codes "0061") ≡
        Err (2, faults.SameSource) }
    ensures gaps { gaps_of (entry_from (point_variant None 97 ∷ plain_variant None (97 ∷ 97 ∷ []) ∷ []) ∷ []) ≡
        (97 ∷ 97 ∷ [], 97 ∷ []) ∷ [] }
    ensures chain { gaps_of (entry_from (point_variant None 97 ∷ point_variant None 98 ∷ []) ∷
        entry_from (point_variant None 98 ∷ point_variant (Some 1) 97 ∷ point_variant None 99 ∷ []) ∷
        entry_from (point_variant None 99 ∷ point_variant None 98 ∷ []) ∷ [])
        ≡ (97 ∷ [], 99 ∷ []) ∷ (99 ∷ [], 97 ∷ []) ∷ [] }
    ensures places { entries_at (point_entry None 115 ∷
        entry_from (plain_variant None (115 ∷ 115 ∷ []) ∷ point_variant None 0xDF ∷ []) ∷ []) (115 ∷ 115 ∷ 115 ∷ []) 2
        ≡ point_entry None 115 ∷ [] }
{}

/// Examples of types and conditions: what is refused, in what order faults are told, what is read and how it is
/// written.
pub fn definitions_compute_the_examples_of_names()
    ensures syntax { EachTold faults.Syntax
        (codes "!0061 as t" ∷ codes "0061|!0062 as t" ∷ codes "0061 as t,v" ∷ codes "0061 as" ∷ codes "0061 as t v" ∷
        codes "0061 when r as t" ∷ codes "0061 when r unless r" ∷ codes "0061 when" ∷ codes "0061 when r|" ∷
        codes "when r" ∷ codes "0061-when" ∷ []) }
    ensures names { EachTold faults.NoSuchName
        (codes "0061 when s" ∷ codes "0061 when A" ∷ codes "0061 as bloked" ∷ codes "0061 as r" ∷
        codes "0061|0062 unless s" ∷ codes "0061 as t|0062 as u" ∷ codes "0061..0063 when s" ∷ []) }
    ensures before_limit { told (codes "0041-0041-0041-0041-0041-0041-0041-0041-0041 when nope" ∷ []) ≡
        Err (2, faults.Limit) }
    ensures before_class { told (codes "0041 when nope" ∷ []) ≡ Err (2, faults.NoSuchName) }
    ensures later { told (codes "0061 when r" ∷ codes "%rule r _" ∷ []) ≡ Err (2, faults.NoSuchName) }
    ensures conditions { spelled (codes "0061|0063 when r:0063 when s:!0063 unless r")
        ≡ Ok (entry_from (point_variant None 0x61 ∷ conditional None 0x63 (kinds.When, 0) ∷
        conditional None 0x63 (kinds.When, 1) ∷ conditional (Some 1) 0x63 (kinds.Unless, 0) ∷ []) ∷ []) }
    ensures range { spelled (codes "!0062..0063 when r") ≡
        Ok (entry_from (conditional (Some 0) 0x62 (kinds.When, 0) ∷ []) ∷
        entry_from (conditional (Some 0) 0x63 (kinds.When, 0) ∷ []) ∷ []) }
    ensures typed_range { spelled (codes "0061..0062 as trad") ≡
        Ok (point_entry (Some 6) 0x61 ∷ point_entry (Some 6) 0x62 ∷ []) }
    ensures predefined { spelled (codes "0061 as valid|0062 as invalid:0063 as activated:0064 as allocatable") ≡
        Ok (entry_from (point_variant (Some 4) 0x61 ∷ point_variant (Some 0) 0x62 ∷ point_variant (Some 3) 0x63 ∷
        point_variant (Some 2) 0x64 ∷ []) ∷ []) }
    ensures marks_are_types { spelled (codes "!0061|!0062") ≡ spelled (codes "0061 as invalid|0062 as blocked") }
    ensures apart { repeated (codes "0061|0063 when r:0063 when s:!0063 unless r") ≡ Ok false }
    ensures one_without { repeated (codes "0061|0063 when r:0063") ≡ Ok true }
    ensures the_other { repeated (codes "0061|0063:!0063 unless r") ≡ Ok true }
    ensures same { repeated (codes "0061|0063 when r:!0063 when r") ≡ Ok true }
    ensures other_types { repeated (codes "0061|0062 as simp:0062 as trad") ≡ Ok true }
    ensures the_source { repeated (codes "0061 when s|0061 when r") ≡ Ok true }
    ensures written { written (codes "56FD  as simp | 570b as trad  when s") ≡
        Ok (codes "56FD as simp|570B as trad when s" ∷ []) }
    ensures written_with_marks { written (codes "0430 as invalid | 0061 as blocked:0062 as invalid") ≡
        Ok (codes "!0430|!0061:0062 as invalid" ∷ []) }
    ensures written_without_marks { written (codes "0061 as blocked|0430 as valid") ≡
        Ok (codes "0061 as blocked|0430 as valid" ∷ []) }
    ensures written_out { written (codes "!0061..0062 unless r") ≡
        Ok (codes "!0061 unless r" ∷ codes "!0062 unless r" ∷ []) }
{}

/// Examples of version 2.
pub fn definitions_compute_the_examples_of_version_2()
    ensures table { table_of_text Profile notations.Table
        (codes "%version 2" ++ 10 ∷ codes "0061..0063" ++ 10 ∷ codes "0078|!0079:007A") ≡ Ok (record {
          version = versions.Two;
          definitions = nothing_defined Profile;
          entries = point_entry None 0x61 ∷ point_entry None 0x62 ∷ point_entry None 0x63 ∷
              entry_from (point_variant None 0x78 ∷ point_variant (Some 1) 0x79 ∷ point_variant None 0x7A ∷ []) ∷ [];
        }) }
    ensures written { table_text versions.Two (nothing_defined Profile)
        (point_entry None 0x61 ∷ point_entry None 0x62 ∷ point_entry None 0x63 ∷
        entry_from (point_variant None 0x78 ∷ point_variant (Some 1) 0x79 ∷ point_variant None 0x7A ∷ []) ∷ [])
        ≡ codes "%version 2" ++ 10 ∷ codes "0061" ++ 10 ∷ codes "0062" ++ 10 ∷ codes "0063" ++ 10 ∷
        codes "0078|!0079:007A" ++ 10 ∷ [] }
    ensures empty { table_of_text Profile notations.Table (codes "%version 2" ++ 13 ∷ []) ≡
        Ok (table_of versions.Two (nothing_defined Profile) []) }
    ensures falling { table_of_text Profile notations.Table (codes "%version 2" ++ 10 ∷ codes "0063..0061") ≡
        Err (2, faults.Syntax) }
    ensures marked_source { table_of_text Profile notations.Table (codes "%version 2" ++ 10 ∷ codes "!0061|0062") ≡
        Err (2, faults.Syntax) }
    ensures variant_range { table_of_text Profile notations.Table
        (codes "%version 2" ++ 10 ∷ codes "0061|0062..0063") ≡ Err (2, faults.Syntax) }
    ensures again { table_of_text Profile notations.Table (codes "%version 2" ++ 10 ∷ codes "%version 2") ≡
        Err (2, faults.Syntax) }
    ensures stops { table_of_text Profile notations.Table (codes "%version 2" ++ 10 ∷ codes "0061...0063") ≡
        Err (2, faults.Syntax) }
    ensures stops_apart { table_of_text Profile notations.Table (codes "%version 2" ++ 10 ∷ codes "0061. .0063") ≡
        Err (2, faults.Syntax) }
    ensures same_variant { table_of_text Profile notations.Table (codes "%version 2" ++ 10 ∷ codes "0061|0062:!0062") ≡
        Err (2, faults.SameVariant) }
    ensures bad_class { table_of_text Profile notations.Table (codes "%version 2" ++ 10 ∷ codes "005A..0061") ≡
        Err (2, faults.BadClass) }
    ensures same_source { table_of_text Profile notations.Table
        (codes "%version 2" ++ 10 ∷ codes "0062" ++ 10 ∷ codes "0061..0063") ≡ Err (3, faults.SameSource) }
    ensures limit { table_of_text Profile notations.Table (codes "%version 2" ++ 10 ∷ codes "4E00..5E00") ≡
        Err (2, faults.Limit) }
{}

/// Examples of rulesets: which first line they have, what they have of version 2 and what it has not, what they define,
/// and their gaps.
pub fn definitions_compute_the_examples_of_rulesets()
    ensures empty { table_of_text Profile notations.Ruleset [] ≡ Err (1, faults.Syntax) }
    ensures unnamed { table_of_text Profile notations.Ruleset (codes "0061") ≡ Err (1, faults.Syntax) }
    ensures version_2 { table_of_text Profile notations.Ruleset (codes "%version 2") ≡ Err (1, faults.Syntax) }
    ensures version_4 { table_of_text Profile notations.Ruleset (codes "%version 4") ≡ Err (1, faults.Syntax) }
    ensures commented { table_of_text Profile notations.Ruleset (codes "# a" ++ 10 ∷ codes "%version 3") ≡
        Err (1, faults.Syntax) }
    ensures alone { table_of_text Profile notations.Ruleset (codes "%version 3") ≡
        Ok (table_of versions.Three (nothing_defined Profile) []) }
    ensures again { table_of_text Profile notations.Ruleset (codes "%version 3" ++ 10 ∷ codes "%version 3") ≡
        Err (2, faults.Syntax) }
    ensures falling { table_of_text Profile notations.Ruleset (codes "%version 3" ++ 10 ∷ codes "0063..0061") ≡
        Err (2, faults.Syntax) }
    ensures defined { table_of_text Profile notations.Ruleset
        (codes "%version 3" ++ 10 ∷ codes "%type t" ++ 13 ∷ 10 ∷ codes " %type" ++ 9 ∷ codes "v ") ≡
        Ok (table_of versions.Three two_types []) }
    ensures defined_written { table_text versions.Three two_types (point_entry None 0x61 ∷ []) ≡
        codes "%version 3" ++ 10 ∷ codes "%type t" ++ 10 ∷ codes "%type v" ++ 10 ∷ codes "0061" ++ 10 ∷ [] }
    ensures defined_in_version_2 { table_of_text Profile notations.Table (codes "%version 2" ++ 10 ∷ codes "%type t") ≡
        Err (2, faults.Syntax) }
    ensures same_name { table_of_text Profile notations.Ruleset
        (codes "%version 3" ++ 10 ∷ codes "%type t" ++ 10 ∷ codes "%rule t _") ≡ Err (3, faults.SameName) }
    ensures no_such_name { table_of_text Profile notations.Ruleset (codes "%version 3" ++ 10 ∷ codes "%rule r @A _") ≡
        Err (2, faults.NoSuchName) }
    ensures no_name { table_of_text Profile notations.Ruleset (codes "%version 3" ++ 10 ∷ codes "%type") ≡
        Err (2, faults.Syntax) }
    ensures stars { table_of_text Profile notations.Ruleset (codes "%version 3" ++ 10 ∷ codes "%rule r ((.*)*)* _") ≡
        Err (2, faults.Limit) }
    ensures demand { text_told (told (codes "%never  ^ ." ∷ codes "%always .$" ∷ [])) ≡
        Some (codes "%version 3" ++ 10 ∷ codes "%never ^ ." ++ 10 ∷ codes "%always . $" ++ 10 ∷ []) }
    ensures set { table_of_text Profile notations.Ruleset (codes "%version 3" ++ 10 ∷ codes "% set C 0061") ≡
        Err (2, faults.Syntax) }
    ensures later { table_of_text Profile notations.Table (codes "%version 2" ++ 10 ∷ codes "%version 3") ≡
        Err (2, faults.Syntax) }
    ensures invalid { entries_in versions.Three (nothing_defined Profile) (lexemes (codes "! 0061|!0062")) ≡
        Ok (entry_from (point_variant (Some 0) 0x61 ∷ point_variant (Some 1) 0x62 ∷ []) ∷ []) }
    ensures invalid_range { entries_in versions.Three (nothing_defined Profile) (lexemes (codes "!0062..0063")) ≡
        Ok (point_entry (Some 0) 0x62 ∷ point_entry (Some 0) 0x63 ∷ []) }
    ensures invalid_in_version_2 { form_in versions.Two (lexemes (codes "!0062..0063")) ≡ Err faults.Syntax }
    ensures two_marks { table_of_text Profile notations.Ruleset (codes "%version 3" ++ 10 ∷ codes "!!0061") ≡
        Err (2, faults.Syntax) }
    ensures no_source { table_of_text Profile notations.Ruleset (codes "%version 3" ++ 10 ∷ codes "!|0061") ≡
        Err (2, faults.Syntax) }
    ensures limit { table_of_text Profile notations.Ruleset
        (codes "%version 3" ++ 10 ∷ codes "0041-0041-0041-0041-0041-0041-0041-0041-0041") ≡ Err (2, faults.Limit) }
    ensures written { table_text versions.Three (nothing_defined Profile)
        (point_entry None 0x61 ∷ entry_from (point_variant None 0x78 ∷ point_variant (Some 1) 0x79 ∷ []) ∷ [])
        ≡ codes "%version 3" ++ 10 ∷ codes "0061" ++ 10 ∷ codes "0078|!0079" ++ 10 ∷ [] }
    ensures marked { table_text versions.Three (nothing_defined Profile)
        (entry_from (plain_variant (Some 0) (0x61 ∷ 0x62 ∷ []) ∷ point_variant (Some 1) 0x63 ∷ []) ∷ [])
        ≡ codes "%version 3" ++ 10 ∷ codes "!0061-0062|!0063" ++ 10 ∷ [] }
    ensures gaps { gaps_of
        (entry_from (point_variant None 0x61 ∷ point_variant (Some 1) 0x430 ∷ []) ∷ point_entry None 0x62 ∷
        entry_from (point_variant (Some 0) 0x430 ∷ point_variant (Some 1) 0x61 ∷ []) ∷ []) ≡ [] }
    ensures without_source { gaps_of
        (entry_from (point_variant None 0x61 ∷ point_variant (Some 1) 0x430 ∷ []) ∷ point_entry None 0x62 ∷ []) ≡
        (0x430 ∷ [], 0x61 ∷ []) ∷ [] }
    ensures conditional_differences { differences_of
        (entry_from (point_variant None 0x3C3 ∷ conditional None 0x3C2 (kinds.When, 0) ∷ []) ∷
        entry_from (point_variant None 0x3C2 ∷ point_variant None 0x3C3 ∷ []) ∷ [])
        ≡ (0x3C2 ∷ [], 0x3C3 ∷ []) ∷ [] }
    ensures conditional_gaps { gaps_of
        (entry_from (point_variant None 0x3C3 ∷ conditional None 0x3C2 (kinds.When, 0) ∷ []) ∷
        entry_from (point_variant None 0x3C2 ∷ point_variant None 0x3C3 ∷ []) ∷ []) ≡ [] }
    ensures without_reverse { gaps_of
        (entry_from (point_variant None 0x647 ∷ conditional (Some 1) 0x629 (kinds.Unless, 0) ∷
        conditional None 0x629 (kinds.When, 0) ∷ []) ∷ point_entry None 0x629 ∷ []) ≡
        (0x629 ∷ [], 0x647 ∷ []) ∷ [] }
    ensures typed_gaps { gaps_of (entry_from (point_variant (Some 5) 0x56FD ∷ point_variant (Some 6) 0x570B ∷ []) ∷
        entry_from (point_variant (Some 6) 0x570B ∷ point_variant (Some 5) 0x56FD ∷ []) ∷ []) ≡ [] }
    ensures condition_in_version_2 { table_of_text Profile notations.Table
        (codes "%version 2" ++ 10 ∷ codes "0061 when r") ≡ Err (2, faults.Syntax) }
    ensures type_in_version_2 { table_of_text Profile notations.Table (codes "%version 2" ++ 10 ∷ codes "0061 as t") ≡
        Err (2, faults.Syntax) }
    ensures demand_in_version_2 { table_of_text Profile notations.Table
        (codes "%version 2" ++ 10 ∷ codes "%never 0061") ≡ Err (2, faults.Syntax) }
    ensures capital { table_of_text Profile notations.Ruleset (codes "%version 3" ++ 10 ∷ codes "%Set C 0061") ≡
        Err (2, faults.Syntax) }
{}
