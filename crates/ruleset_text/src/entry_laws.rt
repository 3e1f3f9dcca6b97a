//! Laws of entries and ranges, each the contract of a function that does nothing.
ghost use Rattle.std.specs.Prelude.{◌≡◌, ◌↔◌, Option, Some, Ok, Err, ℕ, List};
ghost use Rattle.ruleset_text.specs.Entries.{EntryForm, Mapped};
ghost use Rattle.ruleset_text.specs.EntryStops.{IsEntryOf, IsEntryStop};
ghost use Rattle.ruleset_text.specs.EntryText.{IsForm, entry_text};
ghost use Rattle.ruleset_text.specs.EntryWords.{IsEntryLine};
ghost use Rattle.ruleset_text.specs.EntrySteps.{entry_in, entry_read};
ghost use Rattle.ruleset_text.specs.Lexemes.{lexemes};

use crate::entry_parts::EntryParts;
use crate::fault::FaultPlace;

/// What is read as an entry or a range is what the grammar says of the line, and nothing else; so a line spells one at
/// most. Any other line stops being one at the lexeme with which none goes on, or at its end.
pub fn reading_an_entry_is_exact()
    ensures exact { (form : EntryForm) (line : List ℕ) → (entry_in (lexemes line) ≡ Some form) ↔ IsEntryLine form line }
    ensures one { (form other : EntryForm) (line : List ℕ) → IsEntryLine form line → IsEntryLine other line →
        form ≡ other }
    ensures form { (parts : EntryParts) (line : List ℕ) (form : EntryForm) →
        (entry_read parts line ≡ Ok form) ↔ IsEntryOf parts line form }
    ensures stop { (parts : EntryParts) (line : List ℕ) (place : FaultPlace) →
        (entry_read parts line ≡ Err place) ↔ IsEntryStop parts line place }
{}

/// The canonical text of an entry or of a range spells it, and is read as it.
pub fn canonical_entries_are_read_back()
    ensures spelled { (form : EntryForm) → IsForm form.mapped form.last →
        IsEntryLine form (entry_text form.mapped form.last) }
    ensures read { (mapped : List Mapped) (last : Option ℕ) → IsForm mapped last →
        entry_in (lexemes (entry_text mapped last)) ≡ Some (record { mapped = mapped; last = last }) }
{}
