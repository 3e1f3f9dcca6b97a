//! Labels that are made of sources.
ghost use Rattle.std.specs.Prelude.{◌≡◌, ◌↔◌, ◌<◌, ◌≤◌, ℕ, length, map, take, IsTrue, None};
ghost use Rattle.std.specs.List.{AllByRecursion};
ghost use Rattle.label_patterns.specs.Places.{Has};
ghost use Rattle.ruleset_text.specs.ActionForms.{action};
ghost use Rattle.variant_table.specs.WellFormed.{IsWellFormed};
ghost use Rattle.valid_labels.specs.Furthest.{furthest as furthest_place};
ghost use Rattle.variant_table.specs.Entries.{sequences_in};
ghost use Rattle.variant_table.specs.Segmentations.{HasNoConditions, IsMadeOfSources};
ghost use Rattle.valid_labels.specs.Validity.{AsksNothing, AsksTypesAlone, HasVariantsOfSources, HasSourcesOfPoints};

use crate::cutting::{NO_STEPS, reached};
use crate::source_predicate::AnySource;
use label_patterns::has;
use ruleset_text::NamedAction;
use variant_table::{Entry, Table};

/// Whether a label of at most 63 code points is made of sources of a table. Where they may stand is not asked.
pub fn is_made_of_sources(table: &Table, label: &[u32]) -> bool
    requires { length label.now ≤ 63 }
    ensures { IsTrue result ↔ IsMadeOfSources table.now label.now }
{
    has(source_places(table, label), label.len())
}

/// How many of the first code points of a label of at most 63 are made of sources, at the most. Where the label isn't
/// made of sources, no source leads over the code point after them.
pub fn furthest(table: &Table, label: &[u32]) -> usize
    requires { length label.now ≤ 63 }
    ensures { result ≡ furthest_place table.now label.now }
{
    last_place(source_places(table, label), label.len())
}

/// The places up to which a label is made of sources.
fn source_places(table: &Table, label: &[u32]) -> u64
    requires { length label.now ≤ 63 }
    ensures well_formed { IsWellFormed table.now.entries }
    ensures start { Has result 0 }
    ensures made { (j : ℕ) → j ≤ length label.now → (Has result j ↔ IsMadeOfSources table.now (take j label.now)) }
{
    // Only for the proof: the contract of `len` says that a table is well-formed.
    let _entries = table.len();
    reached(table, label, &AnySource, NO_STEPS)
}

/// The greatest of the places up to `len` that are in a set. Place 0 must be.
pub(crate) fn last_place(places: u64, len: usize) -> usize
    requires start { Has places 0 }
    ensures within { result ≤ len }
    ensures member { Has places result }
    ensures greatest { (p : ℕ) → result < p → p ≤ len → Has places p → ⊥ }
{
    let mut place = len;
    while place > 0 && !has(places, place) {
        place -= 1;
    }
    place
}

/// Whether a table asks nothing of its labels: no source has a condition or a type, there is no demand, each action
/// asks for types alone, and it is of version 1 or 2, or each source is one code point and each variant is made of
/// sources. Then each label that is made of sources may be asked about, and each label that it spells is valid.
pub fn asks_nothing(table: &Table) -> bool
    ensures { IsTrue result ↔ AsksNothing table.now }
{
    table.definitions().demands().is_empty()
        && ask_types_alone(table.definitions().actions())
        && has_plain_sources(table)
        && (table.version() != 3 || has_single_sources(table))
}

/// Whether each of these actions asks for types, and for no rule.
fn ask_types_alone(actions: &[NamedAction]) -> bool
    ensures { IsTrue result ↔ AllByRecursion AsksTypesAlone (map action actions.now) }
{
    for action in actions {
        if !asks_types_alone(action) {
            return false;
        }
    }
    true
}

/// Whether an action asks for types, and for no rule.
fn asks_types_alone(named: &NamedAction) -> bool
    ensures { IsTrue result ↔ AsksTypesAlone (action named.now) }
{
    named.condition.is_none() && named.trigger.is_some()
}

/// Whether no source has a condition or a type.
fn has_plain_sources(table: &Table) -> bool
    ensures { IsTrue result ↔ (HasNoConditions table.now × AllByRecursion (λ e. e.type ≡ None) table.now.entries) }
{
    for number in 0..table.len() {
        let entry = table.entry(number);
        if entry.condition(0).is_some() || entry.variant_type(0).is_some() {
            return false;
        }
    }
    true
}

/// Whether each source is one code point, and each variant is made of sources.
fn has_single_sources(table: &Table) -> bool
    ensures { IsTrue result ↔ (HasSourcesOfPoints table.now × HasVariantsOfSources table.now) }
{
    for number in 0..table.len() {
        let entry = table.entry(number);
        if entry.source().len() != 1 || !has_variants_of_sources(table, &entry) {
            return false;
        }
    }
    true
}

/// Whether each variant of an entry is made of sources.
fn has_variants_of_sources(table: &Table, entry: &Entry<'_>) -> bool
    requires short { AllByRecursion (λ s. length s ≤ 63) (sequences_in entry.now.variants) }
    ensures { IsTrue result ↔ AllByRecursion (IsMadeOfSources table.now) (sequences_in entry.now.variants) }
{
    // The source is the first of the replacements.
    for number in 0..entry.replacements() - 1 {
        if !is_made_of_sources(table, entry.replacement(number + 1)) {
            return false;
        }
    }
    true
}
