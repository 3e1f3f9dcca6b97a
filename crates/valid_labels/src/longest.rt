//! The longest-first cut of a label (RFC 7940, section 8.1).
ghost use Rattle.std.specs.Prelude.{◌≡◌, ◌↔◌, ◌+◌, ◌<◌, ◌≤◌, ℕ, length, IsTrue, MatchOption};
ghost use Rattle.variant_table.specs.Segmentations.{seen_under};
ghost use Rattle.valid_labels.specs.Eligible.{IsCutEnd, LongestLeads};
ghost use Rattle.valid_labels.specs.Tests.{holds_in, longest_at as longest_at_place};
ghost use Rattle.valid_labels.specs.inner.Steps.{AreSteps};

use crate::cutting::SingleSteps;
use crate::source_predicate::holds;
use label_patterns::{SeenLabel, has};
use variant_table::{Entry, Table};

/// The place at which the longest-first cut of a label ends. It is known of some places whether one code point leads on
/// from there, and that nothing else does.
pub(crate) fn cut_end(
    table: &Table,
    seen: &SeenLabel<'_>,
    label: &[u32],
    steps: SingleSteps,
) -> usize
    requires short { length label.now ≤ 63 }
    requires seen { seen.now ≡ seen_under table.now label.now }
    requires steps { AreSteps (LongestLeads table.now label.now) (length label.now) steps }
    ensures within { result ≤ length label.now }
    ensures end { IsCutEnd table.now label.now result }
{
    // Only for the proof: the contract of `len` says that a table is well-formed.
    let _entries = table.len();
    let mut place = steps.run();
    for _ in place..label.len() {
        match next_place(table, seen, label, place, steps) {
            Some(next) => place = next,
            None => return place,
        }
    }
    place
}

/// The place at which the longest source ends that stands at this one.
fn next_place(
    table: &Table,
    seen: &SeenLabel<'_>,
    label: &[u32],
    place: usize,
    steps: SingleSteps,
) -> Option<usize>
    requires short { length label.now ≤ 63 }
    requires place { place ≤ length label.now }
    requires seen { seen.now ≡ seen_under table.now label.now }
    requires steps { AreSteps (LongestLeads table.now label.now) (length label.now) steps }
    ensures next { MatchOption result ((j : ℕ) → ¬ LongestLeads table.now label.now place j)
        (LongestLeads table.now label.now place) }
    ensures on { MatchOption result (Unit {0}) (λ j. (place < j) × (j ≤ length label.now)) }
{
    if has(steps.known, place) {
        let next = place + 1;
        return if has(steps.leading, place) {
            Some(next)
        } else {
            None
        };
    }
    // Only for the proof: the contract of `len` says that a table is well-formed.
    let _entries = table.len();
    let entry = longest_at(table, seen, label, place)?;
    Some(place + entry.source().len())
}

/// The entry with the longest source that stands at a place.
pub(crate) fn longest_at<'a>(
    table: &'a Table,
    seen: &SeenLabel<'_>,
    label: &'a [u32],
    place: usize,
) -> Option<Entry<'a>>
    requires short { length label.now ≤ 63 }
    requires place { place ≤ length label.now }
    requires seen { seen.now ≡ seen_under table.now label.now }
    ensures { result ≡ longest_at_place table.now label.now place }
{
    let mut longest = None;
    for entry in table.entries_at(label, place) {
        if stands(table, seen, label, place, &entry) {
            longest = Some(entry);
        }
    }
    longest
}

/// Whether the condition of a source that is at a place holds there.
pub(crate) fn stands(
    table: &Table,
    seen: &SeenLabel<'_>,
    label: &[u32],
    place: usize,
    entry: &Entry<'_>,
) -> bool
    requires short { length label.now ≤ 63 }
    requires seen { seen.now ≡ seen_under table.now label.now }
    requires inside { place + length entry.now.source ≤ length label.now }
    ensures { result ≡ holds_in table.now label.now entry.now.condition place (place + length entry.now.source) }
{
    let end = place + entry.source().len();
    holds(entry.condition(0), table.definitions(), seen, place, end)
}
