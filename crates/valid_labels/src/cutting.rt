//! Cutting a label in any way: the places up to which it can be cut into sources.
ghost use Rattle.std.specs.Prelude.{◌≡◌, ◌↔◌, ◌<◌, ◌≤◌, ℕ, length};
ghost use Rattle.label_patterns.specs.Matches.{Rounds};
ghost use Rattle.label_patterns.specs.Places.{Has};
ghost use Rattle.valid_labels.specs.inner.Steps.{AreSteps, SourceIs};

use crate::source_predicate::SourcePredicate;
use label_patterns::{both, either, has, with_place_if};
use variant_table::Table;

/// Places of a label from which one code point leads on, or nothing does.
#[derive(Clone, Copy, PartialEq, Eq)]
pub struct SingleSteps {
    /// These places.
    pub known: u64,
    /// Those of them from which a code point leads on.
    pub leading: u64,
}

impl SingleSteps {
    /// How many code points lead on at the start of a label, one after the other.
    pub fn run(self) -> usize
        requires { ¬ Has self.known 63 }
        ensures leads { (place : ℕ) → place < result → Has self.known place × Has self.leading place }
        ensures ends { ¬ (Has self.known result × Has self.leading result) }
    {
        both(self.known, self.leading).trailing_ones() as usize
    }
}

/// No such place is known.
pub const NO_STEPS: SingleSteps = SingleSteps {
    known: 0,
    leading: 0,
};

/// The places up to which a label can be cut into sources of which what is asked is so. It is known of some places
/// whether one code point leads on from there, and that nothing else does.
pub fn reached<A: SourcePredicate>(
    table: &Table,
    label: &[u32],
    predicate: &A,
    steps: SingleSteps,
) -> u64
    requires short { length label.now ≤ 63 }
    requires ready { A.can_ask predicate.now (length label.now) }
    requires steps { AreSteps (SourceIs (A.asks predicate.now) table.now.entries label.now) (length label.now) steps }
    ensures { (j : _) → Has result j ↔ Rounds (SourceIs (A.asks predicate.now) table.now.entries label.now) 0 j }
{
    // Only for the proof: the contract of `len` says that no source is empty.
    let _entries = table.len();
    let mut found = 1;
    for place in 0..label.len() {
        if has(found, place) {
            let ends = if has(steps.known, place) {
                with_place_if(0, place + 1, has(steps.leading, place))
            } else {
                source_ends(table, label, place, predicate)
            };
            found = either(found, ends);
        }
    }
    found
}

/// The places where the sources end that stand at a place, if what is asked of them is so.
fn source_ends<A: SourcePredicate>(table: &Table, label: &[u32], place: usize, predicate: &A) -> u64
    requires short { length label.now ≤ 63 }
    requires place { place ≤ length label.now }
    requires ready { A.can_ask predicate.now (length label.now) }
    ensures { (j : _) → Has result j ↔ SourceIs (A.asks predicate.now) table.now.entries label.now place j }
{
    let mut ends = 0;
    for entry in table.entries_at(label, place) {
        let end = place + entry.source().len();
        ends = with_place_if(ends, end, predicate.holds(&entry, place, end));
    }
    ends
}
