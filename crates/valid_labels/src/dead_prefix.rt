//! Beginnings of labels with which no valid label begins.
ghost use Rattle.std.specs.Prelude.{◌≡◌, ◌≤◌, length, MatchOption};
ghost use Rattle.variant_table.specs.Segmentations.{seen_under};
ghost use Rattle.valid_labels.specs.Validity.{HasNoDeadPrefixUnder, IsShortestDeadUnder};
ghost use Rattle.valid_labels.specs.inner.Singles.{AreSingles};
ghost use Rattle.valid_labels.specs.inner.Ends.{IsLeastDead, IsRefusedAt, NoneIsDead, NoneRefuses};

use crate::cutting::reached;
use crate::demands::refused_end;
use crate::segments::Segments;
use crate::single_places::SinglePlaces;
use crate::source_predicate::UnbarredSource;
use crate::sources::last_place;
use label_patterns::SeenLabel;
use variant_table::Table;

/// How many code points the shortest dead prefix of a label has. `None` where neither a beginning nor the whole label
/// is dead. `singles` has places at which single points stand.
pub fn shortest_dead_prefix(
    segments: &Segments<'_>,
    seen: &SeenLabel<'_>,
    label: &[u32],
    singles: &SinglePlaces,
) -> Option<usize>
    requires short { length label.now ≤ 63 }
    requires seen { seen.now ≡ seen_under segments.now label.now }
    requires singles { AreSingles (length label.now) segments.now label.now singles.now }
    ensures { MatchOption result (HasNoDeadPrefixUnder segments.now label.now)
        (IsShortestDeadUnder segments.now label.now) }
{
    segments.recall_soundness();
    let table = segments.table();
    let definitions = table.definitions();
    let predicate = UnbarredSource { definitions, seen };
    let steps = singles.free_steps();
    let places = reached(table, label, &predicate, steps);
    // No source leads from the last of these places past this one, and none from another place.
    let nowhere = last_place(places, label.len()) + segments.longest();
    let refused = refused_by(table, seen);
    shortest(refused, nowhere, label.len())
}

/// The least place where a part of a label ends that no label may have, whatever follows.
fn refused_by(table: &Table, seen: &SeenLabel<'_>) -> Option<usize>
    requires { seen.now.sets ≡ table.now.definitions.sets }
    ensures { MatchOption result (NoneRefuses seen.now table.now.definitions.demands)
        (IsRefusedAt seen.now table.now.definitions.demands) }
{
    let demands = table.definitions().demands();
    refused_end(demands, seen)
}

/// The least number from 1 to `len` that is no less than one of these two.
fn shortest(refused: Option<usize>, nowhere: usize, len: usize) -> Option<usize>
    ensures { MatchOption result (NoneIsDead refused nowhere len) (IsLeastDead refused nowhere len) }
{
    let end = match refused {
        Some(end) if end < nowhere => end,
        _ => nowhere,
    };
    let count = if end == 0 { 1 } else { end };
    if count <= len { Some(count) } else { None }
}
