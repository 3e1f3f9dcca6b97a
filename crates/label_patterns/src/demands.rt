//! Patterns of a whole label.
ghost use Rattle.std.specs.Prelude.{◌↔◌, length, IsTrue, MatchOption};
ghost use Rattle.label_patterns.specs.Matches.{HasItsSets};
ghost use Rattle.label_patterns.specs.Rules.{Occurs};
ghost use Rattle.label_patterns.specs.FirstEnds.{IsFirstEnd};
ghost use Rattle.label_patterns.specs.Trees.{pattern};

use crate::ends::ends;
use crate::pattern_tree::PatternTree;
use crate::places::all_places;
use crate::seen_label::SeenLabel;

/// Whether some part of the label matches the pattern: `%never` forbids that, and `%always` wants it.
pub fn occurs(tree: &PatternTree, seen: &SeenLabel) -> bool
    requires { HasItsSets (length seen.now.sets) (pattern tree.now) }
    ensures { IsTrue result ↔ Occurs seen.now (pattern tree.now) }
{
    ends(tree, seen, all_places(seen.len())) != 0
}

/// The least place where a part of the label that the pattern matches ends. `None` where no part matches it.
pub fn first_end(tree: &PatternTree, seen: &SeenLabel) -> Option<usize>
    requires { HasItsSets (length seen.now.sets) (pattern tree.now) }
    ensures { MatchOption result (¬ Occurs seen.now (pattern tree.now)) (IsFirstEnd seen.now (pattern tree.now)) }
{
    let found = ends(tree, seen, all_places(seen.len()));
    if found == 0 {
        return None;
    }
    Some(found.trailing_zeros() as usize)
}
