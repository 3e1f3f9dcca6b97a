//! The places where a part of a label that a pattern matches can end.
ghost use Rattle.std.specs.Prelude.{length};
ghost use Rattle.label_patterns.specs.Matches.{HasItsSets, Matches};
ghost use Rattle.label_patterns.specs.Places.{AreEnds};
ghost use Rattle.label_patterns.specs.Trees.{pattern};

use crate::pattern_tree::PatternTree;
use crate::places::{after, either, only};
use crate::seen_label::SeenLabel;

/// The places where a part of a label that the pattern matches can end, if it begins at one of `starts`.
pub fn ends(tree: &PatternTree, seen: &SeenLabel, starts: u64) -> u64
    requires { HasItsSets (length seen.now.sets) (pattern tree.now) }
    ensures { AreEnds (Matches seen.now (pattern tree.now)) starts result }
{
    // From no place nothing leads on.
    if starts == 0 {
        return 0;
    }
    match tree {
        PatternTree::Point(point) => after(starts, seen.places_of_point(*point)),
        PatternTree::Set(set) => after(starts, seen.places_of_set(*set)),
        PatternTree::Any => after(starts, seen.places_of_all()),
        PatternTree::Start => only(starts, 0),
        PatternTree::End => only(starts, seen.len()),
        PatternTree::Anchor => 0,
        PatternTree::Group(part) => ends(part, seen, starts),
        PatternTree::Optional(part) => either(starts, ends(part, seen, starts)),
        PatternTree::Many(part) => {
            let mut found = starts;
            let mut more = either(found, ends(part, seen, found));
            while more != found {
                found = more;
                more = either(found, ends(part, seen, found));
            }
            found
        }
        PatternTree::Then(first, rest) => ends(rest, seen, ends(first, seen, starts)),
        PatternTree::Either(left, right) => {
            either(ends(left, seen, starts), ends(right, seen, starts))
        }
    }
}
