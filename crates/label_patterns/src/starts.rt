//! The places where a part of a label that a pattern matches can begin.
ghost use Rattle.std.specs.Prelude.{length};
ghost use Rattle.label_patterns.specs.Matches.{HasItsSets, Matches};
ghost use Rattle.label_patterns.specs.Places.{AreStarts};
ghost use Rattle.label_patterns.specs.Trees.{pattern};

use crate::pattern_tree::PatternTree;
use crate::places::{before, either, only};
use crate::seen_label::SeenLabel;

/// The places where a part of a label that the pattern matches can begin, if it ends at one of `stops`: the mirror
/// image of `ends`.
pub fn starts(tree: &PatternTree, seen: &SeenLabel, stops: u64) -> u64
    requires { HasItsSets (length seen.now.sets) (pattern tree.now) }
    ensures { AreStarts (Matches seen.now (pattern tree.now)) stops result }
{
    // To no place nothing leads.
    if stops == 0 {
        return 0;
    }
    match tree {
        PatternTree::Point(point) => before(stops, seen.places_of_point(*point)),
        PatternTree::Set(set) => before(stops, seen.places_of_set(*set)),
        PatternTree::Any => before(stops, seen.places_of_all()),
        PatternTree::Start => only(stops, 0),
        PatternTree::End => only(stops, seen.len()),
        PatternTree::Anchor => 0,
        PatternTree::Group(part) => starts(part, seen, stops),
        PatternTree::Optional(part) => either(stops, starts(part, seen, stops)),
        PatternTree::Many(part) => {
            let mut found = stops;
            let mut more = either(found, starts(part, seen, found));
            while more != found {
                found = more;
                more = either(found, starts(part, seen, found));
            }
            found
        }
        PatternTree::Then(first, rest) => starts(first, seen, starts(rest, seen, stops)),
        PatternTree::Either(left, right) => {
            either(starts(left, seen, stops), starts(right, seen, stops))
        }
    }
}
