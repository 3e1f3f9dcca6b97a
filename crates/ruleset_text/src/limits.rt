//! The limits on what a ruleset defines, those on a pattern, and the tests of them.
ghost use Rattle.std.specs.Prelude.{◌≡◌, ◌+◌, ◌-◌, ◌<◌, ◌||◌, nat_le, nat_lt, MatchOption};
ghost use Rattle.std.specs.Option.{option_or};
ghost use Rattle.label_patterns.specs.Trees.{pattern};
ghost use Rattle.ruleset_text.specs.Limits as limits;
ghost use Rattle.ruleset_text.specs.inner.PatternSteps as steps;
ghost use Rattle.ruleset_text.specs.Pieces.{pieces as pieces_of};

use crate::fault::FaultPlace;
use crate::pieces::Piece;
use crate::token::Token;
use label_patterns::PatternTree;

/// The most types of a ruleset beside those that are predefined.
pub(crate) const TYPE_LIMIT: usize = 57;

/// The most sets.
pub(crate) const SET_LIMIT: usize = 256;

/// The most rules of both kinds, demands and actions together.
pub(crate) const RULE_LIMIT: usize = 256;

/// The most atoms of all patterns together.
pub(crate) const ATOM_LIMIT: usize = 4096;

/// The most groups of a pattern that stand within each other.
const GROUP_LIMIT: usize = 8;

/// The most `*` of a pattern that stand within each other.
const STAR_LIMIT: u32 = 2;

/// The most bytes of the canonical line of a definition.
pub(crate) const DEFINITION_LIMIT: usize = 8192;

/// The place of a token with which a pattern goes past a limit, unless an earlier one does: a group within eight
/// others, a `*` after an atom in which two stand within each other, or an atom where none may follow.
pub fn past_limit(
    earlier: Option<FaultPlace>,
    pieces: &[Piece],
    groups: usize,
    atoms_left: usize,
    token: Token,
    at: FaultPlace,
) -> Option<FaultPlace>
    ensures { result ≡ option_or earlier
        (steps.past_place (pieces_of pieces.now) groups atoms_left at token) }
{
    if earlier.is_some() {
        return earlier;
    }
    is_past(pieces, groups, atoms_left, token).then_some(at)
}

fn is_past(pieces: &[Piece], groups: usize, atoms_left: usize, token: Token) -> bool
    ensures { result ≡ steps.is_past (pieces_of pieces.now) groups atoms_left token }
{
    match token {
        Token::Point(_) | Token::Set(_) | Token::Any | Token::Start | Token::End => atoms_left == 0,
        Token::Open => groups >= GROUP_LIMIT || atoms_left == 0,
        Token::Many => has_most_stars(pieces),
        Token::Anchor | Token::Close | Token::Optional | Token::Or | Token::Other => false,
    }
}

/// Whether as many `*` as may be stand within each other in the last piece.
fn has_most_stars(pieces: &[Piece]) -> bool
    ensures { result ≡ steps.has_most_stars (pieces_of pieces.now) }
{
    match pieces.last() {
        Some(Piece::Part(item, _)) => has_stars(item, STAR_LIMIT),
        _ => false,
    }
}

/// Whether at least so many `*` stand within each other.
fn has_stars(tree: &PatternTree, count: u32) -> bool
    ensures { result ≡ nat_le count (limits.stars (pattern tree.now)) }
{
    match tree {
        PatternTree::Point(_) => count == 0,
        PatternTree::Set(_) => count == 0,
        PatternTree::Any => count == 0,
        PatternTree::Start => count == 0,
        PatternTree::End => count == 0,
        PatternTree::Anchor => count == 0,
        PatternTree::Group(part) => has_stars(part, count),
        PatternTree::Optional(part) => has_stars(part, count),
        PatternTree::Many(part) => count == 0 || has_stars(part, count - 1),
        PatternTree::Then(first, second) => has_stars(first, count) || has_stars(second, count),
        PatternTree::Either(left, right) => has_stars(left, count) || has_stars(right, count),
    }
}

/// Whether at least so many groups stand within each other.
fn has_groups(tree: &PatternTree, count: u32) -> bool
    ensures { result ≡ nat_le count (limits.groups (pattern tree.now)) }
{
    match tree {
        PatternTree::Point(_) => count == 0,
        PatternTree::Set(_) => count == 0,
        PatternTree::Any => count == 0,
        PatternTree::Start => count == 0,
        PatternTree::End => count == 0,
        PatternTree::Anchor => count == 0,
        PatternTree::Group(part) => count == 0 || has_groups(part, count - 1),
        PatternTree::Optional(part) => has_groups(part, count),
        PatternTree::Many(part) => has_groups(part, count),
        PatternTree::Then(first, second) => has_groups(first, count) || has_groups(second, count),
        PatternTree::Either(left, right) => has_groups(left, count) || has_groups(right, count),
    }
}

/// Whether a pattern goes past a limit, where it may have so many atoms.
pub fn is_over_limit(tree: &PatternTree, atoms_left: usize) -> bool
    ensures { result ≡ (nat_lt 8 (limits.groups (pattern tree.now)) || nat_lt 2 (limits.stars (pattern tree.now))
        || nat_lt atoms_left (limits.atoms (pattern tree.now))) }
{
    has_groups(tree, 9) || has_stars(tree, 3) || atoms_after(tree, atoms_left).is_none()
}

/// How many of so many atoms are left after a pattern; none, if it has more.
pub fn atoms_after(tree: &PatternTree, left: usize) -> Option<usize>
    ensures { MatchOption result (left < limits.atoms (pattern tree.now))
        (λ rest. limits.atoms (pattern tree.now) + rest ≡ left) }
{
    match tree {
        PatternTree::Point(_) => left.checked_sub(1),
        PatternTree::Set(_) => left.checked_sub(1),
        PatternTree::Any => left.checked_sub(1),
        PatternTree::Start => left.checked_sub(1),
        PatternTree::End => left.checked_sub(1),
        PatternTree::Anchor => Some(left),
        PatternTree::Group(part) => atoms_after(part, left.checked_sub(1)?),
        PatternTree::Optional(part) => atoms_after(part, left),
        PatternTree::Many(part) => atoms_after(part, left),
        PatternTree::Then(first, second) => atoms_after(second, atoms_after(first, left)?),
        PatternTree::Either(first, second) => atoms_after(second, atoms_after(first, left)?),
    }
}

/// Whether each set of a pattern is one of the first so many.
pub fn has_its_sets(sets: usize, tree: &PatternTree) -> bool
    ensures { result ≡ limits.has_its_sets sets (pattern tree.now) }
{
    match tree {
        PatternTree::Set(number) => *number < sets,
        PatternTree::Group(part) => has_its_sets(sets, part),
        PatternTree::Optional(part) => has_its_sets(sets, part),
        PatternTree::Many(part) => has_its_sets(sets, part),
        PatternTree::Then(first, rest) => has_its_sets(sets, first) && has_its_sets(sets, rest),
        PatternTree::Either(left, right) => has_its_sets(sets, left) && has_its_sets(sets, right),
        _ => true,
    }
}

/// How many atoms may follow a token.
pub fn without_atom(atoms_left: usize, token: Token) -> usize
    ensures { result ≡ atoms_left - steps.atoms_at token }
{
    if is_counted(token) {
        atoms_left.saturating_sub(1)
    } else {
        atoms_left
    }
}

/// Whether it counts as an atom: so do `^` and `$`, and a group at its `(`.
fn is_counted(token: Token) -> bool
    ensures { result ≡ steps.is_counted token }
{
    match token {
        Token::Point(_) | Token::Set(_) | Token::Any | Token::Start | Token::End | Token::Open =>
            true,
        Token::Anchor | Token::Close | Token::Optional | Token::Many | Token::Or | Token::Other =>
            false,
    }
}
