//! Dead prefixes: no label that begins so may be registered, whatever follows.
ghost use Rattle.std.specs.Prelude.{◌≡◌, ◌↔◌, IsTrue, None};
ghost use Rattle.idn_class.specs.DeadPrefixes.{has_hyphens_third_and_fourth, hopeless, IsDeadPrefix, TellsDeadPrefix};
ghost use Rattle.idn_class.specs.Directions.{TellsShortest, breaks_at_first};

use crate::direction::Direction;
use crate::properties::Properties;

const HYPHEN: u32 = 0x2D;

/// Whether no label that begins so may be registered (RFC 5891, section 4.2), whatever follows: a test of its hyphens,
/// of a leading mark, or of the Bidi rule has failed for good. The empty list is not dead, and a number that is no
/// scalar value counts as an LTR letter. Only tests call this and `shortest_hopeless`: a run asks `CachedPrefixes`,
/// which keeps what it found for the next label.
pub fn hopeless(label: &[u32]) -> bool
    ensures rule { IsTrue result ↔ IsDeadPrefix Properties.Profile label.now }
    ensures test { result ≡ hopeless Properties.Profile label.now }
{
    hopeless_by(label, Properties::Profile)
}

/// Whether no label that begins so may be registered by these properties, as `hopeless` tells it.
pub fn hopeless_by(label: &[u32], properties: Properties) -> bool
    ensures rule { IsTrue result ↔ IsDeadPrefix properties label.now }
    ensures test { result ≡ hopeless properties label.now }
{
    shortest_hopeless(label, properties).is_some()
}

/// How many code points the shortest dead prefix of a label has, by one pass over the label. `None` where
/// the label has none. It says in one call what `CachedPrefixes` tells.
pub fn shortest_hopeless(label: &[u32], properties: Properties) -> Option<usize>
    ensures { TellsDeadPrefix properties label.now result }
{
    with_hyphens(label, shortest_breaking(label, properties), properties)
}

/// The shortest dead prefix of a label, by the shortest that breaks a test of its first code point or the Bidi
/// rule, and by the hyphens third and fourth.
pub(crate) fn with_hyphens(
    label: &[u32],
    breaking: Option<usize>,
    properties: Properties,
) -> Option<usize>
    requires { TellsShortest (breaks_at_first properties) label.now breaking }
    ensures shortest { TellsDeadPrefix properties label.now result }
    ensures whole { result ≡ None → breaking ≡ None }
{
    if has_hyphens_third_and_fourth(label) {
        Some(breaking.unwrap_or(4).min(4))
    } else {
        breaking
    }
}

fn has_hyphens_third_and_fourth(label: &[u32]) -> bool
    ensures { result ≡ has_hyphens_third_and_fourth label.now }
{
    matches!(label, [_, _, HYPHEN, HYPHEN, ..])
}

/// How many code points the shortest beginning has that breaks a test of the first code point or the Bidi rule for
/// good. The first code point gives a direction, and the others must keep it.
fn shortest_breaking(label: &[u32], properties: Properties) -> Option<usize>
    ensures { TellsShortest (breaks_at_first properties) label.now result }
{
    let [first, rest @ ..] = label else {
        return None;
    };
    let Some(direction) = Direction::begun(*first, properties) else {
        return Some(1);
    };
    Some(direction.shortest_breaking(rest, properties)? + 1)
}
