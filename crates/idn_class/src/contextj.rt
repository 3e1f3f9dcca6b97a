//! The context rules of the joiners, U+200C and U+200D (RFC 5892, appendix A.1 and A.2).
ghost use Rattle.std.specs.Prelude.{◌≡◌, ◌↔◌, ◌<◌, ◌≤◌, length, IsTrue, MatchOption};
ghost use Rattle.idn_class.specs.ContextJ.{FollowsVirama, JoinsBefore, JoinsAfter, JoinerPasses, PassesContextJ};
ghost use Rattle.idn_class.specs.Tests.{contextj_ok};
ghost use Rattle.idn_class.specs.Causes.{IsFirstFailing, misplaced_joiner};

use crate::joining_type::{JoiningType, is_virama, joining_type};
use crate::neighbor::before;
use crate::properties::Properties;

/// Whether each joiner of a label, U+200C and U+200D, meets its rule (RFC 5892, appendix A.1 and
/// A.2).
pub fn contextj_ok(label: &[u32]) -> bool
    ensures rule { IsTrue result ↔ PassesContextJ Properties.Profile label.now }
    ensures test { result ≡ contextj_ok Properties.Profile label.now }
{
    contextj_ok_by(label, Properties::Profile)
}

/// Whether each joiner of a label meets its rule, by these properties.
pub fn contextj_ok_by(label: &[u32], properties: Properties) -> bool
    ensures rule { IsTrue result ↔ PassesContextJ properties label.now }
    ensures test { result ≡ contextj_ok properties label.now }
{
    misplaced_joiner(label, properties).is_none()
}

/// The place of the first joiner that does not meet its rule, from 0. `None` where each of them meets it.
pub fn misplaced_joiner(label: &[u32], properties: Properties) -> Option<usize>
    ensures rule { MatchOption result (PassesContextJ properties label.now)
        (IsFirstFailing label.now (JoinerPasses properties label.now)) }
    ensures test { result ≡ misplaced_joiner properties label.now }
{
    for place in 0..label.len() {
        if !joiner_passes(label, place, properties) {
            return Some(place);
        }
    }
    None
}

/// Whether the joiner at a place, if one stands there, meets its rule.
fn joiner_passes(label: &[u32], place: usize, properties: Properties) -> bool
    requires { place < length label.now }
    ensures { IsTrue result ↔ JoinerPasses properties label.now place }
{
    match label[place] {
        0x200C => {
            follows_virama(label, place, properties)
                || joins_before(label, place, properties) && joins_after(label, place, properties)
        }
        0x200D => follows_virama(label, place, properties),
        _ => true,
    }
}

fn follows_virama(label: &[u32], place: usize, properties: Properties) -> bool
    ensures { IsTrue result ↔ FollowsVirama properties label.now place }
{
    match before(label, place) {
        None => false,
        Some(c) => is_virama(c, properties),
    }
}

/// Goes left over type T: whether the first other type is L or D.
fn joins_before(label: &[u32], joiner: usize, properties: Properties) -> bool
    requires { joiner ≤ length label.now }
    ensures { IsTrue result ↔ JoinsBefore properties label.now joiner }
{
    let mut end = joiner;
    while end > 0 {
        match joining_type(label[end - 1], properties) {
            JoiningType::Transparent => {}
            JoiningType::Left | JoiningType::Dual => return true,
            _ => return false,
        }
        end -= 1;
    }
    false
}

/// Goes right over type T: whether the first other type is R or D.
fn joins_after(label: &[u32], joiner: usize, properties: Properties) -> bool
    requires { joiner < length label.now }
    ensures { IsTrue result ↔ JoinsAfter properties label.now joiner }
{
    for place in joiner + 1..label.len() {
        match joining_type(label[place], properties) {
            JoiningType::Transparent => {}
            JoiningType::Right | JoiningType::Dual => return true,
            _ => return false,
        }
    }
    false
}
