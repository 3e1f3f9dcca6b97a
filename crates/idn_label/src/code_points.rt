//! Labels as numbers and as characters.
ghost use Rattle.std.specs.Prelude.{◌≡◌, ◌≤◌, ℕ, List, length, take, IfOk, IfSome, IfNone};
ghost use Rattle.idn_class.specs.Facts.{AreFactsOf};
ghost use Rattle.idn_text.specs.Points.{AreScalarValues, IsScalarValue, IsUtf8Of};

use arrayvec::ArrayVec;
use idn_class::Facts;
use idn_text::{MAX_LINE_LEN, character_at};
use std::alloc::{AllocError, Global};

/// Reads a label in UTF-8 (RFC 3629) once: leaves its code points at the start of `room`, and returns how many they are
/// and their facts. `None` where the octets are no UTF-8.
// Always inline: each of its callers reads all of its labels by it.
#[inline(always)]
pub(crate) fn read_points(label: &[u8], room: &mut [u32; MAX_LINE_LEN]) -> Option<(usize, Facts)>
    requires { length label.now ≤ MAX_LINE_LEN }
    ensures count { IfSome result (λ read. read.0 ≤ MAX_LINE_LEN) }
    ensures points { IfSome result (λ read. IsUtf8Of label.now (take read.0 room.new)) }
    ensures facts { IfSome result (λ read. AreFactsOf read.1 (take read.0 room.new)) }
    ensures refused { IfNone result ((list : List ℕ) → ¬ (IsUtf8Of label.now list)) }
{
    let mut facts = Facts::none();
    let mut count = 0;
    let mut at = 0;
    while at < label.len() {
        let Some((character, next)) = character_at(label, at) else {
            return None;
        };
        let point = u32::from(character);
        room[count] = point;
        facts = facts.joined(Facts::of(point));
        count += 1;
        at = next;
    }
    Some((count, facts))
}

/// A short label as characters, which takes no memory.
pub fn short_chars(label: &[u32]) -> ArrayVec<char, 63>
    requires short { length label.now ≤ 63 }
    requires scalars { AreScalarValues label.now }
    ensures { result.items ≡ label.now }
{
    let mut chars = ArrayVec::new();
    for c in label {
        chars.push(to_char(*c));
    }
    chars
}

/// A label as characters.
pub fn chars_of(alloc: Global, label: &[u32]) -> Result<Vec<char>, AllocError>
    requires { AreScalarValues label.now }
    ensures { IfOk result (λ chars. chars.items ≡ label.now) }
{
    let mut chars = Vec::with_capacity(alloc, label.len())?;
    for c in label {
        chars.push(to_char(*c))?;
    }
    Ok(chars)
}

#[inline]
pub(crate) fn to_char(c: u32) -> char
    requires { IsScalarValue c }
    ensures { result ≡ c }
{
    match char::from_u32(c) {
        Some(c) => c,
        None => unreachable!(),
    }
}

/// A label as numbers.
pub(crate) fn points_of(alloc: Global, label: &[char]) -> Result<Vec<u32>, AllocError>
    ensures points { IfOk result (λ points. points.items ≡ label.now) }
    ensures scalar_values { IfOk result (λ points. AreScalarValues points.items) }
{
    // Not by `collect`, which goes on where the room that it takes ahead is refused.
    let mut points = Vec::with_capacity(alloc, label.len())?;
    for c in label {
        points.push(*c as u32)?;
    }
    Ok(points)
}
