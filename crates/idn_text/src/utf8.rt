//! Code points and their UTF-8.

ghost use Rattle.std.specs.Prelude.{◌≡◌, ◌≤◌, ◌+◌, ◌*◌, ◌%◌, ◌++◌};
ghost use Rattle.std.specs.Prelude.{ℕ, List, [], length, take, encode_utf8, OnOk, OnErr};
ghost use Rattle.idn_text.specs.Points.{AreScalarValues, IsScalarValue, IsUtf8Of, utf8_of};

use crate::body::MAX_LINE_LEN;
use crate::character::character_at;
use arrayvec::ArrayVec;

/// Bytes that are no UTF-8 (RFC 3629).
#[derive(Clone, Copy, Debug, PartialEq, Eq)]
pub struct NotUtf8;

/// Leaves in `points` the scalar values whose UTF-8 (RFC 3629) these bytes, at most 1,024, are, in
/// place of what stood there, and none where the bytes are no UTF-8.
pub fn decode_points(bytes: &[u8], points: &mut ArrayVec<u32, MAX_LINE_LEN>) -> Result<(), NotUtf8>
    requires { length bytes.now ≤ MAX_LINE_LEN }
    ensures decoded { OnOk result (IsUtf8Of bytes.now points.new.items) }
    ensures refused { OnErr result ((list : List ℕ) → ¬ (IsUtf8Of bytes.now list)) }
    ensures emptied { OnErr result (points.new.items ≡ []) }
{
    points.clear();
    let mut at = 0;
    while at < bytes.len() {
        let Some((character, next)) = character_at(bytes, at) else {
            points.clear();
            return Err(NotUtf8);
        };
        points.push(u32::from(character));
        at = next;
    }
    Ok(())
}

/// Leaves in `utf8` the UTF-8 (RFC 3629) of at most 1,024 code points, each a scalar value, in place
/// of what stood there.
pub fn write_points(points: &[u32], utf8: &mut ArrayVec<u8, 4096>)
    requires few { length points.now ≤ MAX_LINE_LEN }
    requires scalar_values { AreScalarValues points.now }
    ensures { utf8.new.items ≡ utf8_of points.now }
{
    let mut room = [0; 4096];
    let len = put_points(points, &mut room, 0);
    utf8.clear();
    let Ok(()) = utf8.try_extend_from_slice(&room[..len]) else {
        unreachable!()
    };
}

/// Writes the UTF-8 (RFC 3629) of scalar values into `room` from the place `at` on, and returns the
/// place after it. What stands before `at` stays; of what stands after the UTF-8 nothing is said.
/// There must be room for four bytes for each.
pub fn put_points(points: &[u32], room: &mut [u8], at: usize) -> usize
    requires scalar_values { AreScalarValues points.now }
    requires room { at + 4 * length points.now ≤ length room.old }
    ensures written { take result room.new ≡ take at room.old ++ utf8_of points.now }
    ensures end { result ≤ at + 4 * length points.now }
    ensures length { length room.new ≡ length room.old }
{
    let mut end = at;
    for point in points {
        end = put_point(*point, room, end);
    }
    end
}

/// Writes the one to four bytes of a scalar value (RFC 3629 section 3) into `room` from the place `at`
/// on, and returns the place after them. There must be room for four.
#[inline]
fn put_point(point: u32, room: &mut [u8], at: usize) -> usize
    requires scalar_value { IsScalarValue point }
    requires room { at + 4 ≤ length room.old }
    ensures written { take result room.new ≡ take at room.old ++ encode_utf8 point }
    ensures end { result ≤ at + 4 }
    ensures length { length room.new ≡ length room.old }
{
    if point < 0x80 {
        room[at] = point as u8;
        at + 1
    } else if point < 0x800 {
        room[at] = (0xC0 + point / 0x40) as u8;
        room[at + 1] = later_byte(point);
        at + 2
    } else if point < 0x1_0000 {
        room[at] = (0xE0 + point / 0x1000) as u8;
        room[at + 1] = later_byte(point / 0x40);
        room[at + 2] = later_byte(point);
        at + 3
    } else {
        room[at] = (0xF0 + point / 0x4_0000) as u8;
        room[at + 1] = later_byte(point / 0x1000);
        room[at + 2] = later_byte(point / 0x40);
        room[at + 3] = later_byte(point);
        at + 4
    }
}

/// A byte after the first one, which holds the last six of these bits.
#[inline]
fn later_byte(bits: u32) -> u8
    ensures { result ≡ 128 + bits % 64 }
{
    (0x80 + bits % 0x40) as u8
}
