//! The members of an object, one after another.
ghost use Rattle.std.specs.Prelude.{◌≡◌, ◌≤◌, ◌<◌, ◌+◌, ◌*◌, ◌++◌, ◌∷◌, [], decimal, length, slice_index, take};
ghost use Rattle.json.specs.Print.{quoted};
ghost use Rattle.answer_json.specs.Answers.{count, flag, nothing, text};
ghost use Rattle.answer_json.specs.Hexadecimal.{hex_of};
ghost use Rattle.answer_json.specs.Details.{point};
ghost use Rattle.answer_json.specs.inner.Openings.{IsOpening, name_in};
ghost use Rattle.answer_json.specs.inner.Texts.{field_text, value_text};

use crate::escaping::put_escaped;
use crate::hexadecimal::{put_hex, put_point_text};
use crate::room::{MAX_OBJECT_LEN, ObjectRoom, put_byte, put_bytes};
use itoa::{Buffer, write_digits};

/// The most digits of a number of 64 bits.
const MAX_NUMBER_LEN: usize = 20;

/// Writes what a member begins with: a brace or a comma, its name in quotes, and a colon.
///
/// Always inline, as are the members that follow: what is written is known where they are called, and then it is copied
/// at once.
#[inline(always)]
pub(crate) fn put_opening(out: &mut ObjectRoom, at: usize, opening: &str) -> usize
    requires room { at + length opening.now ≤ MAX_OBJECT_LEN }
    requires opening { IsOpening opening.now }
    ensures name { take result out.new ≡
        take at out.old ++ slice_index opening.now 0 ∷ (quoted (name_in opening.now) ++ 58 ∷ []) }
    ensures end { result ≡ at + length opening.now }
{
    put_bytes(out, at, opening.as_bytes())
}

/// Writes a number as a member, after a brace or a comma.
#[tactic(auto, unfolding(crate::specs::inner::Texts::field_text))]
#[inline(always)]
pub(crate) fn put_number(out: &mut ObjectRoom, at: usize, opening: &str, number: u64) -> usize
    requires room { at + length opening.now + 20 ≤ MAX_OBJECT_LEN }
    requires opening { IsOpening opening.now }
    ensures field { take result out.new ≡
        take at out.old ++ slice_index opening.now 0 ∷ field_text (name_in opening.now, count number) }
    ensures end { result ≤ at + (length opening.now + 20) }
{
    let value = put_opening(out, at, opening);
    put_decimal(out, value, number)
}

/// Writes the decimal digits of a number.
fn put_decimal(out: &mut ObjectRoom, at: usize, number: u64) -> usize
    requires { at + MAX_NUMBER_LEN ≤ MAX_OBJECT_LEN }
    ensures digits { take result out.new ≡ take at out.old ++ decimal number }
    ensures end { result ≤ at + MAX_NUMBER_LEN }
{
    let end = at + count_digits(number);
    // They are written from the last to the first.
    let _at = write_digits(number, out, end);
    end
}

/// How many decimal digits a number has.
fn count_digits(number: u64) -> usize
    ensures digits { result ≡ length (decimal number) }
    ensures few { result ≤ MAX_NUMBER_LEN }
{
    let mut left = number;
    let mut count = 0;
    while left >= 10_000 {
        left /= 10_000;
        count += 4;
    }
    count + count_short(left)
}

/// How many decimal digits a number has that has at most four.
fn count_short(number: u64) -> usize
    requires { number < 10_000 }
    ensures { result ≡ length (decimal number) }
{
    if number < 10 {
        1
    } else if number < 100 {
        2
    } else if number < 1_000 {
        3
    } else {
        4
    }
}

/// Writes a number that counts something as a member, after a comma.
#[tactic(auto, unfolding(crate::specs::inner::Texts::field_text))]
pub(crate) fn put_count(out: &mut ObjectRoom, at: usize, opening: &str, number: u128) -> usize
    requires room { at + length opening.now + 40 ≤ MAX_OBJECT_LEN }
    requires opening { IsOpening opening.now }
    ensures field { take result out.new ≡
        take at out.old ++ slice_index opening.now 0 ∷ field_text (name_in opening.now, count number) }
    ensures end { result ≤ at + (length opening.now + 40) }
{
    let value = put_opening(out, at, opening);
    let mut digits = Buffer::new();
    put_bytes(out, value, digits.format(number).as_bytes())
}

/// Writes a text as a member, after a brace or a comma.
#[tactic(auto, unfolding(crate::specs::inner::Texts::field_text))]
#[inline(always)]
pub(crate) fn put_text(out: &mut ObjectRoom, at: usize, opening: &str, bytes: &[u8]) -> usize
    requires room { at + length opening.now + 6 * length bytes.now + 2 ≤ MAX_OBJECT_LEN }
    requires opening { IsOpening opening.now }
    ensures field { take result out.new ≡
        take at out.old ++ slice_index opening.now 0 ∷ field_text (name_in opening.now, text bytes.now) }
    ensures end { result ≤ at + (length opening.now + 6 * length bytes.now + 2) }
{
    let value = put_opening(out, at, opening);
    let begin = put_byte(out, value, b'"');
    let end = put_escaped(out, begin, bytes);
    put_byte(out, end, b'"')
}

/// Writes octets in hexadecimal digits as a member.
#[tactic(auto, unfolding(crate::specs::inner::Texts::field_text))]
pub(crate) fn put_octets(out: &mut ObjectRoom, at: usize, opening: &str, octets: &[u8]) -> usize
    requires room { at + length opening.now + 2 * length octets.now + 2 ≤ MAX_OBJECT_LEN }
    requires opening { IsOpening opening.now }
    ensures field { take result out.new ≡
        take at out.old ++ slice_index opening.now 0 ∷ field_text (name_in opening.now, text (hex_of octets.now)) }
    ensures end { result ≤ at + (length opening.now + 2 * length octets.now + 2) }
{
    let value = put_opening(out, at, opening);
    let begin = put_byte(out, value, b'"');
    let end = put_hex(out, begin, octets);
    put_byte(out, end, b'"')
}

/// Writes a code point as a member.
#[tactic(auto, unfolding(crate::specs::inner::Texts::field_text))]
pub(crate) fn put_point(out: &mut ObjectRoom, at: usize, opening: &str, code_point: u32) -> usize
    requires room { at + length opening.now + 12 ≤ MAX_OBJECT_LEN }
    requires opening { IsOpening opening.now }
    ensures field { take result out.new ≡
        take at out.old ++ slice_index opening.now 0 ∷ field_text (name_in opening.now, point code_point) }
    ensures end { result ≤ at + (length opening.now + 12) }
{
    let value = put_opening(out, at, opening);
    let begin = put_byte(out, value, b'"');
    let end = put_point_text(out, begin, code_point);
    put_byte(out, end, b'"')
}

/// Writes a truth value as a member.
#[tactic(auto, unfolding(crate::specs::inner::Texts::field_text))]
pub(crate) fn put_flag(out: &mut ObjectRoom, at: usize, opening: &str, is_true: bool) -> usize
    requires room { at + length opening.now + 5 ≤ MAX_OBJECT_LEN }
    requires opening { IsOpening opening.now }
    ensures field { take result out.new ≡
        take at out.old ++ slice_index opening.now 0 ∷ field_text (name_in opening.now, flag is_true) }
    ensures end { result ≤ at + (length opening.now + 5) }
{
    let value = put_opening(out, at, opening);
    put_flag_value(out, value, is_true)
}

/// Writes that a member holds nothing.
#[tactic(auto, unfolding(crate::specs::inner::Texts::field_text))]
pub(crate) fn put_null(out: &mut ObjectRoom, at: usize, opening: &str) -> usize
    requires room { at + length opening.now + 4 ≤ MAX_OBJECT_LEN }
    requires opening { IsOpening opening.now }
    ensures field { take result out.new ≡
        take at out.old ++ slice_index opening.now 0 ∷ field_text (name_in opening.now, nothing) }
    ensures end { result ≡ at + (length opening.now + 4) }
{
    let value = put_opening(out, at, opening);
    put_bytes(out, value, b"null")
}

fn put_flag_value(out: &mut ObjectRoom, at: usize, is_true: bool) -> usize
    requires { at + 5 ≤ MAX_OBJECT_LEN }
    ensures flag { take result out.new ≡ take at out.old ++ value_text (flag is_true) }
    ensures end { result ≤ at + 5 }
{
    if is_true {
        put_bytes(out, at, b"true")
    } else {
        put_bytes(out, at, b"false")
    }
}
