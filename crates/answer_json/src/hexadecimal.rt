//! Bytes and code points in hexadecimal digits.
ghost use Rattle.std.specs.Prelude.{◌≡◌, ◌≤◌, ◌<◌, ◌+◌, ◌*◌, ◌++◌, length, take};
ghost use Rattle.answer_json.specs.Hexadecimal.{hex_of, leading_digit, point_text};
ghost use Rattle.idn_text.specs.Points.{four_digits, hex_digit};

use crate::room::{MAX_OBJECT_LEN, ObjectRoom, put_byte, put_bytes};

/// Writes two digits for each byte.
#[tactic(auto, unfolding(crate::specs::Hexadecimal::hex_of_byte))]
pub(crate) fn put_hex(out: &mut ObjectRoom, at: usize, bytes: &[u8]) -> usize
    requires { at + 2 * length bytes.now ≤ MAX_OBJECT_LEN }
    ensures digits { take result out.new ≡ take at out.old ++ hex_of bytes.now }
    ensures end { result ≤ at + 2 * length bytes.now }
{
    let mut end = at;
    for byte in bytes {
        let low = put_byte(out, end, hex_digit(*byte / 16 % 16));
        end = put_byte(out, low, hex_digit(*byte % 16));
    }
    end
}

/// Writes a code point as the Unicode Standard writes it.
#[tactic(auto, unfolding(crate::specs::Hexadecimal::point_text))]
pub(crate) fn put_point_text(out: &mut ObjectRoom, at: usize, point: u32) -> usize
    requires { at + 10 ≤ MAX_OBJECT_LEN }
    ensures text { take result out.new ≡ take at out.old ++ point_text point }
    ensures end { result ≤ at + 10 }
{
    let first = put_bytes(out, at, b"U+");
    let second = put_leading_digit(out, first, point, 0x1000_0000);
    let third = put_leading_digit(out, second, point, 0x100_0000);
    let fourth = put_leading_digit(out, third, point, 0x10_0000);
    let last = put_leading_digit(out, fourth, point, 0x1_0000);
    put_four_digits(out, last, point)
}

/// Writes the digit that counts so many, unless only zeros would stand up to it.
fn put_leading_digit(out: &mut ObjectRoom, at: usize, point: u32, unit: u32) -> usize
    requires room { at < MAX_OBJECT_LEN }
    requires unit { 0 < unit }
    ensures digit { take result out.new ≡ take at out.old ++ leading_digit point unit }
    ensures end { result ≤ at + 1 }
{
    if point < unit {
        return at;
    }
    put_byte(out, at, hex_digit((point / unit % 16) as u8))
}

fn put_four_digits(out: &mut ObjectRoom, at: usize, point: u32) -> usize
    requires { at + 4 ≤ MAX_OBJECT_LEN }
    ensures digits { take result out.new ≡ take at out.old ++ four_digits point }
    ensures end { result ≡ at + 4 }
{
    let second = put_byte(out, at, hex_digit((point / 0x1000 % 16) as u8));
    let third = put_byte(out, second, hex_digit((point / 0x100 % 16) as u8));
    let fourth = put_byte(out, third, hex_digit((point / 0x10 % 16) as u8));
    put_byte(out, fourth, hex_digit((point % 16) as u8))
}

/// A hexadecimal digit, in upper case.
fn hex_digit(number: u8) -> u8
    requires { number < 16 }
    ensures { result ≡ hex_digit number }
{
    if number < 10 {
        b'0' + number
    } else {
        b'A' + (number - 10)
    }
}
