//! Code points as numbers.

ghost use Rattle.std.specs.Prelude.{◌≡◌, ◌<◌, ◌↔◌, IsTrue};
ghost use Rattle.std.specs.Char.{InScalarRange};
ghost use Rattle.idn_text.specs.Points.{IsScalarValue, hex_digit, point_of_hex};

/// Whether a number is a Unicode scalar value: a code point that is no surrogate.
pub fn is_point(number: u32) -> bool
    ensures value { IsTrue result ↔ IsScalarValue number }
    ensures ranges { IsTrue result ↔ InScalarRange number }
{
    matches!(number, 0..=0xD7FF | 0xE000..=0x10_FFFF)
}

/// The scalar value that 4 to 6 hexadecimal digits in either case name, if they name one.
#[tactic(auto, unfolding(crate::specs::Points::point_of_hex))]
pub fn hex_point(digits: &[u8]) -> Option<u32>
    ensures { result ≡ point_of_hex digits.now }
{
    if digits.len() < 4 || digits.len() > 6 {
        return None;
    }
    let mut value = 0;
    for digit in digits {
        value = value * 16 + char::from(*digit).to_digit(16)?;
    }
    if is_point(value) { Some(value) } else { None }
}

/// The hexadecimal digit of a number below 16, in upper case.
pub fn hex_digit(number: u32) -> u8
    requires { number < 16 }
    ensures { result ≡ hex_digit number }
{
    if number < 10 {
        b'0' + number as u8
    } else {
        b'A' + (number - 10) as u8
    }
}
