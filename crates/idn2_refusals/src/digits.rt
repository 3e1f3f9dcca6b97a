//! Hexadecimal digits of messages.
ghost use Rattle.std.specs.Prelude.{◌≡◌, ◌≤◌, ◌<◌, ◌+◌, [], ◌∷◌, ◌++◌};
ghost use Rattle.arrayvec.specs.ArrayVec.{array_vec_len};
ghost use Rattle.idn_text.specs.Points.{hex_digit};
ghost use Rattle.idn2_refusals.specs.CauseParts.{code_point_text};

use arrayvec::ArrayVec;
use idn2_output::append;

/// Appends a code point, as Unicode writes it.
#[tactic(auto, unfolding(ruleset_text::specs::Canonical::point_text))]
pub(crate) fn push_code_point<const N: usize>(text: &mut ArrayVec<u8, N>, point: u32)
    requires { array_vec_len text.old + 8 ≤ N }
    ensures items { text.new.items ≡ text.old.items ++ code_point_text point }
    ensures short { array_vec_len text.new ≤ array_vec_len text.old + 8 }
{
    append(text, b"U+");
    if point >= 0x10_0000 {
        push_digit(text, point / 0x10_0000 % 16);
    }
    if point >= 0x1_0000 {
        push_digit(text, point / 0x1_0000 % 16);
    }
    push_digit(text, point / 0x1000 % 16);
    push_digit(text, point / 0x100 % 16);
    push_digit(text, point / 0x10 % 16);
    push_digit(text, point % 16);
}

/// Appends a hexadecimal digit, in upper case.
pub(crate) fn push_digit<const N: usize>(text: &mut ArrayVec<u8, N>, value: u32)
    requires digit { value < 16 }
    requires room { array_vec_len text.old < N }
    ensures items { text.new.items ≡ text.old.items ++ hex_digit value ∷ [] }
    ensures short { array_vec_len text.new ≡ array_vec_len text.old + 1 }
{
    let digit = if value < 10 {
        b'0' + value as u8
    } else {
        b'A' + (value - 10) as u8
    };
    text.push(digit);
}
