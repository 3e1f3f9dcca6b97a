//! Characters of a text in UTF-8 (RFC 3629), one after another.
ghost use Rattle.std.specs.Prelude.{◌≡◌, ◌+◌, ◌<◌, ◌≤◌, ◌++◌, length};
ghost use Rattle.std.specs.Prelude.{take, drop, slice_index, encode_utf8, IfSome, IfNone};
ghost use Rattle.std.specs.Int.{IsOutOfRange};
ghost use Rattle.std.specs.Str.{StartsWithNoChar};
ghost use Rattle.idn_text.specs.Points.{IsScalarValue};

/// The least character that three octets encode.
const LEAST_OF_THREE: u32 = 0x800;

/// The least character that four octets encode.
const LEAST_OF_FOUR: u32 = 0x1_0000;

/// The character at a place of a text, and the place after it. `None` where no character in UTF-8 stands there.
// Always inline: the loops that read a text by it want no call for each character.
#[inline(always)]
pub fn character_at(text: &[u8], at: usize) -> Option<(char, usize)>
    requires { at < length text.now }
    ensures read { IfSome result (λ step. take step.1 text.now ≡ take at text.now ++ encode_utf8 step.0) }
    ensures scalar_value { IfSome result (λ step. IsScalarValue step.0) }
    ensures further { IfSome result (λ step. at < step.1) }
    ensures within { IfSome result (λ step. step.1 ≤ length text.now) }
    ensures none { IfNone result (StartsWithNoChar (drop at text.now)) }
{
    match text[at] {
        first @ 0..=0x7F => Some((char::from(first), at + 1)),
        first @ 0xC2..=0xDF => {
            let second = bits_at(text, at + 1)?;
            let code = (u32::from(first) - 0xC0) * 64 + second;
            Some((char::from_u32(code)?, at + 2))
        }
        first @ 0xE0..=0xEF => {
            let second = bits_at(text, at + 1)?;
            let third = bits_at(text, at + 2)?;
            let code = ((u32::from(first) - 0xE0) * 64 + second) * 64 + third;
            if code < LEAST_OF_THREE {
                return None;
            }
            Some((char::from_u32(code)?, at + 3))
        }
        first @ 0xF0..=0xF4 => {
            let second = bits_at(text, at + 1)?;
            let third = bits_at(text, at + 2)?;
            let fourth = bits_at(text, at + 3)?;
            let code = (((u32::from(first) - 0xF0) * 64 + second) * 64 + third) * 64 + fourth;
            if code < LEAST_OF_FOUR {
                return None;
            }
            Some((char::from_u32(code)?, at + 4))
        }
        _ => None,
    }
}

/// The six bits of an octet that goes on with a character.
#[inline]
fn bits_at(text: &[u8], at: usize) -> Option<u32>
    ensures bits { IfSome result (λ bits. slice_index text.now at ≡ 0x80 + bits) }
    ensures few { IfSome result (λ bits. bits < 64) }
    ensures within { IfSome result (λ _. at < length text.now) }
    ensures none { IfNone result (IsOutOfRange 0x80 0xBF (slice_index text.now at)) }
{
    match text.get(at) {
        Some(octet @ 0x80..=0xBF) => Some(u32::from(*octet) - 0x80),
        _ => None,
    }
}
