//! References, and the characters for which they stand.
ghost use Rattle.std.specs.Prelude.{◌≡◌, ◌⊎◌, ◌+◌, ◌<◌, ◌≤◌, length};
ghost use Rattle.xml_text.specs.References as words;
ghost use Rattle.xml_text.specs.References.{referenced as referenced_by};

/// One more than the last code point.
const END_OF_POINTS: u32 = 0x11_0000;

/// The character for which the bytes between `&` and `;` stand: one of the five entities, or a number. `None` where
/// they stand for none.
#[tactic(auto, unfolding(crate::specs::References::referenced))]
pub fn referenced(name: &[u8]) -> Option<char>
    ensures { result ≡ referenced_by name.now }
{
    if name == b"lt".as_slice() {
        Some('<')
    } else if name == b"gt".as_slice() {
        Some('>')
    } else if name == b"amp".as_slice() {
        Some('&')
    } else if name == b"apos".as_slice() {
        Some('\'')
    } else if name == b"quot".as_slice() {
        Some('"')
    } else {
        match name {
            [b'#', b'x', digits @ ..] => numbered(digits, 16),
            [b'#', digits @ ..] => numbered(digits, 10),
            _ => None,
        }
    }
}

/// The character of a number.
fn numbered(digits: &[u8], radix: u32) -> Option<char>
    requires { (radix ≡ 10) ⊎ (radix ≡ 16) }
    ensures { result ≡ words.numbered radix digits.now }
{
    if digits.is_empty() {
        return None;
    }
    let mut value: u32 = 0;
    for digit in digits {
        let next = value * radix + char::from(*digit).to_digit(radix)?;
        value = next.min(END_OF_POINTS);
    }
    character_of(value)
}

/// The character with this number, if XML may have it.
fn character_of(point: u32) -> Option<char>
    ensures { result ≡ words.character_of point }
{
    if is_character(point) {
        char::from_u32(point)
    } else {
        None
    }
}

/// Whether XML may have this character [2].
pub fn is_character(point: u32) -> bool
    ensures { result ≡ words.is_character point }
{
    matches!(point, 0x9 | 0xA | 0xD | 0x20..=0xD7FF | 0xE000..=0xFFFD | 0x1_0000..=0x10_FFFF)
}
