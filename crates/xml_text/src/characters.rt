//! The characters of a text.
ghost use Rattle.std.specs.Prelude.{◌≡◌, ◌<◌, ◌≤◌, length, take, IfErr, IfOk, IfSome, IfNone};
ghost use Rattle.std.specs.List.{list_all};
ghost use Rattle.xml_text.specs.Characters.{AreCharacters, IsWrongAt};
ghost use Rattle.xml_text.specs.inner.Blocks.{is_plain};

use crate::reference::is_character;
use idn_text::character_at;

/// How many bytes are looked at at once.
const BLOCK_LEN: usize = 32;

/// The first byte of a text at which no character in UTF-8 stands, or one that XML may not have; `None` if the text is
/// characters of XML from its beginning to its end.
pub fn first_wrong_character(text: &[u8]) -> Option<usize>
    ensures right { IfNone result (AreCharacters text.now) }
    ensures wrong { IfSome result (IsWrongAt text.now) }
{
    let mut at = 0;
    while at < text.len() {
        match read_block(text, at) {
            Ok(next) => at = next,
            Err(wrong) => return Some(wrong),
        }
    }
    None
}

/// Reads characters after those that were read, a block of them if the text has one: the place after them, or
/// the first one that is wrong.
#[inline(always)]
fn read_block(text: &[u8], at: usize) -> Result<usize, usize>
    requires more { at < length text.now }
    requires before { AreCharacters (take at text.now) }
    ensures read { IfOk result (λ next. AreCharacters (take next text.now)) }
    ensures further { IfOk result (λ next. at < next) }
    ensures within { IfOk result (λ next. next ≤ length text.now) }
    ensures wrong { IfErr result (IsWrongAt text.now) }
{
    let (_, rest) = text.split_at(at);
    match rest.first_chunk::<BLOCK_LEN>() {
        Some(block) if are_plain(block) => Ok(at + BLOCK_LEN),
        _ => read_each(text, at),
    }
}

/// Whether all bytes are a character each.
#[inline(always)]
fn are_plain(bytes: &[u8]) -> bool
    ensures { result ≡ list_all is_plain bytes.now }
{
    let mut are = true;
    for byte in bytes {
        are &= is_plain(*byte);
    }
    are
}

/// Whether a byte is a character by itself. Without branches, so that many are looked at at once.
#[inline(always)]
fn is_plain(byte: u8) -> bool
    ensures { result ≡ is_plain byte }
{
    (byte >= 0x20) & (byte < 0x80) | (byte == b'\t') | (byte == b'\n') | (byte == b'\r')
}

/// Reads the characters of a block one by one.
fn read_each(text: &[u8], at: usize) -> Result<usize, usize>
    requires more { at < length text.now }
    requires before { AreCharacters (take at text.now) }
    ensures read { IfOk result (λ next. AreCharacters (take next text.now)) }
    ensures further { IfOk result (λ next. at < next) }
    ensures within { IfOk result (λ next. next ≤ length text.now) }
    ensures wrong { IfErr result (IsWrongAt text.now) }
{
    let mut place = at;
    while place < text.len() && place - at < BLOCK_LEN {
        let Some((character, next)) = character_at(text, place) else {
            return Err(place);
        };
        if !is_character(u32::from(character)) {
            return Err(place);
        }
        place = next;
    }
    Ok(place)
}
