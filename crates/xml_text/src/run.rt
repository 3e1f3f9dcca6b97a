//! Runs: bytes in a row that are read at once.
ghost use Rattle.std.specs.Prelude.{◌≡◌, ◌<◌, ◌≤◌, Some, None, true, false, not, if◌then◌else◌};
ghost use Rattle.std.specs.Prelude.{length, map, take, drop};
ghost use Rattle.std.specs.List.{list_all};
ghost use Rattle.std.specs.Simd.Lanes.{mask_l};
ghost use Rattle.xml_text.specs.Names.{is_name_byte};
ghost use Rattle.xml_text.specs.inner.Runs as words;

use crate::bytes::is_name_byte;
use crate::quote::Quote;
use std::simd::prelude::*;

/// How many bytes are looked at at once.
const LANES: usize = 16;

/// What a run is a part of. It has no end of a line after its first byte.
#[derive(Clone, Copy, PartialEq, Eq)]
pub enum Run {
    /// The name of a tag or an attribute.
    Name,
    /// The value of an attribute.
    Value(Quote),
    /// The text between two tags.
    Text,
    /// A section of character data.
    Section,
    /// A comment.
    Comment,
    /// A processing instruction.
    Instruction,
}

impl Run {
    /// Whether a byte that isn't the first one is read with those before it.
    #[inline(always)]
    fn goes_on(self, byte: u8) -> bool
        ensures { result ≡ words.goes_on self byte }
    {
        match self {
            Run::Name => is_name_byte(byte),
            Run::Value(quote) => {
                byte != quote.byte() && !matches!(byte, b'<' | b'&' | b'\t' | b'\n' | b'\r')
            }
            Run::Text => !matches!(byte, b'<' | b'&' | b'>' | b']' | b'\n' | b'\r'),
            Run::Section => !matches!(byte, b']' | b'\n' | b'\r'),
            Run::Comment => !matches!(byte, b'-' | b'\n' | b'\r'),
            Run::Instruction => !matches!(byte, b'?' | b'\n' | b'\r'),
        }
    }

    /// How many bytes are read at once of a text whose first byte is.
    #[inline(always)]
    pub fn len(self, text: &[u8]) -> usize
        requires { 0 < length text.now }
        ensures some { 0 < result }
        ensures within { result ≤ length text.now }
        ensures run { list_all (words.goes_on self) (drop 1 (take result text.now)) ≡ true }
    {
        let (_, others) = text.split_at(1);
        self.lead(others) + 1
    }

    /// How many bytes with which a text begins are read with those before it.
    #[inline(always)]
    pub fn lead(self, text: &[u8]) -> usize
        ensures within { result ≤ length text.now }
        ensures run { list_all (words.goes_on self) (take result text.now) ≡ true }
    {
        let mut place = 0;
        while text.len() - place >= LANES {
            let stops = self.stops(u8x16::from_slice(&text[place..]));
            if stops != 0 {
                return place + stops.trailing_zeros() as usize;
            }
            place += LANES;
        }
        self.lead_on(text, place)
    }

    /// How many bytes with which a text begins are read with those before it, of which so many were seen.
    fn lead_on(self, text: &[u8], seen: usize) -> usize
        requires within { seen ≤ length text.now }
        requires run { list_all (words.goes_on self) (take seen text.now) ≡ true }
        ensures within { result ≤ length text.now }
        ensures run { list_all (words.goes_on self) (take result text.now) ≡ true }
    {
        let mut place = seen;
        while place < text.len() && self.goes_on(text[place]) {
            place += 1;
        }
        place
    }

    /// A bit for each byte of a block at which a run ends, the lowest for the first byte.
    #[inline(always)]
    fn stops(self, block: u8x16) -> u64
        ensures { result ≡ mask_l (map (λ b. not (words.goes_on self b)) block) }
    {
        let line = block.simd_eq(u8x16::splat(b'\n')) | block.simd_eq(u8x16::splat(b'\r'));
        match self {
            Run::Name => names_end(block),
            Run::Value(quote) => (block.simd_eq(u8x16::splat(quote.byte()))
                | block.simd_eq(u8x16::splat(b'<'))
                | block.simd_eq(u8x16::splat(b'&'))
                | block.simd_eq(u8x16::splat(b'\t'))
                | line).to_bitmask(),
            Run::Text => (block.simd_eq(u8x16::splat(b'<'))
                | block.simd_eq(u8x16::splat(b'&'))
                | block.simd_eq(u8x16::splat(b'>'))
                | block.simd_eq(u8x16::splat(b']'))
                | line).to_bitmask(),
            Run::Section => (block.simd_eq(u8x16::splat(b']')) | line).to_bitmask(),
            Run::Comment => (block.simd_eq(u8x16::splat(b'-')) | line).to_bitmask(),
            Run::Instruction => (block.simd_eq(u8x16::splat(b'?')) | line).to_bitmask(),
        }
    }
}

/// A bit for each byte of a block that may not stand in a name.
#[inline(always)]
fn names_end(block: u8x16) -> u64
    ensures { result ≡ mask_l (map (λ b. not (is_name_byte b)) block) }
{
    let letter = (block | u8x16::splat(0x20)) - u8x16::splat(b'a');
    // '0' to '9', and ':' after them
    let digit = block - u8x16::splat(b'0');
    // '-' and '.'
    let dash = block - u8x16::splat(b'-');
    (letter.simd_ge(u8x16::splat(26))
        & digit.simd_ge(u8x16::splat(11))
        & dash.simd_ge(u8x16::splat(2))
        & block.simd_ne(u8x16::splat(b'_'))).to_bitmask()
}

/// How many bytes are read where one was tried.
#[inline(always)]
pub fn one(is_taken: bool) -> Option<usize>
    ensures { result ≡ (if is_taken then Some 1 else None) }
{
    if is_taken { Some(1) } else { None }
}
