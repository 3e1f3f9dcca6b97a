//! Code points and counts (RFC 7940, appendix D).
ghost use Rattle.std.specs.Prelude.{◌≡◌, ◌<◌, ◌==◌, length, not, position, IfOk, IfSome};
ghost use Rattle.std.specs.List.{list_all};
ghost use Rattle.std.specs.Option.{option_map};
ghost use Rattle.lgr_text.specs.Values as values;

use crate::records::Count;
use crate::words::next_word;
use idn_text::hex_point;
use label_patterns::Span;
use std::alloc::{AllocError, Global};

/// The scalar value that 4 to 6 hexadecimal digits in upper case write.
pub fn point_of(word: &[u8]) -> Option<u32>
    ensures { result ≡ values.point word.now }
{
    if has_no_small_letter(word) {
        hex_point(word)
    } else {
        None
    }
}

fn has_no_small_letter(word: &[u8]) -> bool
    ensures { result ≡ list_all (λ b. not (values.is_small_letter b)) word.now }
{
    word.iter().all(|byte| !is_small_letter(*byte))
}

fn is_small_letter(byte: u8) -> bool
    ensures { result ≡ values.is_small_letter byte }
{
    matches!(byte, b'a'..=b'z')
}

/// The code points that a value lists; there may be none.
pub fn points_of(alloc: Global, text: &[u8]) -> Result<Option<Vec<u32>>, AllocError>
    ensures { IfOk result (λ found. option_map (λ v. v.items) found ≡ values.points text.now) }
{
    let mut points = Vec::new(alloc);
    let mut rest = text;
    while let Some((word, after)) = next_word(rest) {
        let Some(point) = point_of(word) else {
            return Ok(None);
        };
        points.push(point)?;
        rest = after;
    }
    Ok(Some(points))
}

/// The span of a code point or of a range with a hyphen.
pub fn span_of(word: &[u8]) -> Option<Span>
    ensures { result ≡ values.span word.now }
{
    match hyphen_in(word) {
        Some(place) => span_between(point_of(&word[..place]), point_of(&word[place + 1..])),
        None => span_between(point_of(word), point_of(word)),
    }
}

/// The place of the first hyphen.
fn hyphen_in(word: &[u8]) -> Option<usize>
    ensures is { result ≡ position (λ b. b == 45) word.now }
    ensures within { IfSome result (λ place. place < length word.now) }
{
    word.iter().position(|byte| *byte == b'-')
}

/// The span of two code points, if both are there and it isn't empty.
pub fn span_between(first: Option<u32>, last: Option<u32>) -> Option<Span>
    ensures { result ≡ values.span_between first last }
{
    let (first, last) = (first?, last?);
    if first <= last {
        Some(Span { first, last })
    } else {
        None
    }
}

/// The spans that a text lists, one or more.
pub fn spans_of(alloc: Global, text: &[u8]) -> Result<Option<Vec<Span>>, AllocError>
    ensures { IfOk result (λ found. option_map (λ v. v.items) found ≡ values.spans text.now) }
{
    let mut spans = Vec::new(alloc);
    let mut rest = text;
    while let Some((word, after)) = next_word(rest) {
        let Some(span) = span_of(word) else {
            return Ok(None);
        };
        spans.push(span)?;
        rest = after;
    }
    Ok(if spans.is_empty() { None } else { Some(spans) })
}

/// How often, as `n`, `n+` or `n:m`.
pub fn count_of(text: &[u8]) -> Option<Count>
    ensures { result ≡ values.count text.now }
{
    let Some(place) = end_of_digits(text) else {
        return count_between(number_of(text), number_of(text));
    };
    let (least, rest) = text.split_at(place);
    match rest {
        [b':', most @ ..] => count_between(number_of(least), number_of(most)),
        [b'+'] => count_from(number_of(least)),
        _ => None,
    }
}

/// The place of the first byte that is no digit.
fn end_of_digits(text: &[u8]) -> Option<usize>
    ensures is { result ≡ position (λ b. not (values.is_decimal_digit b)) text.now }
    ensures within { IfSome result (λ place. place < length text.now) }
{
    text.iter().position(|byte| !is_decimal_digit(*byte))
}

fn count_between(least: Option<u32>, most: Option<u32>) -> Option<Count>
    ensures { result ≡ values.count_between least most }
{
    let (least, most) = (least?, most?);
    if least <= most && 1 <= most {
        Some(Count {
            least,
            most: Some(most),
        })
    } else {
        None
    }
}

fn count_from(least: Option<u32>) -> Option<Count>
    ensures { result ≡ values.count_from least }
{
    match least {
        Some(least) => Some(Count { least, most: None }),
        None => None,
    }
}

/// The number that one to nine digits write.
#[tactic(auto, unfolding(crate::specs::Values::number))]
pub(crate) fn number_of(digits: &[u8]) -> Option<u32>
    ensures { result ≡ values.number digits.now }
{
    if digits.is_empty() || digits.len() > 9 {
        return None;
    }
    let mut value = 0;
    for digit in digits {
        value = value * 10 + char::from(*digit).to_digit(10)?;
    }
    Some(value)
}

fn is_decimal_digit(byte: u8) -> bool
    ensures { result ≡ values.is_decimal_digit byte }
{
    matches!(byte, b'0'..=b'9')
}
