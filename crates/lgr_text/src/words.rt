//! The words of a text: what stands between its blanks.
ghost use Rattle.std.specs.Prelude.{◌≡◌, ◌<◌, ◌≤◌, [], ◌∷◌, length, drop, not, MatchOption, IfSome};
ghost use Rattle.std.specs.List.{position_or_len};
ghost use Rattle.lgr_text.specs.Words as words;
ghost use Rattle.xml_text.specs.Names as names;

use xml_text::is_blank;

/// The first word of a text, and what follows it.
#[inline]
pub fn next_word(text: &[u8]) -> Option<(&[u8], &[u8])>
    ensures is { MatchOption result (words.words text.now ≡ [])
        (λ found. words.words text.now ≡ found.0.now ∷ words.words found.1.now) }
    ensures shorter { IfSome result (λ found. length found.1.now < length text.now) }
{
    let text = without_blanks(text);
    if text.is_empty() {
        return None;
    }
    Some(text.split_at(word_len(text)))
}

/// What follows the blanks at the front.
fn without_blanks(text: &[u8]) -> &[u8]
    ensures is { result.now ≡ drop (position_or_len (λ b. not (names.is_blank b)) text.now) text.now }
    ensures within { length result.now ≤ length text.now }
{
    let start = text
        .iter()
        .position(|byte| !is_blank(*byte))
        .unwrap_or(text.len());
    &text[start..]
}

/// How many bytes there are before a blank.
fn word_len(text: &[u8]) -> usize
    ensures place { result ≡ position_or_len names.is_blank text.now }
    ensures within { result ≤ length text.now }
{
    text.iter()
        .position(|byte| is_blank(*byte))
        .unwrap_or(text.len())
}
