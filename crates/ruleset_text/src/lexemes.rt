//! The lexemes of a line: marks, runs of full stops, and words.
ghost use Rattle.std.specs.Prelude.{◌≡◌, ◌<◌, ◌≤◌, [], ◌∷◌, ◌++◌, length, take, drop, not, false, slice_index};
ghost use Rattle.std.specs.Prelude.{MatchOption, IfSome};
ghost use Rattle.std.specs.List.{position_or_len};
ghost use Rattle.ruleset_text.specs.Lexemes as lexemes;
ghost use Rattle.ruleset_text.specs.Lexemes.{lexemes as lexemes_of};

/// The first lexeme of a line, and what follows it.
// Always inline, with all that it calls: reading an entry calls it for each lexeme.
#[inline(always)]
pub fn next_lexeme(line: &[u8]) -> Option<(&[u8], &[u8])>
    ensures is { MatchOption result (lexemes_of line.now ≡ [])
        (λ found. lexemes_of line.now ≡ found.0.now ∷ lexemes_of found.1.now) }
    ensures cut { IfSome result (λ found. drop (position_or_len (λ c. not (lexemes.is_blank c)) line.now) line.now ≡
        found.0.now ++ found.1.now) }
    ensures shorter { IfSome result (λ found. length found.1.now < length line.now) }
{
    let text = without_blanks(line);
    if text.is_empty() {
        return None;
    }
    Some(text.split_at(lexeme_len(text)))
}

/// What follows the spaces and tabs at the front.
pub fn without_blanks(text: &[u8]) -> &[u8]
    ensures is { result.now ≡ drop (position_or_len (λ c. not (lexemes.is_blank c)) text.now) text.now }
    ensures within { length result.now ≤ length text.now }
{
    let start = text
        .iter()
        .position(|byte| !is_blank(*byte))
        .unwrap_or(text.len());
    &text[start..]
}

/// How many bytes the lexeme has with which the text begins.
#[inline(always)]
fn lexeme_len(text: &[u8]) -> usize
    requires some { 0 < length text.now }
    requires front { lexemes.is_blank (slice_index text.now 0) ≡ false }
    ensures is { lexemes_of text.now ≡ take result text.now ∷ lexemes_of (drop result text.now) }
    ensures some { 0 < result }
    ensures within { result ≤ length text.now }
{
    let first = text[0];
    if is_mark(first) {
        1
    } else if is_full_stop(first) {
        stops_len(text)
    } else {
        word_len(text)
    }
}

/// How many full stops there are at the front.
#[inline(always)]
fn stops_len(text: &[u8]) -> usize
    ensures place { result ≡ position_or_len (λ c. not (lexemes.is_full_stop c)) text.now }
    ensures within { result ≤ length text.now }
{
    text.iter()
        .position(|byte| !is_full_stop(*byte))
        .unwrap_or(text.len())
}

/// How many bytes there are before a blank, a mark or a full stop.
#[inline(always)]
fn word_len(text: &[u8]) -> usize
    ensures place { result ≡ position_or_len lexemes.is_word_end text.now }
    ensures within { result ≤ length text.now }
{
    text.iter()
        .position(|byte| is_word_end(*byte))
        .unwrap_or(text.len())
}

fn is_blank(byte: u8) -> bool
    ensures { result ≡ lexemes.is_blank byte }
{
    matches!(byte, b' ' | b'\t')
}

fn is_mark(byte: u8) -> bool
    ensures { result ≡ lexemes.is_mark byte }
{
    matches!(
        byte,
        b'-' | b'|' | b':' | b'!' | b',' | b'/' | b'(' | b')' | b'?' | b'*' | b'^' | b'$'
    )
}

fn is_full_stop(byte: u8) -> bool
    ensures { result ≡ lexemes.is_full_stop byte }
{
    byte == b'.'
}

fn is_word_end(byte: u8) -> bool
    ensures { result ≡ lexemes.is_word_end byte }
{
    is_blank(byte) || is_mark(byte) || is_full_stop(byte)
}
