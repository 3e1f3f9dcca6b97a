//! The lexemes of a line as tokens of a pattern.
ghost use Rattle.std.specs.Prelude.{◌≡◌, List, ℕ};
ghost use Rattle.ruleset_text.specs.Tokens as tokens;

use crate::names::{Name, is_name, number_of};
use crate::token::Token;
use idn_text::hex_point;

/// The token of a lexeme.
pub fn token_of(names: &[Name], lexeme: &[u8]) -> Token
    ensures { result ≡ tokens.token_of names.now lexeme.now }
{
    match lexeme {
        [] => Token::Other,
        [mark] => mark_token(*mark),
        [first, others @ ..] => {
            if *first == b'@' {
                set_token(names, others)
            } else {
                word_token(lexeme)
            }
        }
    }
}

fn mark_token(byte: u8) -> Token
    ensures { result ≡ tokens.mark_token byte }
{
    match byte {
        b'(' => Token::Open,
        b')' => Token::Close,
        b'?' => Token::Optional,
        b'*' => Token::Many,
        b'/' => Token::Or,
        b'^' => Token::Start,
        b'$' => Token::End,
        b'.' => Token::Any,
        b'_' => Token::Anchor,
        _ => Token::Other,
    }
}

fn set_token(names: &[Name], name: &[u8]) -> Token
    ensures { result ≡ tokens.set_token names.now name.now }
{
    if is_name(name) {
        Token::Set(number_of(names, name))
    } else {
        Token::Other
    }
}

fn word_token(word: &[u8]) -> Token
    ensures { result ≡ tokens.word_token word.now }
{
    match hex_point(without_prefix(word)) {
        Some(point) => Token::Point(point),
        None => Token::Other,
    }
}

/// What follows `U+` or `u+`, or the whole word if it begins with neither.
pub fn without_prefix(word: &[u8]) -> &[u8]
    ensures { result.now ≡ tokens.without_prefix word.now }
{
    match word {
        [b'U' | b'u', b'+', digits @ ..] => digits,
        _ => word,
    }
}
