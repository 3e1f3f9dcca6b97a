//! The words with which lines begin that define something.
ghost use Rattle.std.specs.Prelude.{◌≡◌};
ghost use Rattle.ruleset_text.specs.Definition as definitions;

use crate::names::is_word;

/// The word with which a line begins that defines something.
#[derive(Clone, Copy, PartialEq, Eq)]
pub enum Keyword {
    /// `%type`
    VariantType,
    /// `%set`
    Set,
    /// `%rule`, of a context rule
    Rule,
    /// `%whole`, of a whole-label rule
    Whole,
    /// `%never`
    Never,
    /// `%always`
    Always,
    /// `%action`
    Action,
}

/// The keyword that a word is, if it is one.
pub fn keyword_of(word: &[u8]) -> Option<Keyword>
    ensures { result ≡ definitions.keyword_of word.now }
{
    if is_word(word, b"%type") {
        return Some(Keyword::VariantType);
    }
    if is_word(word, b"%set") {
        return Some(Keyword::Set);
    }
    if is_word(word, b"%rule") {
        return Some(Keyword::Rule);
    }
    if is_word(word, b"%whole") {
        return Some(Keyword::Whole);
    }
    if is_word(word, b"%never") {
        return Some(Keyword::Never);
    }
    if is_word(word, b"%always") {
        return Some(Keyword::Always);
    }
    if is_word(word, b"%action") {
        return Some(Keyword::Action);
    }
    None
}
