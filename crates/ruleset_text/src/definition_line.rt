//! A line that is to define something.
ghost use Rattle.std.specs.Prelude.{◌≡◌, ◌<◌, ◌^◌, length, IfOk, MatchResult};
ghost use Rattle.ruleset_text.specs.DefinitionReading.{begun_by};
ghost use Rattle.ruleset_text.specs.PlacedLexemes.{placed_lexemes};

use crate::fault::FaultPlace;
use crate::keyword::{Keyword, keyword_of};
use crate::placed::PlacedLexemes;

/// A line that begins with a keyword.
#[derive(Drop)]
pub struct DefinitionLine<'a> {
    pub keyword: Keyword,
    /// Where the keyword stands.
    pub place: FaultPlace,
    /// The lexemes after it.
    pub after: PlacedLexemes<'a>,
    /// How many bytes the line has.
    pub end: usize,
}

impl<'a> DefinitionLine<'a> {
    /// A line by its keyword; or its first lexeme, if that is no keyword, or its end, if it has no lexeme.
    pub fn begun(line: &'a [u8]) -> Result<Self, FaultPlace>
        ensures line { result ≡ begun_by (length line.now) (placed_lexemes line.now) }
        ensures few { IfOk result (λ line. length line.after < 2 ^ 63) }
    {
        let mut lexemes = PlacedLexemes::new(line);
        let Some((place, word)) = lexemes.next() else {
            return Err(FaultPlace::End(line.len()));
        };
        let place = FaultPlace::Lexeme(place, word.len());
        match keyword_of(word) {
            Some(keyword) => Ok(DefinitionLine {
                keyword,
                place,
                after: lexemes,
                end: line.len(),
            }),
            None => Err(place),
        }
    }
}
