//! The lexemes of a line with their places.
ghost use Rattle.std.specs.Prelude.{◌≡◌, ◌≤◌, [], ◌∷◌, length, MatchOption};
ghost use Rattle.ruleset_text.specs.DefinitionPlaces.{first_place};
ghost use Rattle.ruleset_text.specs.PlacedLexemes.{placed_lexemes};

use crate::fault::FaultPlace;
use crate::lexemes::next_lexeme;
use std::marker::Model;

/// The lexemes of a line that are still to come, with their places. A place is a byte of the line, counted from 0.
#[derive(Drop)]
pub struct PlacedLexemes<'a> {
    /// How many bytes of the line stand before the rest.
    before: usize,
    rest: &'a [u8],
}

impl<'a> Model for PlacedLexemes<'a> {
    ghost use Rattle.std.specs.Prelude.{List, ◌+◌, ◌<◌, ◌^◌, length};
    ghost use Rattle.ruleset_text.specs.PlacedLexemes.{Placed, placed_from};

    ghost Value = { List Placed };

    ghost view = { λ lexemes. placed_from lexemes.before lexemes.rest.now };

    ghost invariant = { λ lexemes. lexemes.before + length lexemes.rest.now < 2 ^ 64 };
}

impl<'a> PlacedLexemes<'a> {
    /// All lexemes of a line.
    pub fn new(line: &'a [u8]) -> Self
        ensures are { result ≡ placed_lexemes line.now }
        ensures few { length result ≤ length line.now }
    {
        PlacedLexemes {
            before: 0,
            rest: line,
        }
    }

    /// The same lexemes once more.
    pub fn again(&self) -> PlacedLexemes<'a>
        ensures { result ≡ self.now }
    {
        PlacedLexemes {
            before: self.before,
            rest: self.rest,
        }
    }

    /// Where the next lexeme stands.
    pub fn first_place(&self) -> Option<FaultPlace>
        ensures { result ≡ first_place self.now }
    {
        let (place, lexeme) = self.again().next()?;
        Some(FaultPlace::Lexeme(place, lexeme.len()))
    }

    /// The next lexeme, and before it its place.
    // Always inline, as what it calls: an entry is read by it.
    #[inline(always)]
    pub fn next(&mut self) -> Option<(usize, &'a [u8])>
        ensures { MatchOption result (self.old ≡ [])
            (λ found. self.old ≡ record { place = found.0; lexeme = found.1.now } ∷ self.new) }
    {
        let (lexeme, others) = next_lexeme(self.rest)?;
        let place = self.before + (self.rest.len() - others.len() - lexeme.len());
        self.before = place + lexeme.len();
        self.rest = others;
        Some((place, lexeme))
    }
}
