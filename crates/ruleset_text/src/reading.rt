//! Reading a pattern from its first lexeme to its last.
ghost use Rattle.std.specs.Prelude.{◌≡◌, ◌+◌, ◌<◌, ◌≤◌, ◌^◌, length, IfOk};
ghost use Rattle.std.specs.Option.{option_map};
ghost use Rattle.label_patterns.specs.Trees.{pattern};
ghost use Rattle.ruleset_text.specs.DefinitionReading.{pattern_read};
ghost use Rattle.ruleset_text.specs.LineFaults as places;
ghost use Rattle.ruleset_text.specs.PatternSigns as words;
ghost use Rattle.ruleset_text.specs.Pieces.{state, taken_as};
ghost use Rattle.ruleset_text.specs.inner.DefinitionSteps.{GivesPattern};
ghost use Rattle.ruleset_text.specs.inner.PatternSteps.{token_point};

use crate::classes::bad_place;
use crate::fault::{FaultPlace, LineFaults, ReadError};
use crate::limits::{past_limit, without_atom};
use crate::names::Name;
use crate::pieces::{Piece, ended, step};
use crate::placed::PlacedLexemes;
use crate::signs::Signs;
use crate::token::Token;
use crate::tokens::token_of;
use idn_class::Properties;
use label_patterns::PatternTree;
use std::alloc::{AllocError, Global};

/// What is known before a line: the types that are not predefined, the names of the sets, the rules, how many atoms its
/// pattern may have, and whose classes are asked.
#[derive(Clone, Copy)]
pub struct Earlier<'a> {
    pub types: &'a [Name],
    pub sets: &'a [Name],
    pub rule_names: &'a [Name],
    pub rules: &'a [PatternTree],
    pub atoms_left: usize,
    pub properties: Properties,
}

/// A pattern, how many atoms further ones may have, and its faults.
#[derive(Drop)]
pub struct ReadPattern {
    pub tree: PatternTree,
    pub atoms_left: usize,
    pub faults: LineFaults,
}

/// The contexts of a context rule, or a pattern without `_`, that lexemes spell, to the end of a line of `end` bytes.
pub fn read_pattern(
    alloc: Global,
    is_rule: bool,
    earlier: Earlier<'_>,
    mut lexemes: PlacedLexemes<'_>,
    end: usize,
) -> Result<ReadPattern, ReadError>
    requires { length lexemes < 2 ^ 63 }
    ensures { GivesPattern earlier.entry lexemes.entry result
        (pattern_read is_rule earlier.entry.sets.now end lexemes.entry) }
{
    let mut pieces = Vec::new(alloc);
    let mut signs = Signs::new();
    let mut atoms_left = earlier.atoms_left;
    let mut faults = LineFaults::none();
    while let Some((place, lexeme)) = lexemes.next() {
        let token = token_of(earlier.sets, lexeme);
        let at = FaultPlace::Lexeme(place, lexeme.len());
        faults.limit = past_limit(faults.limit, &pieces, signs.groups, atoms_left, token, at);
        faults.name = faults.name.or(unknown_place(earlier.sets.len(), token, at));
        faults.class = faults
            .class
            .or(token_place(alloc, earlier.properties, token, place)?);
        atoms_left = without_atom(atoms_left, token);
        if !take(alloc, is_rule, &mut pieces, &mut signs, token)? {
            return Err(ReadError::Stop(at));
        }
    }
    match pattern_of(alloc, is_rule, pieces, signs)? {
        Some(tree) => Ok(ReadPattern {
            tree,
            atoms_left,
            faults,
        }),
        None => Err(ReadError::Stop(FaultPlace::End(end))),
    }
}

/// The place of a set that is none of so many.
fn unknown_place(sets: usize, token: Token, at: FaultPlace) -> Option<FaultPlace>
    ensures { result ≡ places.unknown_place sets at token }
{
    match token {
        Token::Set(set) => (set >= sets).then_some(at),
        _ => None,
    }
}

/// The place of a code point that no label can have.
fn token_place(
    alloc: Global,
    properties: Properties,
    token: Token,
    place: usize,
) -> Result<Option<FaultPlace>, AllocError>
    ensures { IfOk result (λ found. found ≡ places.bad_place properties place (token_point token)) }
{
    match token {
        Token::Point(point) => bad_place(alloc, properties, place, point),
        _ => Ok(None),
    }
}

/// Adds a token, and answers whether it may stand there. If it may not, or memory was refused, what was read is of no
/// use any more.
fn take(
    alloc: Global,
    is_rule: bool,
    pieces: &mut Vec<Piece>,
    signs: &mut Signs,
    token: Token,
) -> Result<bool, AllocError>
    requires few { signs.old.groups + 1 < 2 ^ 64 }
    ensures state { IfOk result (λ taken. words.step_in is_rule (state pieces.old.items signs.old) token ≡
        taken_as taken (state pieces.new.items signs.new)) }
    ensures few { signs.new.groups ≤ signs.old.groups + 1 }
{
    if !signs.may_stand(is_rule, token) {
        return Ok(false);
    }
    if !step(alloc, pieces, token)? {
        return Ok(false);
    }
    *signs = signs.after(token);
    Ok(true)
}

/// The pattern, if nothing is left open, and no `_` is missing.
fn pattern_of(
    alloc: Global,
    is_rule: bool,
    pieces: Vec<Piece>,
    signs: Signs,
) -> Result<Option<PatternTree>, AllocError>
    ensures { IfOk result (λ found. words.ended_in is_rule (state pieces.items signs) ≡ option_map pattern found) }
{
    if is_rule && !signs.passed {
        return Ok(None);
    }
    ended(alloc, pieces)
}
