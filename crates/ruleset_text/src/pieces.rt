//! What was read of a pattern, token by token.
ghost use Rattle.std.specs.Prelude.{◌≡◌, ◌∷◌, Some, IfOk, OnOk};
ghost use Rattle.std.specs.Option.{option_map};
ghost use Rattle.label_patterns.specs.Patterns as patterns;
ghost use Rattle.label_patterns.specs.Trees.{pattern};
ghost use Rattle.ruleset_text.specs.Reading as steps;
ghost use Rattle.ruleset_text.specs.Pieces.{piece as piece_of, pieces as pieces_of, taken_as};

use crate::token::Token;
use label_patterns::PatternTree;
use std::alloc::{AllocError, Global};

/// A part of a pattern that isn't complete.
#[derive(Drop)]
pub enum Piece {
    /// `(`
    Opening,
    /// A branch, and the `/` after it.
    Branched(PatternTree),
    /// An item, and whether `?` or `*` may follow it.
    Part(PatternTree, bool),
}

/// Adds a token, and answers whether it may stand there. If it may not, or memory was refused, the pieces are of no use
/// any more.
pub fn step(alloc: Global, pieces: &mut Vec<Piece>, token: Token) -> Result<bool, AllocError>
    ensures { IfOk result (λ taken. steps.step (pieces_of pieces.old.items) token ≡
        taken_as taken (pieces_of pieces.new.items)) }
{
    match token {
        Token::Point(point) => add(pieces, Piece::Part(PatternTree::Point(point), true)),
        Token::Set(set) => add(pieces, Piece::Part(PatternTree::Set(set), true)),
        Token::Any => add(pieces, Piece::Part(PatternTree::Any, true)),
        Token::Start => add(pieces, Piece::Part(PatternTree::Start, false)),
        Token::End => add(pieces, Piece::Part(PatternTree::End, false)),
        Token::Anchor => add(pieces, Piece::Part(PatternTree::Anchor, false)),
        Token::Open => add(pieces, Piece::Opening),
        Token::Close => close(alloc, pieces),
        Token::Optional => at_most_once(alloc, pieces),
        Token::Many => any_number(alloc, pieces),
        Token::Or => bar(alloc, pieces),
        Token::Other => Ok(false),
    }
}

/// The pattern, if nothing is left open.
pub fn ended(alloc: Global, pieces: Vec<Piece>) -> Result<Option<PatternTree>, AllocError>
    ensures { IfOk result (λ found. steps.ended (pieces_of pieces.items) ≡ option_map pattern found) }
{
    let mut pieces = pieces;
    let Some(Piece::Part(last, _)) = pieces.pop() else {
        return Ok(None);
    };
    let branch = take_items(alloc, &mut pieces, last)?;
    let whole = take_branches(alloc, &mut pieces, branch)?;
    Ok(if pieces.is_empty() { Some(whole) } else { None })
}

fn add(pieces: &mut Vec<Piece>, piece: Piece) -> Result<bool, AllocError>
    ensures { IfOk result (λ taken. taken_as taken (pieces_of pieces.new.items) ≡
        Some (piece_of piece ∷ pieces_of pieces.old.items)) }
{
    pieces.push(piece)?;
    Ok(true)
}

/// Adds `?` to the atom before it.
fn at_most_once(alloc: Global, pieces: &mut Vec<Piece>) -> Result<bool, AllocError>
    ensures { IfOk result (λ taken. steps.with_sign patterns.Optional (pieces_of pieces.old.items) ≡
        taken_as taken (pieces_of pieces.new.items)) }
{
    let Some(Piece::Part(atom, true)) = pieces.pop() else {
        return Ok(false);
    };
    let item = PatternTree::Optional(Box::new(alloc, atom)?);
    pieces.push(Piece::Part(item, false))?;
    Ok(true)
}

/// Adds `*` to the atom before it.
fn any_number(alloc: Global, pieces: &mut Vec<Piece>) -> Result<bool, AllocError>
    ensures { IfOk result (λ taken. steps.with_sign patterns.Many (pieces_of pieces.old.items) ≡
        taken_as taken (pieces_of pieces.new.items)) }
{
    let Some(Piece::Part(atom, true)) = pieces.pop() else {
        return Ok(false);
    };
    let item = PatternTree::Many(Box::new(alloc, atom)?);
    pieces.push(Piece::Part(item, false))?;
    Ok(true)
}

/// Completes a branch by its `/`.
fn bar(alloc: Global, pieces: &mut Vec<Piece>) -> Result<bool, AllocError>
    ensures { IfOk result (λ taken. steps.with_bar (pieces_of pieces.old.items) ≡
        taken_as taken (pieces_of pieces.new.items)) }
{
    let Some(Piece::Part(last, _)) = pieces.pop() else {
        return Ok(false);
    };
    let branch = take_items(alloc, pieces, last)?;
    pieces.push(Piece::Branched(branch))?;
    Ok(true)
}

/// Completes a group by its `)`.
fn close(alloc: Global, pieces: &mut Vec<Piece>) -> Result<bool, AllocError>
    ensures { IfOk result (λ taken. steps.ending steps.with_close (pieces_of pieces.old.items) ≡
        taken_as taken (pieces_of pieces.new.items)) }
{
    let Some(Piece::Part(last, _)) = pieces.pop() else {
        return Ok(false);
    };
    let branch = take_items(alloc, pieces, last)?;
    let whole = take_branches(alloc, pieces, branch)?;
    let Some(Piece::Opening) = pieces.pop() else {
        return Ok(false);
    };
    let group = PatternTree::Group(Box::new(alloc, whole)?);
    pieces.push(Piece::Part(group, true))?;
    Ok(true)
}

/// Takes the items off with which the pieces end: a branch, of which `last` is the last item.
fn take_items(
    alloc: Global,
    pieces: &mut Vec<Piece>,
    last: PatternTree,
) -> Result<PatternTree, AllocError>
    ensures branch { IfOk result (λ branch. pattern branch ≡ steps.items (pattern last) (pieces_of pieces.old.items)) }
    ensures before { OnOk result (pieces_of pieces.new.items ≡ steps.before_items (pieces_of pieces.old.items)) }
{
    let mut branch = last;
    while let Some(piece) = pieces.pop() {
        match piece {
            Piece::Part(item, _) => {
                branch = PatternTree::Then(Box::new(alloc, item)?, Box::new(alloc, branch)?);
            }
            other => {
                pieces.push(other)?;
                return Ok(branch);
            }
        }
    }
    Ok(branch)
}

/// Takes the branches off with which the pieces end: a whole pattern, of which `last` is the last branch.
fn take_branches(
    alloc: Global,
    pieces: &mut Vec<Piece>,
    last: PatternTree,
) -> Result<PatternTree, AllocError>
    ensures whole { IfOk result (λ whole. pattern whole ≡ steps.branches (pattern last) (pieces_of pieces.old.items)) }
    ensures before { OnOk result (pieces_of pieces.new.items ≡ steps.before_branches (pieces_of pieces.old.items)) }
{
    let mut whole = last;
    while let Some(piece) = pieces.pop() {
        match piece {
            Piece::Branched(branch) => {
                whole = PatternTree::Either(Box::new(alloc, branch)?, Box::new(alloc, whole)?);
            }
            other => {
                pieces.push(other)?;
                return Ok(whole);
            }
        }
    }
    Ok(whole)
}
