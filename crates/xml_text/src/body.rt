//! Reading what follows the declaration of a document.
ghost use Rattle.std.specs.Prelude.{◌≡◌, ◌+◌, ◌≤◌, false, length, IfOk, IfErr, OnOk};
ghost use Rattle.xml_text.specs.Documents.{IsBody};
ghost use Rattle.xml_text.specs.Files.{StopsBody, max_bytes};
ghost use Rattle.xml_text.specs.LineEnds.{line_feeds};
ghost use Rattle.xml_text.specs.inner.DocumentSteps as steps;

use crate::document_state::DocumentState;
use crate::fault::ReadError;
use crate::token::Token;
use bumpalo::Bump;
use std::alloc::Global;

/// What a document says whose declaration is followed by this text, which begins on this line.
pub fn read_body<'a>(
    alloc: Global,
    arena: &'a Bump,
    text: &'a [u8],
    line: usize,
) -> Result<Vec<Token<'a>>, ReadError>
    requires short { length text.now ≤ max_bytes }
    requires line { line ≤ max_bytes + 1 }
    ensures read { IfOk result (λ tokens. IsBody line (line_feeds text.now) tokens.items) }
    ensures stop { IfErr result (StopsBody line text.now) }
{
    let mut state = DocumentState::new(alloc, arena, line);
    let read = read_by(&mut state, text);
    let tokens = state.into_tokens();
    read?;
    Ok(tokens)
}

/// Reads all that follows a declaration, by a state that has read nothing.
// Always inline: its one caller owns the state.
#[inline(always)]
fn read_by<'a>(state: &mut DocumentState<'a>, text: &'a [u8]) -> Result<(), ReadError>
    requires start { steps.state state.old ≡ steps.start state.old.line }
    requires after { state.old.is_after_return ≡ false }
    requires short { length text.now ≤ max_bytes }
    requires line { state.old.line ≤ max_bytes + 1 }
    ensures read { OnOk result (IsBody state.old.line (line_feeds text.now) state.new.tokens.items) }
    ensures stop { IfErr result (StopsBody state.old.line text.now) }
{
    let mut place = 0;
    while place < text.len() {
        let (_, rest) = text.split_at(place);
        match state.read(rest)? {
            Some(taken) => place += taken,
            None => return Err(ReadError::Stop(place)),
        }
    }
    if state.is_complete() {
        Ok(())
    } else {
        Err(ReadError::Stop(text.len()))
    }
}
