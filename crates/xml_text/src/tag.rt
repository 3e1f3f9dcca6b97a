//! Reading a tag.
ghost use Rattle.std.specs.Prelude.{◌≡◌, ◌≤◌, length, take, IfOk, IfErr};
ghost use Rattle.xml_text.specs.TagStops.{StopsAt};
ghost use Rattle.xml_text.specs.Tags.{IsTag, tag};
ghost use Rattle.xml_text.specs.inner.TagSteps as steps;

use crate::attribute::Tag;
use crate::fault::ReadError;
use crate::state::TagState;
use bumpalo::Bump;
use std::alloc::Global;

/// The tag with which a text begins, and how many bytes it has. The text is characters of XML, and its lines end in
/// line feeds alone (section 2.11).
pub fn read_tag<'a>(
    alloc: Global,
    arena: &'a Bump,
    text: &'a [u8],
) -> Result<(Tag<'a>, usize), ReadError>
    ensures read { IfOk result (λ read. IsTag (take read.1 text.now) (tag read.0)) }
    ensures within { IfOk result (λ read. read.1 ≤ length text.now) }
    ensures stop { IfErr result (StopsAt text.now) }
{
    let mut state = TagState::new(alloc, arena);
    read_by(&mut state, text)
}

/// The tag with which a text begins, and how many bytes it has, read by a state that has read nothing.
// Always inline: its one caller owns the state.
#[inline(always)]
fn read_by<'a>(state: &mut TagState<'a>, text: &'a [u8]) -> Result<(Tag<'a>, usize), ReadError>
    requires { steps.state state.old ≡ steps.start }
    ensures read { IfOk result (λ read. IsTag (take read.1 text.now) (tag read.0)) }
    ensures within { IfOk result (λ read. read.1 ≤ length text.now) }
    ensures stop { IfErr result (StopsAt text.now) }
{
    let mut place = 0;
    while place < text.len() {
        let (_, rest) = text.split_at(place);
        let Some(taken) = state.read(rest)? else {
            return Err(ReadError::Stop(place));
        };
        place += taken;
        if let Some(kind) = state.kind() {
            return Ok((state.take(kind)?, place));
        }
    }
    Err(ReadError::Stop(text.len()))
}
