//! The cause of the fault of a table.
ghost use Rattle.std.specs.Prelude.{◌≡◌, drop, take};
ghost use Rattle.std.specs.List.{list_all};
ghost use Rattle.idn2_refusals.specs.TableCauses.{begins_with_mark, is_syntax_of_first, is_visible as is_visible_byte};
ghost use Rattle.idn2_refusals.specs.TableCauses.{may_be_quoted as may_be_quoted_text, quoted as quoted_of};
ghost use Rattle.idn2_refusals.specs.TableCauses.{quoted_at as quoted_in, refusal_cause, told_if};
ghost use Rattle.variant_table.specs.FaultyLines.{line_in};

use crate::cause::{LineCause, Quoted};
use idn2_output::append;
use ruleset_text::FaultPlace;
use variant_table::{TableFault, TableRefusal};

/// The most bytes of a lexeme that is quoted.
const MAX_QUOTED: usize = 32;

/// The cause of the fault of a text, if causes are wanted and one is told.
pub(crate) fn fault_cause_if_wanted(
    wanted: bool,
    text: &[u8],
    refusal: &TableRefusal<'_>,
) -> Option<LineCause>
    ensures { result ≡
        told_if wanted (refusal_cause text.now refusal.now.fault refusal.now.place (line_in refusal.now)) }
{
    if wanted {
        fault_cause(text, refusal)
    } else {
        None
    }
}

/// The cause of the fault of a text, if one is told.
fn fault_cause(text: &[u8], refusal: &TableRefusal<'_>) -> Option<LineCause>
    ensures { result ≡ refusal_cause text.now refusal.now.fault refusal.now.place (line_in refusal.now) }
{
    if begins_with_mark(text) && is_syntax_of_first(refusal.fault) {
        return Some(LineCause::ByteOrderMark);
    }
    let line = refusal.line?;
    let place = refusal.place?;
    Some(LineCause::OfTable(place, quoted_at(line, place)))
}

/// Whether a byte order mark stands at the head of a text.
fn begins_with_mark(text: &[u8]) -> bool
    ensures { result ≡ begins_with_mark text.now }
{
    text.starts_with(b"\xEF\xBB\xBF")
}

/// Whether the fault is that the first line can't be read.
fn is_syntax_of_first(fault: TableFault) -> bool
    ensures { result ≡ is_syntax_of_first fault }
{
    match fault {
        TableFault::Syntax { line } => line == 1,
        _ => false,
    }
}

/// What is quoted of the line of a fault: the lexeme that can't stand there.
fn quoted_at(line: &[u8], place: FaultPlace) -> Quoted
    ensures { result.items ≡ quoted_in line.now place }
{
    match place {
        FaultPlace::Lexeme(place, len) => quoted(lexeme_at(line, place, len)),
        _ => Quoted::new(),
    }
}

/// A lexeme that may be quoted, and nothing of another one.
fn quoted(lexeme: &[u8]) -> Quoted
    ensures { result.items ≡ quoted_of lexeme.now }
{
    let mut text = Quoted::new();
    if may_be_quoted(lexeme) {
        append(&mut text, lexeme);
    }
    text
}

/// The bytes from a place on, as many as there are of `len`.
fn lexeme_at(line: &[u8], place: usize, len: usize) -> &[u8]
    ensures { result.now ≡ take len (drop place line.now) }
{
    let rest = &line[place.min(line.len())..];
    &rest[..len.min(rest.len())]
}

/// Whether a lexeme is short, and each of its bytes is seen where it is printed.
fn may_be_quoted(lexeme: &[u8]) -> bool
    ensures test { result ≡ may_be_quoted_text lexeme.now }
{
    lexeme.len() <= MAX_QUOTED && are_visible(lexeme)
}

fn are_visible(bytes: &[u8]) -> bool
    ensures { result ≡ list_all is_visible_byte bytes.now }
{
    bytes.iter().all(|byte| is_visible(*byte))
}

fn is_visible(byte: u8) -> bool
    ensures { result ≡ is_visible_byte byte }
{
    33 <= byte && byte <= 126
}
