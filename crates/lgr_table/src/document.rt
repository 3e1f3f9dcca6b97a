//! From the text of a file to its table.
ghost use Rattle.std.specs.Prelude.{◌≡◌, ℕ, List, Err, IfOk, IfErr};
ghost use Rattle.lgr_text.specs.Documents.{IsSaidBy};
ghost use Rattle.lgr_text.specs.Records.{file};
ghost use Rattle.lgr_text.specs.WellFormed.{IsWellFormedRuleset};
ghost use Rattle.lgr_table.specs.Texts as texts;
ghost use Rattle.lgr_table.specs.Texts.{HasNoRuleset, IsTableOfText, IsToldOf, SaysRuleset};
ghost use Rattle.xml_text.specs.Files.{IsDocument};
ghost use Rattle.xml_text.specs.Tokens.{Token};

use crate::fault::{TableError, TableFault};
use crate::table::table_of;
use bumpalo::Bump;
use idn_class::Properties;
use lgr_text::{ReadError, Ruleset, read_ruleset};
use std::alloc::Global;
use variant_table::Table;
use xml_text::{DocumentError, read_document};

/// The table of version 3 that says what a text in XML says, which is a ruleset (RFC 7940).
///
/// # Errors
/// `Syntax` is told of a text that is no document, or that says no ruleset; `Limit`, on line 1, of one of more than
/// 64 MiB, and of one with an element that has too many others in it. Else a fault of the ruleset, as by
/// `table_of`.
pub fn table_of_text(
    alloc: Global,
    properties: Properties,
    text: &[u8],
) -> Result<Table, TableError>
    ensures table { IfOk result (IsTableOfText properties text.now) }
    ensures fault { IfErr result (IsToldOf properties text.now) }
{
    let ruleset = ruleset_of(alloc, text)?;
    table_of(alloc, properties, &ruleset)
}

/// The ruleset that a text says.
fn ruleset_of(alloc: Global, text: &[u8]) -> Result<Ruleset, TableError>
    ensures says { IfOk result (λ r. SaysRuleset text.now (file r)) }
    ensures well_formed { IfOk result (λ r. IsWellFormedRuleset (file r)) }
    ensures fault { IfErr result (HasNoRuleset text.now) }
{
    let arena = Bump::new(alloc);
    match read_document(alloc, &arena, text) {
        Ok(tokens) => match read_ruleset(alloc, &tokens) {
            Ok(ruleset) => Ok(ruleset),
            Err(error) => Err(of_read_error(error)),
        },
        Err(error) => Err(of_document_error(error)),
    }
}

/// What is told of a text that is no document.
fn of_document_error(error: DocumentError) -> TableError
    ensures { result ≡ texts.document_error error }
{
    match error {
        DocumentError::TooLong => TableFault::Limit.on(1),
        DocumentError::NoCharacter(place) => TableFault::Syntax.on(place.line),
        DocumentError::Declaration => TableFault::Syntax.on(1),
        DocumentError::Stop(place) => TableFault::Syntax.on(place.line),
        DocumentError::Memory => TableError::Memory,
    }
}

/// What is told of a document that says no ruleset.
fn of_read_error(error: ReadError) -> TableError
    ensures { (text : List ℕ) (tokens : List Token) → IsDocument text tokens →
        IsSaidBy tokens (Err error) → HasNoRuleset text result }
{
    match error {
        ReadError::Wrong(line) => TableFault::Syntax.on(line),
        ReadError::Limit(line) => TableFault::Limit.on(line),
        ReadError::Memory => TableError::Memory,
    }
}
