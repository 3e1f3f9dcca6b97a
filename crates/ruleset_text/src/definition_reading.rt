//! Reading what a line defines.
ghost use Rattle.std.specs.Prelude.{◌≡◌, ◌<◌, ◌^◌, false, MatchResult, length};
ghost use Rattle.ruleset_text.specs.Definition.{Action as action_of, Demand as demand_of};
ghost use Rattle.ruleset_text.specs.DefinitionReading as reading;
ghost use Rattle.ruleset_text.specs.DefinitionReading.{definition_read, name_read};
ghost use Rattle.ruleset_text.specs.LineStops.{map_read};
ghost use Rattle.ruleset_text.specs.inner.DefinitionSteps.{GivesDefinition};

use crate::action_reading::read_action;
use crate::definition::{Definition, DemandKind};
use crate::definition_line::DefinitionLine;
use crate::fault::{FaultPlace, LineFaults, ReadError};
use crate::keyword::Keyword;
use crate::names::{Name, is_name};
use crate::placed::PlacedLexemes;
use crate::reading::{Earlier, read_pattern};
use crate::spans::read_spans;
use idn_class::Properties;
use std::alloc::Global;

/// What a line defines, how many atoms further patterns may have, and its faults.
#[derive(Drop)]
pub struct ReadDefinition {
    pub definition: Definition,
    pub atoms_left: usize,
    pub faults: LineFaults,
}

/// What a line defines. A set goes by its number among the names.
pub fn read_definition(
    alloc: Global,
    earlier: Earlier<'_>,
    line: DefinitionLine<'_>,
) -> Result<ReadDefinition, ReadError>
    requires { length line.after < 2 ^ 63 }
    ensures { GivesDefinition earlier.entry line.entry.after result
        (definition_read earlier.entry.sets.now line.entry.keyword line.entry.end line.entry.after) }
{
    let DefinitionLine {
        keyword,
        place: _,
        after,
        end,
    } = line;
    match keyword {
        Keyword::VariantType => read_type(alloc, earlier, after, end),
        Keyword::Set => read_set(alloc, earlier, after, end),
        Keyword::Rule => read_rule(alloc, true, earlier, after, end),
        Keyword::Whole => read_rule(alloc, false, earlier, after, end),
        Keyword::Never => read_demand(alloc, earlier, DemandKind::Never, after, end),
        Keyword::Always => read_demand(alloc, earlier, DemandKind::Always, after, end),
        Keyword::Action => read_action_line(alloc, earlier, after, end),
    }
}

fn read_type(
    alloc: Global,
    earlier: Earlier<'_>,
    mut lexemes: PlacedLexemes<'_>,
    end: usize,
) -> Result<ReadDefinition, ReadError>
    ensures { GivesDefinition earlier.entry lexemes.entry result
        (reading.named (reading.type_read end) end lexemes.entry) }
{
    let name = read_name(&mut lexemes, end)?;
    if let Some((place, lexeme)) = lexemes.next() {
        return Err(ReadError::Stop(FaultPlace::Lexeme(place, lexeme.len())));
    }
    Ok(ReadDefinition {
        definition: Definition::VariantType(Name::copied(alloc, name)?),
        atoms_left: earlier.atoms_left,
        faults: LineFaults::none(),
    })
}

fn read_set(
    alloc: Global,
    earlier: Earlier<'_>,
    mut lexemes: PlacedLexemes<'_>,
    end: usize,
) -> Result<ReadDefinition, ReadError>
    ensures { GivesDefinition earlier.entry lexemes.entry result
        (reading.named (reading.set_read end) end lexemes.entry) }
{
    let name = read_name(&mut lexemes, end)?;
    let read = read_spans(alloc, earlier.properties, lexemes, end)?;
    Ok(ReadDefinition {
        definition: Definition::Set(Name::copied(alloc, name)?, read.set),
        atoms_left: earlier.atoms_left,
        faults: read.faults,
    })
}

/// A context rule, or a whole-label rule.
fn read_rule(
    alloc: Global,
    is_rule: bool,
    earlier: Earlier<'_>,
    mut lexemes: PlacedLexemes<'_>,
    end: usize,
) -> Result<ReadDefinition, ReadError>
    requires { length lexemes < 2 ^ 63 }
    ensures { GivesDefinition earlier.entry lexemes.entry result
        (reading.named (reading.rule_read is_rule earlier.entry.sets.now end) end lexemes.entry) }
{
    let name = read_name(&mut lexemes, end)?;
    let read = read_pattern(alloc, is_rule, earlier, lexemes, end)?;
    Ok(ReadDefinition {
        definition: Definition::Rule(Name::copied(alloc, name)?, read.tree),
        atoms_left: read.atoms_left,
        faults: read.faults,
    })
}

fn read_demand(
    alloc: Global,
    earlier: Earlier<'_>,
    kind: DemandKind,
    lexemes: PlacedLexemes<'_>,
    end: usize,
) -> Result<ReadDefinition, ReadError>
    requires { length lexemes < 2 ^ 63 }
    ensures { GivesDefinition earlier.entry lexemes.entry result
        (map_read (demand_of kind) (reading.pattern_read false earlier.entry.sets.now end lexemes.entry)) }
{
    let read = read_pattern(alloc, false, earlier, lexemes, end)?;
    Ok(ReadDefinition {
        definition: Definition::Demand(kind, read.tree),
        atoms_left: read.atoms_left,
        faults: read.faults,
    })
}

fn read_action_line(
    alloc: Global,
    earlier: Earlier<'_>,
    lexemes: PlacedLexemes<'_>,
    end: usize,
) -> Result<ReadDefinition, ReadError>
    ensures { GivesDefinition earlier.entry lexemes.entry result
        (map_read action_of (reading.action_read end lexemes.entry)) }
{
    let read = read_action(alloc, earlier, lexemes, end)?;
    let mut faults = LineFaults::none();
    faults.name = read.unknown;
    Ok(ReadDefinition {
        definition: Definition::Action(read.action),
        atoms_left: earlier.atoms_left,
        faults,
    })
}

/// The name that stands next.
fn read_name<'a>(lexemes: &mut PlacedLexemes<'a>, end: usize) -> Result<&'a [u8], FaultPlace>
    ensures { MatchResult result (λ name. name_read end lexemes.old ≡ Ok (name.now, lexemes.new))
        (λ place. name_read end lexemes.old ≡ Err place) }
{
    let Some((place, word)) = lexemes.next() else {
        return Err(FaultPlace::End(end));
    };
    if is_name(word) {
        Ok(word)
    } else {
        Err(FaultPlace::Lexeme(place, word.len()))
    }
}
