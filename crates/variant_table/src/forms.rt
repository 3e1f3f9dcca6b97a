//! The sequences of the entry that a line says, with numbers in place of names.
ghost use Rattle.std.specs.Prelude.{◌≡◌, ◌<◌, [], ◌∷◌, ◌++◌, true, map, OnOk};
ghost use Rattle.std.specs.Option.{option_map};
ghost use Rattle.ruleset_text.specs.EntryForms as held;
ghost use Rattle.variant_dispositions.specs.Kinds.{IsTypeNumber};
ghost use Rattle.variant_table.specs.Forms as forms;

use crate::sequences::Sequences;
use label_patterns::Condition;
use ruleset_text::{Definitions, Mapped, NamedCondition, number_of};
use std::alloc::AllocError;

/// The number of the type that `!` before a source stands for: `invalid`.
pub const SOURCE_MARK: u8 = 0;

/// The number of the type that `!` before a variant stands for: `blocked`.
pub const VARIANT_MARK: u8 = 1;

/// Takes the sequences of a source and its variants, whose types and rules are defined, in place of what was in
/// `sequences`.
#[inline(always)]
pub fn take_sequences(
    sequences: &mut Sequences,
    definitions: &Definitions,
    mapped: &[Mapped],
) -> Result<(), AllocError>
    requires { forms.knows_all definitions.now (map held.mapped mapped.now) ≡ true }
    ensures { OnOk result (sequences.new ≡ forms.sequences_of definitions.now (map held.mapped mapped.now)) }
{
    sequences.clear();
    let [source, variants @ ..] = mapped else {
        return Ok(());
    };
    take_sequence(sequences, definitions, SOURCE_MARK, source)?;
    for variant in variants {
        take_sequence(sequences, definitions, VARIANT_MARK, variant)?;
    }
    Ok(())
}

/// Adds the sequence of a source or a variant, whose type and rule are defined. `!` stands for the type of the number
/// `mark`.
// Always inline, with all that it calls, since it is called for each sequence that is read.
#[inline(always)]
fn take_sequence(
    sequences: &mut Sequences,
    definitions: &Definitions,
    mark: u8,
    mapped: &Mapped,
) -> Result<(), AllocError>
    requires mark { mark < 62 }
    requires known { forms.knows_names definitions.now (held.mapped mapped.now) ≡ true }
    ensures { OnOk result (sequences.new ≡
        sequences.old ++ forms.variant_by mark definitions.now (held.mapped mapped.now) ∷ []) }
{
    let variant_type = look_up_type(definitions, mark, mapped);
    let condition = look_up_condition(definitions, &mapped.condition);
    sequences.push(&mapped.points, variant_type, condition)
}

/// The number of the type of a source or a variant: that of the mark, or of its name, which is defined.
#[inline(always)]
fn look_up_type(definitions: &Definitions, mark: u8, mapped: &Mapped) -> Option<u8>
    requires mark { mark < 62 }
    requires known { forms.knows_type definitions.now mapped.now.type_name ≡ true }
    ensures is { result ≡ forms.type_by mark definitions.now mapped.now.marked mapped.now.type_name }
    ensures small { IsTypeNumber result }
{
    if mapped.marked {
        return Some(mark);
    }
    match &mapped.type_name {
        Some(name) => {
            // Only for the proof: the contract of `types` says how many types there are at most.
            let _types = definitions.types();
            Some(definitions.type_number(name.as_slice()) as u8)
        }
        None => None,
    }
}

/// The condition with the number of its rule, which is defined.
#[inline(always)]
pub fn look_up_condition(
    definitions: &Definitions,
    condition: &Option<NamedCondition>,
) -> Option<Condition>
    requires { forms.knows_rule definitions.now condition.now ≡ true }
    ensures { result ≡ option_map (forms.numbered definitions.now) condition.now }
{
    let Some(condition) = condition else {
        return None;
    };
    let rule = number_of(definitions.rule_names(), condition.rule.as_slice());
    Some(Condition {
        kind: condition.kind,
        rule: rule as u8,
    })
}
