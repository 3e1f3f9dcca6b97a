//! Which definitions a definition names, by their numbers.
ghost use Rattle.std.specs.Prelude.{◌≡◌, ◌++◌, ◌∷◌, [], map, IfOk, OnOk};
ghost use Rattle.lgr_text.specs.NamedParts as terms;

use crate::records::{ClassTree, Definition, Meaning, PartTree, Reference};
use std::alloc::{AllocError, Global};

/// What a name stands for.
#[derive(Clone, Copy, PartialEq, Eq)]
pub enum DefinitionKind {
    Class,
    Rule,
}

/// A definition that another one names.
#[derive(Clone, Copy, PartialEq, Eq)]
pub struct NamedPart {
    /// Its number, or how many definitions there are if none has the name.
    pub number: usize,
    /// The line on which it is named, counted from 1.
    pub line: usize,
}

/// For each definition those that it names, in the order of the file.
pub(crate) fn named_parts(
    alloc: Global,
    definitions: &[Definition],
) -> Result<Vec<Vec<NamedPart>>, AllocError>
    ensures { IfOk result (λ parts. map (λ p. p.items) parts.items ≡ terms.parts definitions.now) }
{
    let mut parts = Vec::new(alloc);
    for definition in definitions {
        let mut named = Vec::new(alloc);
        push_of_meaning(&mut named, definitions, &definition.meaning)?;
        parts.push(named)?;
    }
    Ok(parts)
}

/// Appends what a definition names.
fn push_of_meaning(
    parts: &mut Vec<NamedPart>,
    definitions: &[Definition],
    meaning: &Meaning,
) -> Result<(), AllocError>
    ensures { OnOk result (parts.new.items ≡ parts.old.items ++ terms.of_meaning definitions.now meaning.now) }
{
    match meaning {
        Meaning::Class(class) => push_of_class(parts, definitions, class),
        Meaning::Rule(part) => push_of_part(parts, definitions, part),
    }
}

fn push_of_part(
    parts: &mut Vec<NamedPart>,
    definitions: &[Definition],
    part: &PartTree,
) -> Result<(), AllocError>
    ensures { OnOk result (parts.new.items ≡ parts.old.items ++ terms.of_part definitions.now part.now) }
{
    match part {
        PartTree::Of(class) => push_of_class(parts, definitions, class),
        PartTree::OfRule(rule) => push_named(parts, definitions, DefinitionKind::Rule, rule),
        PartTree::Then(first, rest) => {
            push_of_part(parts, definitions, first)?;
            push_of_part(parts, definitions, rest)
        }
        PartTree::Choice(left, right) => {
            push_of_part(parts, definitions, left)?;
            push_of_part(parts, definitions, right)
        }
        PartTree::Times(_, part) => push_of_part(parts, definitions, part),
        PartTree::Literal(_) => Ok(()),
        PartTree::Any => Ok(()),
        PartTree::Start => Ok(()),
        PartTree::End => Ok(()),
        PartTree::Anchor => Ok(()),
    }
}

fn push_of_class(
    parts: &mut Vec<NamedPart>,
    definitions: &[Definition],
    class: &ClassTree,
) -> Result<(), AllocError>
    ensures { OnOk result (parts.new.items ≡ parts.old.items ++ terms.of_class definitions.now class.now) }
{
    match class {
        ClassTree::OfClass(class) => push_named(parts, definitions, DefinitionKind::Class, class),
        ClassTree::Joined(_, left, right) => {
            push_of_class(parts, definitions, left)?;
            push_of_class(parts, definitions, right)
        }
        ClassTree::Complement(class) => push_of_class(parts, definitions, class),
        ClassTree::Listed(_) => Ok(()),
        ClassTree::OfTag(_) => Ok(()),
        ClassTree::OfProperty(_) => Ok(()),
    }
}

fn push_named(
    parts: &mut Vec<NamedPart>,
    definitions: &[Definition],
    kind: DefinitionKind,
    reference: &Reference,
) -> Result<(), AllocError>
    ensures { OnOk result (parts.new.items ≡ parts.old.items ++ terms.named definitions.now kind reference.now ∷ []) }
{
    parts.push(NamedPart {
        number: number_for(definitions, kind, reference.name.as_slice()),
        line: reference.line,
    })?;
    Ok(())
}

/// The number of the first definition of this kind and name, or how many definitions there are.
fn number_for(definitions: &[Definition], kind: DefinitionKind, name: &[u8]) -> usize
    ensures { result ≡ terms.number_for definitions.now kind name.now }
{
    for (number, definition) in definitions.iter().enumerate() {
        if defines(definition, kind, name) {
            return number;
        }
    }
    definitions.len()
}

fn defines(definition: &Definition, kind: DefinitionKind, name: &[u8]) -> bool
    ensures { result ≡ terms.defines kind name.now definition.now }
{
    definition.name.as_slice() == name && is_of(&definition.meaning, kind)
}

fn is_of(meaning: &Meaning, kind: DefinitionKind) -> bool
    ensures { result ≡ terms.is_of meaning.now kind }
{
    match kind {
        DefinitionKind::Class => is_class(meaning),
        DefinitionKind::Rule => !is_class(meaning),
    }
}

fn is_class(meaning: &Meaning) -> bool
    ensures { result ≡ terms.is_class meaning.now }
{
    match meaning {
        Meaning::Class(_) => true,
        Meaning::Rule(_) => false,
    }
}
