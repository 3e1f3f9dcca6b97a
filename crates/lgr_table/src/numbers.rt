//! The numbers that the types and the rules of a file have in its table.
ghost use Rattle.std.specs.Prelude.{◌≡◌, ◌≤◌, length, None, Some};
ghost use Rattle.lgr_table.specs.Numbers as words;
ghost use Rattle.lgr_table.specs.Numbers.{number_among};
ghost use Rattle.ruleset_text.specs.Names as names;

use ruleset_text::{Name, PREDEFINED_TYPES, number_of, predefined_type};
use std::marker::Model;

/// The types and the rules that the table of a file defines, by their names in the file. Each has its place as its
/// number, the types after the predefined ones. `None` is the type of variants that have none in the file.
#[derive(Drop)]
pub struct Numbers {
    types: Vec<Option<Name>>,
    rules: Vec<Name>,
}

impl Model for Numbers {
    ghost use Rattle.lgr_table.specs.Numbers.{Numbering};
    ghost use Rattle.std.specs.Coded.{codes};

    ghost Value = { Numbering };

    ghost coded = { Prim.hlevel (codes) };

    ghost view = { λ n. record { types = n.types.items; rules = n.rules.items } };
}

impl Numbers {
    /// These types and rules.
    pub(crate) fn new(types: Vec<Option<Name>>, rules: Vec<Name>) -> Self
        ensures { result ≡ record { types = types.items; rules = rules.items } }
    {
        Numbers { types, rules }
    }

    /// The number of the type of this name, or of having none, if the table has it.
    pub(crate) fn type_number(&self, name: &Option<Name>) -> Option<usize>
        ensures { result ≡ words.type_number self.now name.now }
    {
        match name {
            Some(name) => self.named_type(name.as_slice()),
            None => untyped_in(&self.types),
        }
    }

    /// The number of the type of this name, if the table has it.
    pub(crate) fn named_type(&self, name: &[u8]) -> Option<usize>
        ensures { result ≡ words.type_number self.now (Some name.now) }
    {
        named_in(&self.types, name)
    }

    /// The number of the rule of this name, or how many rules there are.
    pub(crate) fn rule_number(&self, name: &[u8]) -> usize
        ensures is { result ≡ names.number_of self.now.rules name.now }
        ensures within { result ≤ length self.now.rules }
    {
        number_of(&self.rules, name)
    }

    /// The types, by their names in the file.
    pub(crate) fn types(&self) -> &[Option<Name>]
        ensures { result.now ≡ self.now.types }
    {
        &self.types
    }

    /// The rules, by their names in the file.
    pub(crate) fn rules(&self) -> &[Name]
        ensures { result.now ≡ self.now.rules }
    {
        &self.rules
    }
}

/// The number of the type of this name, where these follow those that are predefined.
pub(crate) fn named_in(types: &[Option<Name>], name: &[u8]) -> Option<usize>
    ensures { result ≡ number_among types.now (Some name.now) }
{
    for number in 0..PREDEFINED_TYPES {
        if name == predefined_type(number) {
            return Some(number);
        }
    }
    for place in 0..types.len() {
        if is_named(&types[place], name) {
            return Some(PREDEFINED_TYPES + place);
        }
    }
    None
}

/// The number of the type of having none, where these follow those that are predefined.
fn untyped_in(types: &[Option<Name>]) -> Option<usize>
    ensures { result ≡ number_among types.now None }
{
    for place in 0..types.len() {
        if is_untyped(&types[place]) {
            return Some(PREDEFINED_TYPES + place);
        }
    }
    None
}

/// Whether the type has this name.
fn is_named(type_name: &Option<Name>, name: &[u8]) -> bool
    ensures { result ≡ words.is_same (Some name.now) type_name.now }
{
    match type_name {
        Some(other) => name == other.as_slice(),
        None => false,
    }
}

/// Whether the type is that of having none.
fn is_untyped(type_name: &Option<Name>) -> bool
    ensures { result ≡ words.is_same None type_name.now }
{
    type_name.is_none()
}
