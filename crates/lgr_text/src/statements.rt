//! Definitions and actions: what stands below `rules` (RFC 7940, sections 6 and 7).
ghost use Rattle.std.specs.Prelude.{◌≡◌, [], option_map};
ghost use Rattle.lgr_text.specs.Elements.{Content, each_element};
ghost use Rattle.lgr_text.specs.Statements.{rules, rules_of, statement_of, with_statement};
ghost use Rattle.lgr_text.specs.inner.Reading.{AreOf, Reads, node};

use crate::action_elements::read_action;
use crate::definitions::read_definition;
use crate::element::{Element, Elements};
use crate::fault::ReadError;
use crate::records::{Action, Definition};
use std::alloc::Global;

/// What stands below `rules`, each in the order of the file.
#[derive(Drop)]
pub struct Rules {
    pub definitions: Vec<Definition>,
    pub actions: Vec<Action>,
}

/// The definitions and actions that elements say.
pub fn read_rules(alloc: Global, elements: Elements<'_>) -> Result<Rules, ReadError>
    ensures { (c : Content) → AreOf elements.entry c →
        Reads rules (option_map rules_of (each_element statement_of c)) result }
{
    let mut rules = Rules::none(alloc);
    let mut elements = elements;
    while let Some(element) = elements.next()? {
        rules.push(alloc, &element)?;
    }
    Ok(rules)
}

impl Rules {
    /// No rules.
    pub fn none(alloc: Global) -> Self
        ensures { rules result ≡ rules_of [] }
    {
        Rules {
            definitions: Vec::new(alloc),
            actions: Vec::new(alloc),
        }
    }

    /// Appends what an element says.
    fn push(&mut self, alloc: Global, element: &Element<'_>) -> Result<(), ReadError>
        ensures { (c : Content) → AreOf element.now.within c →
            Reads (λ _. rules self.new)
            (option_map (with_statement (rules self.old)) (statement_of (node element.now c))) result }
    {
        if element.is_named(b"action") {
            self.actions.push(read_action(alloc, element)?)?;
        } else {
            self.definitions.push(read_definition(alloc, element)?)?;
        }
        Ok(())
    }
}
