//! The canonical text of definitions.
ghost use Rattle.std.specs.Prelude.{◌≡◌, ◌++◌, map, OnOk};
ghost use Rattle.ruleset_text.specs.Canonical.{definition_text};
ghost use Rattle.ruleset_text.specs.Definition as definition;
ghost use Rattle.ruleset_text.specs.Definitions.{definitions_text, lines_text, named};

use crate::canonical::push_byte;
use crate::definition::{push_action, push_demand, push_rule, push_set, push_type};
use crate::definitions::Definitions;
use std::alloc::AllocError;

impl Definitions {
    /// Appends the canonical lines of the definitions, each with its line feed: types, sets, rules, demands, actions.
    /// After an `Err` some may have been appended.
    pub fn push_lines(&self, out: &mut Vec<u8>) -> Result<(), AllocError>
        ensures { OnOk result (out.new.items ≡ out.old.items ++ definitions_text self.now) }
    {
        self.push_types(out)?;
        self.push_sets(out)?;
        self.push_rules(out)?;
        self.push_demands(out)?;
        self.push_actions(out)
    }

    fn push_types(&self, out: &mut Vec<u8>) -> Result<(), AllocError>
        ensures { OnOk result (out.new.items ≡
            out.old.items ++ lines_text (map (definition_text self.now.set_names)
            (map definition.VariantType self.now.types))) }
    {
        let types = self.types();
        for name in types {
            push_type(out, name)?;
            push_byte(out, b'\n')?;
        }
        Ok(())
    }

    fn push_sets(&self, out: &mut Vec<u8>) -> Result<(), AllocError>
        ensures { OnOk result (out.new.items ≡
            out.old.items ++ lines_text (map (definition_text self.now.set_names)
            (named definition.Set self.now.set_names self.now.sets))) }
    {
        let names = self.set_names();
        let sets = self.sets();
        for number in 0..names.len() {
            push_set(out, &names[number], &sets[number])?;
            push_byte(out, b'\n')?;
        }
        Ok(())
    }

    fn push_rules(&self, out: &mut Vec<u8>) -> Result<(), AllocError>
        ensures { OnOk result (out.new.items ≡
            out.old.items ++ lines_text (map (definition_text self.now.set_names)
            (named definition.Rule self.now.rule_names self.now.rules))) }
    {
        let sets = self.set_names();
        let names = self.rule_names();
        let rules = self.rules();
        for number in 0..names.len() {
            push_rule(out, sets, &names[number], &rules[number])?;
            push_byte(out, b'\n')?;
        }
        Ok(())
    }

    fn push_demands(&self, out: &mut Vec<u8>) -> Result<(), AllocError>
        ensures { OnOk result (out.new.items ≡
            out.old.items ++ lines_text (map (definition_text self.now.set_names)
            (map (λ e. definition.Demand e.kind e.pattern) self.now.demands))) }
    {
        let sets = self.set_names();
        let demands = self.demands();
        for demand in demands {
            push_demand(out, sets, demand.kind, &demand.pattern)?;
            push_byte(out, b'\n')?;
        }
        Ok(())
    }

    fn push_actions(&self, out: &mut Vec<u8>) -> Result<(), AllocError>
        ensures { OnOk result (out.new.items ≡
            out.old.items ++ lines_text (map (definition_text self.now.set_names)
            (map definition.Action self.now.actions))) }
    {
        let actions = self.actions();
        for action in actions {
            push_action(out, action)?;
            push_byte(out, b'\n')?;
        }
        Ok(())
    }
}
