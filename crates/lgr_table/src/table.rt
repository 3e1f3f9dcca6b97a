//! From what a ruleset says to its table.
ghost use Rattle.std.specs.Prelude.{IfErr, IfOk, OnOk};
ghost use Rattle.lgr_text.specs.Records.{file};
ghost use Rattle.lgr_text.specs.WellFormed.{IsWellFormedRuleset};
ghost use Rattle.lgr_table.specs.Faults.{AreFaultless, IsFaultOfTable};
ghost use Rattle.lgr_table.specs.Tables.{IsTableOf, may_stand};

use crate::actions::define_actions;
use crate::entries::add_entries;
use crate::fault::TableError;
use crate::numbers::Numbers;
use crate::rules::define_rules;
use crate::types::define_types;
use idn_class::Properties;
use lgr_text::Ruleset;
use std::alloc::Global;
use variant_table::{Table, TableBuilder};

/// The table of version 3 that says what a ruleset says.
///
/// # Errors
/// What is wrong first: with the types, then with rules, actions and entries, each in their order in the file, but that
/// rules come after those that they name.
pub fn table_of(
    alloc: Global,
    properties: Properties,
    ruleset: &Ruleset,
) -> Result<Table, TableError>
    requires { IsWellFormedRuleset (file ruleset.now) }
    ensures table { IfOk result (IsTableOf properties (file ruleset.now)) }
    ensures faultless { OnOk result (AreFaultless (may_stand properties) ruleset.now) }
    ensures fault { IfErr result (IsFaultOfTable (may_stand properties) ruleset.now) }
{
    let mut builder = TableBuilder::new(alloc, properties);
    let types = define_types(alloc, &mut builder, ruleset)?;
    let rules = define_rules(alloc, &mut builder, &types, ruleset)?;
    let numbers = Numbers::new(types, rules);
    define_actions(alloc, &mut builder, &numbers, ruleset)?;
    add_entries(alloc, &mut builder, &numbers, ruleset)?;
    Ok(builder.finish())
}
