//! The definitions of a file, taken one after the other.
ghost use Rattle.std.specs.Prelude.{◌≡◌, [], OnOk, map};
ghost use Rattle.label_patterns.specs.Trees.{pattern};
ghost use Rattle.lgr_text.specs.ClassMembers.{HasSpans, class_fault};
ghost use Rattle.lgr_text.specs.Known.{HaveSpans, known as known_of};
ghost use Rattle.lgr_text.specs.Records.{class as class_of, entry as entry_of};
ghost use Rattle.lgr_text.specs.inner.Faults.{IsFaultOf};
ghost use Rattle.lgr_table.specs.inner.RuleSteps.{AddsSet, known_by};

use label_patterns::PatternTree;
use lgr_text::{ClassTree, CodePoints, Entry, Known, RuleError, set_of};
use ruleset_text::Name;
use std::alloc::Global;

/// What stands for the entries of a file where its classes and rules are read.
#[derive(Clone, Copy)]
pub(crate) struct Repertoire<'a> {
    pub entries: &'a [Entry],
    /// The code points of the sources that the table keeps.
    pub points: &'a CodePoints,
}

/// The classes that were taken so far, as sets, and the rules, which the table has in this order.
#[derive(Drop)]
pub(crate) struct Taken {
    pub set_names: Vec<Name>,
    pub sets: Vec<CodePoints>,
    pub rule_names: Vec<Name>,
}

impl Taken {
    /// Nothing yet.
    pub(crate) fn new(alloc: Global) -> Self
        ensures set_names { result.set_names.items ≡ [] }
        ensures sets { result.sets.items ≡ [] }
        ensures rule_names { result.rule_names.items ≡ [] }
    {
        Taken {
            set_names: Vec::new(alloc),
            sets: Vec::new(alloc),
            rule_names: Vec::new(alloc),
        }
    }

    /// What is known where the table has these rules.
    pub(crate) fn known<'a>(
        &'a self,
        repertoire: Repertoire<'a>,
        rules: &'a [PatternTree],
    ) -> Known<'a>
        ensures { known_of result ≡ known_by (map entry_of repertoire.entry.entries.now)
            repertoire.entry.points.now self.now (map pattern rules.now) }
    {
        Known {
            entries: repertoire.entries,
            set_names: &self.set_names,
            sets: &self.sets,
            rule_names: &self.rule_names,
            rules,
            points: repertoire.points,
        }
    }

    /// Takes a class.
    pub(crate) fn add_class(
        &mut self,
        alloc: Global,
        repertoire: Repertoire<'_>,
        rules: &[PatternTree],
        name: &[u8],
        class: &ClassTree,
    ) -> Result<(), RuleError>
        requires spans { HasSpans (class_of class.now) }
        requires entries { HaveSpans (map entry_of repertoire.entries.now) }
        ensures added { let entries = map entry_of repertoire.entry.entries.now in
            let points = repertoire.entry.points.now in
            OnOk result (AddsSet (known_by entries points self.old (map pattern rules.now)) name.now
            (class_of class.now) (known_by entries points self.new (map pattern rules.now))) }
        ensures fault { let entries = map entry_of repertoire.entry.entries.now in
            let points = repertoire.entry.points.now in
            let known = known_by entries points self.old (map pattern rules.now) in
            IsFaultOf (class_fault known (class_of class.now)) result }
    {
        let set = set_of(alloc, self.known(repertoire, rules), class)?;
        self.set_names.push(Name::copied(alloc, name)?)?;
        self.sets.push(set)?;
        Ok(())
    }
}
