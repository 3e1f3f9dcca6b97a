//! What is found of the sources of a ruleset once, so that its labels can be tested.
ghost use Rattle.std.specs.Prelude.{◌≡◌, ◌≤◌, max, length, IfOk, MatchOption, Option};
ghost use Rattle.label_patterns.specs.declared.condition.Condition.{Condition};
ghost use Rattle.variant_table.specs.WellFormed.{IsWellFormed};
ghost use Rattle.valid_labels.specs.Validity.{AsksNothing, IsSound};
ghost use Rattle.valid_labels.specs.inner.Segments.{IsMost};
ghost use Rattle.valid_labels.specs.inner.Singles.{IsSingle};

use label_patterns::Condition;
use std::marker::Model;
use variant_table::Table;

/// A ruleset, and how long its longest source is.
#[derive(Drop)]
pub struct Segments<'a> {
    table: &'a Table,
    /// The most code points that a source has.
    longest: usize,
}

impl<'a> Model for Segments<'a> {
    ghost use Rattle.variant_table.specs.Entries.{TableValue};
    ghost use Rattle.variant_table.specs.TableCodes.{table_code};
    ghost use Rattle.valid_labels.specs.inner.Segments.{AreSegments};

    ghost Value = { TableValue };

    ghost coded = { table_code };

    ghost view = { λ p. p.table.now };

    ghost invariant = { λ p. AreSegments p.table.now p.longest };
}

/// A code point that is a source with which no other source begins, and the condition of that source.
#[derive(Clone, Copy, PartialEq, Eq)]
pub struct SinglePoint {
    pub point: u32,
    pub condition: Option<Condition>,
}

impl<'a> Segments<'a> {
    /// What is found of a table that asks something of its labels.
    pub fn of_table(table: &'a Table) -> Self
        requires { ¬ AsksNothing table.now }
        ensures { result ≡ table.now }
    {
        let longest = longest_source(table);
        Segments { table, longest }
    }

    /// The most code points that a source has.
    pub(crate) fn longest(&self) -> usize
        ensures longest { IsMost self.now result }
        ensures short { result ≤ 8 }
    {
        self.longest
    }

    /// A code point as a source with which no other source begins, if it is one.
    pub(crate) fn single(&self, point: u32) -> Option<SinglePoint>
        ensures { MatchOption result ((c : Option Condition) → ¬ IsSingle self.now point c)
            (λ s. (s.point ≡ point) × IsSingle self.now point s.condition) }
    {
        // Only for the proof: the contract of `len` says that no two sources are equal.
        let _entries = self.table.len();
        match self.table.single(point) {
            Some(entry) => Some(SinglePoint {
                point,
                condition: entry.condition(0),
            }),
            None => None,
        }
    }

    /// Does nothing. It is only for the proof: its contract says that the table is sound, and asks something.
    pub(crate) fn recall_soundness(&self)
        ensures sound { IsSound self.now }
        ensures asks { ¬ AsksNothing self.now }
    {
        recall_soundness(self.table);
    }

    /// The table.
    pub fn table(&self) -> &'a Table
        ensures { result.now ≡ self.now }
    {
        self.table
    }
}

/// Does nothing. It is only for the proof: its contract says that a table is sound.
pub(crate) fn recall_soundness(table: &Table)
    ensures { IsSound table.now }
{
    let _entries = table.len();
    let _names = table.definitions().set_names();
}

/// The most code points that a source has.
fn longest_source(table: &Table) -> usize
    ensures well_formed { IsWellFormed table.now.entries }
    ensures longest { IsMost table.now result }
{
    let mut longest = 0;
    for number in 0..table.len() {
        longest = greater(longest, table.entry(number).source().len());
    }
    longest
}

/// The greater one of two numbers.
fn greater(left: usize, right: usize) -> usize
    ensures { result ≡ max left right }
{
    if left < right { right } else { left }
}
