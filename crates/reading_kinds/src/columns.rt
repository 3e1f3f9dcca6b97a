//! Filling a board, column by column.
ghost use Rattle.std.specs.Prelude.{◌≡◌, ℕ, ◌+◌, ◌-◌, ◌*◌, ◌<◌, ◌≤◌, ◌↔◌, List, length, Contains, IsSome, IfSome};
ghost use Rattle.std.specs.Int.{bit_at};
ghost use Rattle.reading_kinds.specs.Readings.{Substitution, substitutions_at, SubstitutionsSpell, SomeHas, SomeLacks};
ghost use Rattle.reading_kinds.specs.inner.Cells.{Tells, IsRight};
ghost use Rattle.reading_kinds.specs.inner.Cells.Mark.{Reached};
ghost use Rattle.reading_kinds.specs.inner.Cuts.{AllFit};
ghost use Rattle.reading_kinds.specs.inner.Columns.{AddsAfter, Grows, HasTaken, IsSoundAt};

use crate::board::{Board, Words};
use crate::label_substitutions::LabelSubstitutions;

/// A cell of a board.
#[derive(Clone, Copy)]
struct Cell {
    column: usize,
    place: usize,
}

impl Board {
    /// Adds to a cell what a cell of a column before tells, after a substitution of these kinds.
    fn add_after(&mut self, from: Cell, to: Cell, kinds: u64)
        requires column { to.column < self.old.size.columns }
        requires bit { to.place < 64 }
        requires from { from.place < self.old.size.places }
        requires to { to.place < self.old.size.places }
        requires reached { Tells self.old from.column from.place Reached }
        ensures adds { AddsAfter self.old self.new from.column from.place kinds to.column to.place }
        ensures size { self.new.size ≡ self.old.size }
    {
        let before = self.words_at(from.column, from.place);
        let words = Words {
            has: before.has | kinds,
            lacks: before.lacks & !kinds,
        };
        self.add(to.column, to.place, words);
    }

    /// Takes the substitutions of this many code points at a place into a column.
    fn take_place(
        &mut self,
        substitutions: &LabelSubstitutions,
        label: &[u32],
        column: usize,
        count: usize,
        place: usize,
    )
        requires substitutions { AllFit substitutions.now }
        requires wide { length substitutions.now ≤ 63 }
        requires places { self.old.size.places ≡ length substitutions.now + 1 }
        requires column { column < self.old.size.columns }
        requires within { column ≤ length label.now }
        requires some { 1 ≤ count }
        requires count { count ≤ column }
        requires place { place < length substitutions.now }
        requires reached { Tells self.old (column - count) place Reached }
        requires right { IsRight substitutions.now label.now self.old (column - 1) }
        requires sound { IsSoundAt substitutions.now label.now self.old column }
        ensures grows { Grows self.old self.new column }
        ensures sound { IsSoundAt substitutions.now label.now self.new column }
        ensures taken { (u : Substitution) → Contains (substitutions_at substitutions.now place) u →
            length u.points ≡ count → HasTaken label.now self.new column place u }
    {
        let from = Cell {
            column: column - count,
            place,
        };
        let end = &label[column - count..column];
        for number in 0..substitutions.count_at(place) {
            let found = substitutions.get(place, number);
            if found.points == end {
                let to = Cell {
                    column,
                    place: place + found.covers,
                };
                self.add_after(from, to, found.kinds);
            }
        }
    }

    /// Takes the substitutions of this many code points into a column.
    fn take_count(
        &mut self,
        substitutions: &LabelSubstitutions,
        label: &[u32],
        column: usize,
        count: usize,
    )
        requires substitutions { AllFit substitutions.now }
        requires wide { length substitutions.now ≤ 63 }
        requires places { self.old.size.places ≡ length substitutions.now + 1 }
        requires column { column < self.old.size.columns }
        requires within { column ≤ length label.now }
        requires some { 1 ≤ count }
        requires count { count ≤ column }
        requires right { IsRight substitutions.now label.now self.old (column - 1) }
        requires sound { IsSoundAt substitutions.now label.now self.old column }
        ensures grows { Grows self.old self.new column }
        ensures sound { IsSoundAt substitutions.now label.now self.new column }
        ensures taken { (p : ℕ) (u : Substitution) → Contains (substitutions_at substitutions.now p) u →
            length u.points ≡ count → HasTaken label.now self.new column p u }
    {
        let mut left = self.reached_in(column - count);
        while left != 0 {
            let place = left.trailing_zeros() as usize;
            left &= !(1 << place);
            // At the end of the label no substitution begins.
            if place < substitutions.len() {
                self.take_place(substitutions, label, column, count, place);
            }
        }
    }

    /// Fills a column, when those before it are right.
    fn fill_column(
        &mut self,
        substitutions: &LabelSubstitutions,
        label: &[u32],
        column: usize,
        longest: usize,
    )
        requires substitutions { AllFit substitutions.now }
        requires wide { length substitutions.now ≤ 63 }
        requires places { self.old.size.places ≡ length substitutions.now + 1 }
        requires longest { (p : ℕ) (u : Substitution) → Contains (substitutions_at substitutions.now p) u →
            length u.points ≤ longest }
        requires column { column < self.old.size.columns }
        requires within { column ≤ length label.now }
        requires some { 1 ≤ column }
        requires right { IsRight substitutions.now label.now self.old (column - 1) }
        ensures right { IsRight substitutions.now label.now self.new column }
        ensures size { self.new.size ≡ self.old.size }
    {
        self.clear(column);
        for count in 1..longest.min(column) + 1 {
            self.take_count(substitutions, label, column, count);
        }
    }

    /// Fills all columns of a label after the first ones, which stay as they are.
    pub(crate) fn fill(
        &mut self,
        substitutions: &LabelSubstitutions,
        label: &[u32],
        kept: usize,
        longest: usize,
    )
        requires substitutions { AllFit substitutions.now }
        requires wide { length substitutions.now ≤ 63 }
        requires places { self.old.size.places ≡ length substitutions.now + 1 }
        requires longest { (p : ℕ) (u : Substitution) → Contains (substitutions_at substitutions.now p) u →
            length u.points ≤ longest }
        requires long { length label.now < self.old.size.columns }
        requires kept { kept ≤ length label.now }
        requires right { IsRight substitutions.now label.now self.old kept }
        ensures right { IsRight substitutions.now label.now self.new (length label.now) }
        ensures size { self.new.size ≡ self.old.size }
    {
        for column in kept + 1..label.len() + 1 {
            self.fill_column(substitutions, label, column, longest);
        }
    }

    /// Fills the first column: nothing is spelled yet, and no kind is there. The board is of the empty label then, for
    /// any substitutions.
    pub(crate) fn begin(&mut self)
        requires columns { 1 ≤ self.old.size.columns }
        requires places { 1 ≤ self.old.size.places }
        ensures right { (substitutions : List (List Substitution)) (label : List ℕ) → AllFit substitutions →
            IsRight substitutions label self.new 0 }
        ensures size { self.new.size ≡ self.old.size }
    {
        self.clear(0);
        let words = Words {
            has: 0,
            lacks: u64::MAX,
        };
        self.add(0, 0, words);
    }

    /// The words of a label, if it is spelled, when its columns are right.
    pub(crate) fn words(&self, substitutions: &LabelSubstitutions, label: &[u32]) -> Option<Words>
        requires substitutions { AllFit substitutions.now }
        requires wide { length substitutions.now ≤ 63 }
        requires long { length label.now < self.now.size.columns }
        requires places { self.now.size.places ≡ length substitutions.now + 1 }
        requires right { IsRight substitutions.now label.now self.now (length label.now) }
        ensures spelled { IsSome result ↔ SubstitutionsSpell substitutions.now label.now }
        ensures has { IfSome result (λ words. (k : ℕ) → k < 64 →
            (bit_at words.has k ≡ 1) ↔ SomeHas substitutions.now label.now k) }
        ensures lacks { IfSome result (λ words. (k : ℕ) → k < 64 →
            (bit_at words.lacks k ≡ 1) ↔ SomeLacks substitutions.now label.now k) }
    {
        if !self.reaches(label.len(), substitutions.len()) {
            return None;
        }
        Some(self.words_at(label.len(), substitutions.len()))
    }
}
