//! The cells of a board: what is kept of the beginnings of readings.
ghost use Rattle.std.specs.Prelude.{◌≡◌, ◌*◌, ◌<◌, ◌≤◌, ◌↔◌, slice_index, vec_len, IsTrue, IfOk};
ghost use Rattle.std.specs.Int.{bit_at};
ghost use Rattle.reading_kinds.specs.inner.Cells.{Cells, Tells, words_at};
ghost use Rattle.reading_kinds.specs.inner.Cells.Mark.{Reached};
ghost use Rattle.reading_kinds.specs.inner.Columns.{Clears, Adds};

use std::alloc::{AllocError, Global};
use std::marker::Model;

/// How many columns a board has, and how many cells each of them.
#[derive(Clone, Copy)]
pub(crate) struct Size {
    pub(crate) columns: usize,
    pub(crate) places: usize,
}

/// Which kinds some reading has, and which some reading lacks: bit k tells of kind k.
#[derive(Clone, Copy)]
pub struct Words {
    pub has: u64,
    pub lacks: u64,
}

impl Words {
    /// Whether some reading lacks this kind.
    pub fn lacks(self, kind: u32) -> bool
        requires { kind < 64 }
        ensures { IsTrue result ↔ (bit_at self.lacks kind ≡ 1) }
    {
        self.lacks & (1 << kind) != 0
    }
}

/// A column for each length of what is spelled, with a cell for each place of the label.
#[derive(Drop)]
pub(crate) struct Board {
    size: Size,
    /// The words of the cells, place by place.
    words: Vec<Words>,
    /// Of each column the cells that are reached. The words of the others count for nothing.
    reached: Vec<u64>,
}

impl Model for Board {
    ghost Value = { Cells };

    ghost view = { λ board. record {
      size = board.size;
      words = board.words.items;
      reached = board.reached.items;
    } };

    ghost invariant = { λ board. (vec_len board.words ≡ board.size.columns * board.size.places)
        × (vec_len board.reached ≡ board.size.columns) };
}

impl Board {
    /// Room for all cells, which is taken once for all labels.
    pub(crate) fn new(alloc: Global, size: Size) -> Result<Board, AllocError>
        requires columns { size.columns ≤ 64 }
        requires places { size.places ≤ 64 }
        ensures { IfOk result (λ board. board.size ≡ size) }
    {
        let unread = Words { has: 0, lacks: 0 };
        Ok(Board {
            size,
            words: vec![in alloc; unread; size.columns * size.places]?,
            reached: vec![in alloc; 0; size.columns]?,
        })
    }

    /// How many columns there are.
    pub(crate) fn columns(&self) -> usize
        ensures { result ≡ self.now.size.columns }
    {
        self.size.columns
    }

    /// Whether the cell is reached.
    pub(crate) fn reaches(&self, column: usize, place: usize) -> bool
        requires column { column < self.now.size.columns }
        requires place { place < 64 }
        ensures { IsTrue result ↔ Tells self.now column place Reached }
    {
        self.reached[column] & (1 << place) != 0
    }

    /// Which cells of a column are reached: a bit for each place.
    pub(crate) fn reached_in(&self, column: usize) -> u64
        requires { column < self.now.size.columns }
        ensures { result ≡ slice_index self.now.reached column }
    {
        self.reached[column]
    }

    /// The words of a cell.
    pub(crate) fn words_at(&self, column: usize, place: usize) -> Words
        requires column { column < self.now.size.columns }
        requires place { place < self.now.size.places }
        ensures { result ≡ words_at self.now column place }
    {
        self.words[place * self.size.columns + column]
    }

    /// Makes all cells of a column unreached.
    pub(crate) fn clear(&mut self, column: usize)
        requires { column < self.old.size.columns }
        ensures clears { Clears self.old self.new column }
        ensures size { self.new.size ≡ self.old.size }
    {
        self.reached[column] = 0;
    }

    /// Adds words to a cell, which is reached then.
    pub(crate) fn add(&mut self, column: usize, place: usize, words: Words)
        requires column { column < self.old.size.columns }
        requires bit { place < 64 }
        requires place { place < self.old.size.places }
        ensures adds { Adds self.old self.new column place words }
        ensures size { self.new.size ≡ self.old.size }
    {
        let index = place * self.size.columns + column;
        let bits = self.reached[column];
        if bits & (1 << place) != 0 {
            let before = self.words[index];
            self.words[index] = Words {
                has: before.has | words.has,
                lacks: before.lacks | words.lacks,
            };
        } else {
            self.reached[column] = bits | 1 << place;
            self.words[index] = words;
        }
    }
}
