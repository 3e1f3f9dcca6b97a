//! The kinds of the readings of one label after another.
ghost use Rattle.std.specs.Prelude.{◌≡◌, ◌≤◌, ◌<◌, ◌↔◌, ℕ, length, take, IfOk, IsSome, IfSome, IsTrue};
ghost use Rattle.std.specs.Int.{bit_at};
ghost use Rattle.reading_kinds.specs.Readings.{AreSubstitutions, SubstitutionsSpell, SomeHas, SomeLacks};

use crate::board::{Board, Size, Words};
use crate::label_substitutions::LabelSubstitutions;
use std::alloc::{AllocError, Global};
use std::marker::Model;

/// The most code points of a label.
const MAX_LABEL_LEN: usize = 63;

/// What tells of one label after another which kinds its readings by some substitutions have. What was found for the
/// code points that a label shares with the one before at its start is kept. Contracts see the substitutions.
#[derive(Drop)]
pub struct Readings {
    substitutions: LabelSubstitutions,
    board: Board,
    /// The columns of the board are of these code points, so many.
    label: [u32; MAX_LABEL_LEN],
    count: usize,
}

impl Model for Readings {
    ghost use Rattle.std.specs.Prelude.{◌≡◌, ◌+◌, ◌<◌, ◌≤◌, List, length, take};
    ghost use Rattle.reading_kinds.specs.Readings.{Substitution, AreSubstitutions};
    ghost use Rattle.reading_kinds.specs.inner.Cells.{HasColumns, IsRight};

    ghost Value = { List (List Substitution) };

    ghost view = { λ r. r.substitutions };

    ghost invariant = { λ r. AreSubstitutions r.substitutions × (length r.substitutions ≤ 63) × (r.count ≤ 63) ×
        IsRight r.substitutions (take r.count r.label) r.board r.count ×
        HasColumns r.substitutions r.board.size.columns ×
        (r.board.size.places ≡ length r.substitutions + 1) };
}

impl Readings {
    /// The readings by these substitutions of a label of at most 63 code points. It takes the memory for all labels
    /// that are asked.
    pub fn new(alloc: Global, substitutions: LabelSubstitutions) -> Result<Readings, AllocError>
        requires substitutions { AreSubstitutions substitutions }
        requires short { length substitutions ≤ 63 }
        ensures { IfOk result (λ readings. readings ≡ substitutions) }
    {
        let places = substitutions.len();
        // What a place spells is no longer than the longest substitution.
        let longest = places.saturating_mul(substitutions.longest());
        let size = Size {
            columns: longest.min(MAX_LABEL_LEN) + 1,
            places: places + 1,
        };
        let mut board = Board::new(alloc, size)?;
        board.begin();
        Ok(Readings {
            substitutions,
            board,
            label: [0; MAX_LABEL_LEN],
            count: 0,
        })
    }

    /// The words of a label of at most 63 code points, if the substitutions spell it. Takes no memory.
    pub fn words_of(&mut self, label: &[u32]) -> Option<Words>
        requires { length label.now ≤ 63 }
        ensures same { self.new ≡ self.old }
        ensures spelled { IsSome result ↔ SubstitutionsSpell self.old label.now }
        ensures has { IfSome result (λ words. (k : ℕ) → k < 64 →
            (bit_at words.has k ≡ 1) ↔ SomeHas self.old label.now k) }
        ensures lacks { IfSome result (λ words. (k : ℕ) → k < 64 →
            (bit_at words.lacks k ≡ 1) ↔ SomeLacks self.old label.now k) }
    {
        if label.len() >= self.board.columns() {
            return None;
        }
        let kept = shared_len(&self.label[..self.count], label);
        self.board.fill(
            &self.substitutions,
            label,
            kept,
            self.substitutions.longest(),
        );
        self.label[..label.len()].copy_from_slice(label);
        self.count = label.len();
        self.board.words(&self.substitutions, label)
    }

    /// Whether the substitutions spell a label of at most 63 code points. Takes no memory.
    pub fn spells(&mut self, label: &[u32]) -> bool
        requires { length label.now ≤ 63 }
        ensures same { self.new ≡ self.old }
        ensures spelled { IsTrue result ↔ SubstitutionsSpell self.old label.now }
    {
        self.words_of(label).is_some()
    }
}

/// How many code points both labels share at their start.
fn shared_len(before: &[u32], label: &[u32]) -> usize
    ensures within { result ≤ length label.now }
    ensures within_before { result ≤ length before.now }
    ensures same { take result before.now ≡ take result label.now }
{
    let end = before.len().min(label.len());
    for index in 0..end {
        if before[index] != label[index] {
            return index;
        }
    }
    end
}
