//! The substitutions of a label, stored place by place.
ghost use Rattle.std.specs.Prelude.{◌≡◌, ℕ, ◌+◌, ◌<◌, ◌≤◌, List, length, slice_get, map, Some, Contains};
ghost use Rattle.reading_kinds.specs.Readings.{Substitution, substitutions_at};
ghost use Rattle.reading_kinds.specs.inner.Kept.{substitution_of, lists_of, IsKept};

use std::marker::Model;

/// From one place of a list up to another one.
#[derive(Clone, Copy)]
pub(crate) struct Part {
    pub(crate) start: usize,
    pub(crate) end: usize,
}

/// A substitution, and where its code points are kept.
#[derive(Clone, Copy)]
pub(crate) struct StoredSubstitution {
    pub(crate) covers: usize,
    pub(crate) kinds: u64,
    pub(crate) start: usize,
    pub(crate) end: usize,
}

/// A substitution as it is asked for: these points may stand in the place of so many code points of the label.
#[derive(Clone, Copy)]
pub struct SubstitutionView<'a> {
    pub covers: usize,
    pub kinds: u64,
    pub points: &'a [u32],
}

/// The substitutions of a label: a list for each of its places, with those that begin there.
#[derive(Drop)]
pub struct LabelSubstitutions {
    pub(crate) places: Vec<Part>,
    pub(crate) substitutions: Vec<StoredSubstitution>,
    pub(crate) points: Vec<u32>,
    /// No substitution has more code points.
    pub(crate) longest: usize,
}

impl Model for LabelSubstitutions {
    ghost Value = { List (List Substitution) };

    ghost view = { λ kept. lists_of
        (map (substitution_of kept.points.items) kept.substitutions.items) kept.places.items };

    ghost invariant = { λ kept. IsKept kept.points.items kept.substitutions.items kept.places.items kept.longest };
}

impl LabelSubstitutions {
    /// How many code points the label has.
    pub fn len(&self) -> usize
        ensures { result ≡ length self.now }
    {
        self.places.len()
    }

    /// As many code points as the longest substitution has, or more.
    pub fn longest(&self) -> usize
        ensures { (place : ℕ) (u : Substitution) → Contains (substitutions_at self.now place) u →
            length u.points ≤ result }
    {
        self.longest
    }

    /// How many substitutions begin at a place.
    pub fn count_at(&self, place: usize) -> usize
        requires { place < length self.now }
        ensures { result ≡ length (substitutions_at self.now place) }
    {
        let part = self.places[place];
        part.end - part.start
    }

    /// A substitution that begins at a place, by its number there.
    pub fn get(&self, place: usize, number: usize) -> SubstitutionView<'_>
        requires place { place < length self.now }
        requires number { number < length (substitutions_at self.now place) }
        ensures { slice_get (substitutions_at self.now place) number ≡
            Some (record { covers = result.covers; kinds = result.kinds; points = result.points.now }) }
    {
        let part = self.places[place];
        let kept = self.substitutions[part.start + number];
        SubstitutionView {
            covers: kept.covers,
            kinds: kept.kinds,
            points: &self.points[kept.start..kept.end],
        }
    }
}
