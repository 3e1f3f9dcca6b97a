//! The substitutions of a label, as they are found place by place.
ghost use Rattle.std.specs.Prelude.{◌≡◌, ℕ, ◌≤◌, List, [], ◌∷◌, ◌++◌, length, map, drop, IfOk, OnOk};
ghost use Rattle.reading_kinds.specs.Readings.{Substitution};
ghost use Rattle.reading_kinds.specs.Drafts.{Draft, with_substitutions};
ghost use Rattle.reading_kinds.specs.inner.Kept.{substitution_of, lists_of, IsKept};

use crate::label_substitutions::{LabelSubstitutions, Part, StoredSubstitution};
use std::alloc::{AllocError, Global};
use std::marker::Model;

/// The substitutions of the places that are done, and of the one that isn't. After an error it is good for nothing but
/// to be let go.
#[derive(Drop)]
pub struct SubstitutionsDraft {
    places: Vec<Part>,
    substitutions: Vec<StoredSubstitution>,
    points: Vec<u32>,
    longest: usize,
    /// Where the substitutions of the place begin that isn't done.
    start: usize,
}

impl Model for SubstitutionsDraft {
    ghost Value = { Draft };

    ghost view = { λ draft. record {
      done = lists_of
          (map (substitution_of draft.points.items) draft.substitutions.items) draft.places.items;
      begun = drop draft.start (map (substitution_of draft.points.items) draft.substitutions.items);
    } };

    ghost invariant = { λ draft. IsKept draft.points.items draft.substitutions.items draft.places.items draft.longest ×
        (draft.start ≤ length draft.substitutions.items) };
}

impl SubstitutionsDraft {
    /// No place is done.
    pub fn new(alloc: Global) -> Self
        ensures { result ≡ record { done = []; begun = [] } }
    {
        SubstitutionsDraft {
            places: Vec::new(alloc),
            substitutions: Vec::new(alloc),
            points: Vec::new(alloc),
            longest: 0,
            start: 0,
        }
    }

    /// Adds a substitution to the place that isn't done.
    pub fn add(&mut self, covers: usize, kinds: u64, points: &[u32]) -> Result<(), AllocError>
        ensures { OnOk result (self.new ≡
            with_substitutions self.old (record { covers = covers; kinds = kinds; points = points.now } ∷ [])) }
    {
        let start = self.points.len();
        self.points.extend_from_slice(points)?;
        let end = self.points.len();
        self.substitutions.push(StoredSubstitution {
            covers,
            kinds,
            start,
            end,
        })?;
        self.longest = self.longest.max(points.len());
        Ok(())
    }

    /// Ends the place, and goes on to the next one.
    pub fn end_place(&mut self) -> Result<(), AllocError>
        ensures { OnOk result (self.new ≡ record { done = self.old.done ++ self.old.begun ∷ []; begun = [] }) }
    {
        let end = self.substitutions.len();
        self.places.push(Part {
            start: self.start,
            end,
        })?;
        self.start = end;
        Ok(())
    }

    /// The substitutions of the places that are done.
    pub fn finished(self) -> LabelSubstitutions
        ensures { result ≡ self.done }
    {
        LabelSubstitutions {
            places: self.places,
            substitutions: self.substitutions,
            points: self.points,
            longest: self.longest,
        }
    }
}
