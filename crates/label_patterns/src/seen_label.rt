//! A label as patterns see it.
ghost use Rattle.std.specs.Prelude.{◌≡◌, ◌≤◌, ◌<◌, ◌==◌, true, [], length, slice_index_or};
ghost use Rattle.label_patterns.specs.inner.Masks.{AreMasks};
ghost use Rattle.label_patterns.specs.CachedPlaces.{AreMasksBelow};
ghost use Rattle.label_patterns.specs.Matches.{Seen};
ghost use Rattle.label_patterns.specs.Places.{Has, AreThePlaces};
ghost use Rattle.label_patterns.specs.Sets.{is_in};

use crate::places::{places_of_point, point_places};
use crate::point_set::PointSet;
use std::marker::Model;

/// A label of at most 63 code points, with the sets that patterns name by their number.
#[derive(Drop)]
pub struct SeenLabel<'a> {
    sets: &'a [PointSet],
    label: &'a [u32],
    /// For each set the places at which its code points stand.
    masks: &'a [u64],
}

impl<'a> Model for SeenLabel<'a> {
    ghost use Rattle.std.specs.Prelude.{◌≤◌, length};
    ghost use Rattle.label_patterns.specs.Matches.{Seen};
    ghost use Rattle.label_patterns.specs.inner.Masks.{AreMasks};

    ghost Value = { Seen };

    ghost view = { λ s. record { sets = s.sets.now; label = s.label.now } };

    ghost invariant = { λ s. (length s.label.now ≤ 63) × AreMasks s.sets.now s.label.now s.masks.now };
}

impl<'a> SeenLabel<'a> {
    /// A label of at most 63 code points under these sets. `masks` has a number for each set, which is written over.
    pub fn new(sets: &'a [PointSet], label: &'a [u32], masks: &'a mut [u64]) -> Self
        requires short { length label.now ≤ 63 }
        requires room { length masks.old ≡ length sets.now }
        ensures { result ≡ (let seen : Seen = record { sets = sets.now; label = label.now } in seen) }
    {
        for number in 0..sets.len() {
            masks[number] = sets[number].places(label);
        }
        SeenLabel { sets, label, masks }
    }

    /// A label of at most 63 code points under these sets, of each of which `masks` has the places.
    pub fn of_masks(sets: &'a [PointSet], label: &'a [u32], masks: &'a [u64]) -> Self
        requires short { length label.now ≤ 63 }
        requires masks { AreMasks sets.now label.now masks.now }
        ensures { result ≡ (let seen : Seen = record { sets = sets.now; label = label.now } in seen) }
    {
        SeenLabel { sets, label, masks }
    }

    /// How many code points the label has.
    pub fn len(&self) -> usize
        ensures is { result ≡ length self.now.label }
        ensures short { result ≤ 63 }
    {
        self.label.len()
    }

    /// The places at which a code point stands.
    pub(crate) fn places_of_point(&self, point: u32) -> u64
        ensures places { AreThePlaces (λ c. c == point) self.now.label result }
        ensures below { Has result 63 → ⊥ }
    {
        places_of_point(self.label, point)
    }

    /// The places at which the code points of a set stand.
    pub(crate) fn places_of_set(&self, number: usize) -> u64
        requires { number < length self.now.sets }
        ensures places { AreThePlaces (is_in (slice_index_or self.now.sets number [])) self.now.label result }
        ensures below { Has result 63 → ⊥ }
    {
        let masks = self.masks;
        masks[number]
    }

    /// The places at which any code point stands.
    pub(crate) fn places_of_all(&self) -> u64
        ensures places { AreThePlaces (λ c. true) self.now.label result }
        ensures below { Has result 63 → ⊥ }
    {
        point_places(self.label.len())
    }
}

/// Makes the places of each set in a label of at most 63 code points of those that `masks` has of its first `shared`
/// code points.
pub fn renew_masks(sets: &[PointSet], label: &[u32], shared: usize, masks: &mut [u64])
    requires short { length label.now ≤ 63 }
    requires shared { shared ≤ length label.now }
    requires room { length masks.old ≡ length sets.now }
    requires kept { AreMasksBelow shared sets.now label.now masks.old }
    ensures { AreMasks sets.now label.now masks.new }
{
    for number in 0..sets.len() {
        masks[number] = sets[number].places_after(label, shared, masks[number]);
    }
}
