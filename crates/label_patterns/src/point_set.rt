//! Sets of code points.
ghost use Rattle.std.specs.Prelude.{◌≡◌, ◌≤◌, nat_lt, length, IfOk};
ghost use Rattle.label_patterns.specs.Sets.{is_in, Rise};
ghost use Rattle.label_patterns.specs.Places.{AreThePlaces};
ghost use Rattle.label_patterns.specs.CachedPlaces.{AreThePlacesBelow};

use crate::places::{both, point_places, with_place_if};
use crate::span::Span;
use std::alloc::{AllocError, Global};
use std::marker::Model;

/// A set of code points, as spans that rise.
#[derive(Drop)]
pub struct PointSet {
    spans: Vec<Span>,
}

impl Model for PointSet {
    ghost use Rattle.std.specs.Prelude.{List};
    ghost use Rattle.label_patterns.specs.declared.span.Span.{Span};
    ghost use Rattle.label_patterns.specs.Sets.{Rise};

    ghost Value = { List Span };

    ghost view = { λ s. s.spans.items };

    ghost invariant = { λ s. Rise s.spans.items };
}

impl PointSet {
    /// The set of these spans, none of which is empty, and each of which begins above the end of the one before.
    pub fn new(spans: Vec<Span>) -> Self
        requires { Rise spans.items }
        ensures { result ≡ spans.items }
    {
        PointSet { spans }
    }

    /// The set once more.
    ///
    /// `Err`: memory was refused.
    pub fn copied(&self, alloc: Global) -> Result<PointSet, AllocError>
        ensures { IfOk result (λ copy. copy ≡ self.now) }
    {
        let spans = Vec::from_slice(alloc, &self.spans)?;
        Ok(PointSet::new(spans))
    }

    /// The spans, which rise.
    pub fn spans(&self) -> &[Span]
        ensures { result.now ≡ self.now }
    {
        &self.spans
    }

    /// Whether a code point is in the set.
    pub fn contains(&self, point: u32) -> bool
        ensures { result ≡ is_in self.now point }
    {
        let place = self.spans.partition_point(
            |span: &Span| -> bool
                ensures { result ≡ nat_lt span.now.last point }
            { span.last < point },
        );
        place < self.spans.len() && self.spans[place].first <= point
    }

    /// The places of a label at which the set's code points stand.
    pub fn places(&self, label: &[u32]) -> u64
        requires { length label.now ≤ 63 }
        ensures { AreThePlaces (is_in self.now) label.now result }
    {
        let mut places = 0;
        for place in 0..label.len() {
            places = with_place_if(places, place, self.contains(label[place]));
        }
        places
    }

    /// The places of a label at which the set's code points stand, where `places` has those of the first `shared` code
    /// points.
    pub fn places_after(&self, label: &[u32], shared: usize, places: u64) -> u64
        requires short { length label.now ≤ 63 }
        requires shared { shared ≤ length label.now }
        requires kept { AreThePlacesBelow shared (is_in self.now) label.now places }
        ensures { AreThePlaces (is_in self.now) label.now result }
    {
        let mut found = both(places, point_places(shared));
        for place in shared..label.len() {
            found = with_place_if(found, place, self.contains(label[place]));
        }
        found
    }
}
