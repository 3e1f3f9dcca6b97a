//! Code points that are sources with which no other segment begins.

use crate::segments::{Segments, SinglePoint};
use std::marker::Model;

/// How many code points are cached of which it is known that they are single.
const SLOTS: usize = 16;

/// What stands in a slot in which none is cached.
const NO_POINT: u32 = u32::MAX;

/// The single points of a table, of which those are cached that were asked about last.
#[derive(Drop)]
pub struct SinglePoints<'a> {
    segments: &'a Segments<'a>,
    /// Such code points, each in the slot of its last bits.
    known: [SinglePoint; SLOTS],
}

impl<'a> Model for SinglePoints<'a> {
    ghost use Rattle.std.specs.List.{AllByRecursion};
    ghost use Rattle.variant_table.specs.Entries.{TableValue};
    ghost use Rattle.variant_table.specs.TableCodes.{table_code};
    ghost use Rattle.valid_labels.specs.inner.Singles.{IsKnown};

    ghost Value = { TableValue };

    ghost coded = { table_code };

    ghost view = { λ p. p.segments.now };

    ghost invariant = { λ p. AllByRecursion (IsKnown p.segments.now) p.known };
}

impl<'a> SinglePoints<'a> {
    ghost use Rattle.std.specs.Prelude.{◌≡◌, MatchOption, Option};
    ghost use Rattle.label_patterns.specs.declared.condition.Condition.{Condition};
    ghost use Rattle.valid_labels.specs.inner.Singles.{IsSingle};

    /// Those of a table.
    pub fn new(segments: &'a Segments<'a>) -> Self
        ensures { result ≡ segments.now }
    {
        let none = SinglePoint {
            point: NO_POINT,
            condition: None,
        };
        SinglePoints {
            segments,
            known: [none; SLOTS],
        }
    }

    /// The segments of the table.
    pub fn segments(&self) -> &'a Segments<'a>
        ensures { result.now ≡ self.now }
    {
        self.segments
    }

    /// What is known of a code point, if it is single.
    pub fn find(&mut self, point: u32) -> Option<SinglePoint>
        ensures single { MatchOption result ((c : Option Condition) → ¬ IsSingle self.old point c)
            (λ s. IsSingle self.old point s.condition) }
        ensures same { self.new ≡ self.old }
    {
        let slot = point as usize % SLOTS;
        let known = self.known[slot];
        if point != NO_POINT && known.point == point {
            return Some(known);
        }
        match self.segments.single(point) {
            Some(single) => {
                self.known[slot] = single;
                Some(single)
            }
            None => None,
        }
    }
}
