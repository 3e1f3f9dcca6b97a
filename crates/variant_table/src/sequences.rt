//! Sequences of code points, as parts of one vector.
ghost use Rattle.std.specs.Prelude.{◌≡◌, ◌<◌, ◌≤◌, [], ◌∷◌, ◌++◌, length, OnOk, OnErr, slice_get, Some, drop, map};
ghost use Rattle.std.specs.Prelude.{take};
ghost use Rattle.variant_dispositions.specs.Kinds.{IsTypeNumber};
ghost use Rattle.variant_table.specs.Entries.{sequences_in};
ghost use Rattle.std.specs.Iterator.{YieldsFirstRef, item_count};

use label_patterns::Condition;
use std::alloc::{AllocError, Global};
use std::marker::Model;

/// A part of a vector: the index where it begins, and the index after its last.
#[derive(Clone, Copy, PartialEq, Eq)]
pub struct Span {
    pub start: usize,
    pub end: usize,
}

/// A sequence as a part of a vector of code points, the number of its type, if it has one, and its condition. A ruleset
/// may have a million of them, so one is kept within 24 bytes.
#[derive(Drop)]
pub struct HeldSequence {
    pub span: Span,
    pub variant_type: Option<u8>,
    pub condition: Option<Condition>,
}

const _: () = prove!(size_of::<HeldSequence>() == 24);

/// Sequences of code points, each of which may have a type and a condition.
#[derive(Drop)]
pub struct Sequences {
    points: Vec<u32>,
    parts: Vec<HeldSequence>,
}

impl Model for Sequences {
    ghost use Rattle.std.specs.Prelude.{List, length};
    ghost use Rattle.variant_table.specs.Entries.{Variant as VariantValue};
    ghost use Rattle.variant_table.specs.inner.Held.{parts_of, ArePartsBelow};

    ghost Value = { List VariantValue };

    ghost view = { λ s. parts_of s.points.items s.parts.items };

    ghost invariant = { λ s. ArePartsBelow (length s.points.items) s.parts.items };
}

impl Sequences {
    pub fn new(alloc: Global) -> Self
        ensures { result ≡ [] }
    {
        Sequences {
            points: Vec::new(alloc),
            parts: Vec::new(alloc),
        }
    }

    pub fn len(&self) -> usize
        ensures { result ≡ length self.now }
    {
        self.parts.len()
    }

    pub fn get(&self, index: usize) -> &[u32]
        requires { index < length self.now }
        ensures { slice_get (sequences_in self.now) index ≡ Some result.now }
    {
        let span = self.parts[index].span;
        &self.points[span.start..span.end]
    }

    /// The number of the type of the sequence of this number.
    pub fn variant_type(&self, index: usize) -> Option<u8>
        requires { index < length self.now }
        ensures is { slice_get (map (λ v. v.type) self.now) index ≡ Some result }
        ensures small { IsTypeNumber result }
    {
        self.parts[index].variant_type
    }

    /// The condition of the sequence of this number.
    pub fn condition(&self, index: usize) -> Option<Condition>
        requires { index < length self.now }
        ensures { slice_get (map (λ v. v.condition) self.now) index ≡ Some result }
    {
        self.parts[index].condition
    }

    pub fn iter(&self) -> Iter<'_>
        ensures { drop result.next (sequences_in result.sequences.now) ≡ sequences_in self.now }
    {
        self.from_index(0)
    }

    /// The sequences from this number on.
    pub fn from_index(&self, next: usize) -> Iter<'_>
        ensures { drop result.next (sequences_in result.sequences.now) ≡ drop next (sequences_in self.now) }
    {
        Iter {
            sequences: self,
            next,
        }
    }

    pub fn clear(&mut self)
        ensures { self.new ≡ [] }
    {
        self.points.clear();
        self.parts.clear();
    }

    /// Adds a sequence. An `Err` changes nothing.
    pub fn push(
        &mut self,
        sequence: &[u32],
        variant_type: Option<u8>,
        condition: Option<Condition>,
    ) -> Result<(), AllocError>
        requires { IsTypeNumber variant_type }
        ensures ok { OnOk result (self.new ≡
            self.old ++ record { sequence = sequence.now; type = variant_type; condition = condition } ∷ []) }
        ensures err { OnErr result (self.new ≡ self.old) }
    {
        let start = self.points.len();
        self.points.extend_from_slice(sequence)?;
        let end = self.points.len();
        self.parts.push(HeldSequence {
            span: Span { start, end },
            variant_type,
            condition,
        })?;
        Ok(())
    }

    /// Adds sequences. After an `Err` some of them may have been added.
    pub fn append(&mut self, others: &Sequences) -> Result<(), AllocError>
        ensures ok { OnOk result (self.new ≡ self.old ++ others.now) }
        ensures kept { take (length self.old) self.new ≡ self.old }
    {
        for index in 0..others.len() {
            self.push(
                others.get(index),
                others.variant_type(index),
                others.condition(index),
            )?;
        }
        Ok(())
    }
}

/// The sequences from a number on.
#[derive(Drop)]
pub struct Iter<'a> {
    sequences: &'a Sequences,
    next: usize,
}

impl<'a> Iterator for Iter<'a> {
    type Item = &'a [u32];

    ghost next_gives = { YieldsFirstRef (λ s. drop s.next (sequences_in s.sequences.now)) };

    ghost remaining = { item_count (λ s. drop s.next (sequences_in s.sequences.now)) };

    fn next(&mut self) -> Option<&'a [u32]> {
        if self.next >= self.sequences.len() {
            return None;
        }
        let sequence = self.sequences.get(self.next);
        self.next += 1;
        Some(sequence)
    }
}
