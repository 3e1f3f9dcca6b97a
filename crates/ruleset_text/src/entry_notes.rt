//! What is noted of the line of an entry while it is read.
ghost use Rattle.std.specs.Prelude.{◌≡◌, length, OnOk, Some};
ghost use Rattle.ruleset_text.specs.EntryFaults as faults;
ghost use Rattle.ruleset_text.specs.EntryForms.{notes};
ghost use Rattle.ruleset_text.specs.declared.fault.FaultPlace.TheVariants.{Lexeme};
ghost use Rattle.ruleset_text.specs.inner.EntryNoted.{and_notes, name_notes, nothing_noted, point_notes};
ghost use Rattle.ruleset_text.specs.inner.EntryNoted.{unless_defined};

use crate::classes::is_bad_point;
use crate::definitions::Definitions;
use crate::fault::{FaultPlace, LineFaults};
use std::alloc::{AllocError, Global};

/// The most sequences of an entry: a source and 16 variants.
const REPLACEMENT_LIMIT: usize = 17;

/// The most code points of a sequence.
pub const SEQUENCE_LIMIT: usize = 8;

/// A code point that a line names. All is counted from 0.
#[derive(Clone, Copy, PartialEq, Eq)]
pub struct LinePoint {
    /// The first byte of the lexeme that names it.
    pub place: usize,
    pub point: u32,
    /// The number of its sequence in the line. That of the source is 0.
    pub sequence: usize,
    /// The number of the code point in its sequence.
    pub index: usize,
}

/// Where the source and each variant of a line begin, and what is wrong with the line that its form doesn't show. The
/// memory is used again for each line.
#[derive(Drop)]
pub struct EntryNotes {
    /// The places of their first code points.
    pub begins: Vec<usize>,
    pub faults: LineFaults,
}

impl EntryNotes {
    pub fn new(alloc: Global) -> Self
        ensures { notes result ≡ nothing_noted }
    {
        EntryNotes {
            begins: Vec::new(alloc),
            faults: LineFaults::none(),
        }
    }

    /// Forgets the line before.
    pub(crate) fn clear(&mut self)
        ensures { notes self.new ≡ nothing_noted }
    {
        self.begins.clear();
        self.faults = LineFaults::none();
    }

    /// Notes a code point.
    // Always inline, with what it calls, since it is called for each code point that is read.
    #[inline(always)]
    #[tactic(auto, using(crate::proofs::LineFaultLemmas::or_nothing))]
    pub(crate) fn add_point(
        &mut self,
        alloc: Global,
        definitions: &Definitions,
        point: LinePoint,
    ) -> Result<(), AllocError>
        ensures { OnOk result (notes self.new ≡ and_notes (notes self.old) (point_notes definitions.now point)) }
    {
        if point.index == 0 {
            self.begins.push(point.place)?;
        }
        if let Some(past) = past_place(point) {
            self.faults.limit = self.faults.limit.or(Some(past));
        }
        if is_bad_point(alloc, definitions.properties(), point.point)? {
            let bad = FaultPlace::Point(point.place, point.point);
            self.faults.class = self.faults.class.or(Some(bad));
        }
        Ok(())
    }

    /// Notes the name of a type or of a rule, where it stands, if it isn't defined.
    pub(crate) fn add_name(&mut self, is_defined: bool, name: &[u8], place: usize)
        ensures { notes self.new ≡ and_notes (notes self.old)
            (name_notes (unless_defined is_defined (Lexeme place (length name.now)))) }
    {
        if self.faults.name.is_none() && !is_defined {
            self.faults.name = Some(FaultPlace::Lexeme(place, name.len()));
        }
    }

    /// Where the variant of this number begins. The source has the number 0.
    pub fn variant_place(&self, number: usize) -> Option<FaultPlace>
        ensures { result ≡ faults.variant_place self.now.begins.items (Some number) }
    {
        Some(FaultPlace::Variant(*self.begins.get(number)?))
    }

    /// Where the source begins.
    pub fn source_place(&self) -> Option<FaultPlace>
        ensures { result ≡ faults.source_place self.now.begins.items }
    {
        Some(FaultPlace::Source(*self.begins.first()?))
    }

    /// Where a range begins, for this one of its code points.
    pub fn range_place(&self, point: u32) -> Option<FaultPlace>
        ensures { result ≡ faults.range_place self.now.begins.items (Some point) }
    {
        Some(FaultPlace::InRange(*self.begins.first()?, point))
    }
}

/// What goes past a limit with a code point: the ninth of a sequence does, and the first of the seventeenth variant.
#[inline(always)]
fn past_place(point: LinePoint) -> Option<FaultPlace>
    ensures { result ≡ faults.past_place point }
{
    if point.index == SEQUENCE_LIMIT {
        Some(FaultPlace::NinthPoint(point.place, point.point))
    } else if point.sequence == REPLACEMENT_LIMIT {
        Some(FaultPlace::SeventeenthVariant(point.place, point.point))
    } else {
        None
    }
}
