//! Laying out a variant graph from the substitutions of a label: what may stand in the place of which of its code
//! points. The last place of the label comes first.
ghost use Rattle.std.specs.Prelude.{◌≡◌, ◌+◌, ◌<◌, ◌≤◌, [], ◌∷◌, length, IfOk, OnOk};
ghost use Rattle.reading_kinds.specs.Readings.{AreSubstitutions, substitutions_at};
ghost use Rattle.variant_list.specs.inner.Plans.{IsPlan};
ghost use Rattle.variant_list.specs.inner.Layouts.{Draft, IsSound, IsLaid, HasTaken, HasEnded};
ghost use Rattle.variant_list.specs.inner.NetPlans.{IsNetOf};

use crate::edges::Edge;
use crate::graph::Graph;
use crate::layout::Layout;
use reading_kinds::{LabelSubstitutions, SubstitutionView};
use std::alloc::{AllocError, Global};
use std::marker::Model;

/// A variant graph, as far as it has been laid out. After an error it is half done, and good for nothing but to be let
/// go.
#[derive(Drop)]
struct NetDraft {
    layout: Layout,
    /// The places before the last code points of the label: before none of them, one, two, and so on.
    places: Vec<usize>,
    /// The edges of the place that is being laid out, in the order of its substitutions.
    begun: Vec<Edge>,
}

impl Model for NetDraft {
    ghost Value = { Draft };

    ghost view = { λ draft. record { plan = draft.layout; places = draft.places.items; begun = draft.begun.items } };

    ghost invariant = { λ draft. Unit {0} };
}

/// The variant graph of the substitutions of a label: a place for each of its beginnings, and a chain of edges for each
/// substitution.
pub(crate) fn lay_out(
    alloc: Global,
    substitutions: &LabelSubstitutions,
) -> Result<Graph, AllocError>
    requires { AreSubstitutions substitutions.now }
    ensures { IfOk result (IsNetOf substitutions.now) }
{
    let mut draft = NetDraft::new(alloc, substitutions.len())?;
    for place in (0..substitutions.len()).rev() {
        draft.add_substitutions(substitutions, place)?;
        draft.end_place()?;
    }
    Ok(draft.finished())
}

impl NetDraft {
    /// A variant graph with only the end of a label of so many code points. Memory for its places is taken at once,
    /// which is much faster than little by little.
    fn new(alloc: Global, count: usize) -> Result<NetDraft, AllocError>
        ensures { IfOk result (IsLaid []) }
    {
        let layout = Layout::new(alloc, count)?;
        let mut places = Vec::with_capacity(alloc, count.saturating_add(1))?;
        places.push(0)?;
        Ok(NetDraft {
            layout,
            places,
            begun: Vec::new(alloc),
        })
    }

    /// Adds the substitutions of the place that is being laid out.
    fn add_substitutions(
        &mut self,
        substitutions: &LabelSubstitutions,
        place: usize,
    ) -> Result<(), AllocError>
        requires sound { IsSound self.old }
        requires substitutions { AreSubstitutions substitutions.now }
        requires place { place < length substitutions.now }
        requires count { place + length self.old.places ≡ length substitutions.now }
        ensures { OnOk result (HasTaken self.old (substitutions_at substitutions.now place) self.new) }
    {
        for number in 0..substitutions.count_at(place) {
            self.add_substitution(substitutions.get(place, number))?;
        }
        Ok(())
    }

    /// Adds a substitution of the place that is being laid out.
    #[inline]
    fn add_substitution(&mut self, found: SubstitutionView<'_>) -> Result<(), AllocError>
        requires sound { IsSound self.old }
        requires some { 1 ≤ found.covers }
        requires within { found.covers ≤ length self.old.places }
        requires filled { 1 ≤ length found.points.now }
        ensures { OnOk result (HasTaken self.old
            (record { covers = found.entry.covers; kinds = found.entry.kinds; points = found.entry.points.now } ∷
            []) self.new) }
    {
        let to = self.places[self.places.len() - found.covers];
        let edge = self.layout.add_chain(found.points, to)?;
        self.begun.push(edge)?;
        Ok(())
    }

    /// Ends the place, which has no more substitutions, and goes on to the one before it.
    fn end_place(&mut self) -> Result<(), AllocError>
        requires sound { IsSound self.old }
        ensures { OnOk result (HasEnded self.old self.new) }
    {
        self.begun.sort_unstable_by_key(|edge| edge.point);
        let place = self.layout.add_place(&self.begun)?;
        self.begun.clear();
        self.places.push(place)?;
        Ok(())
    }

    /// The variant graph of the places that are done, from the last one on.
    fn finished(self) -> Graph
        requires { IsPlan self.plan }
        ensures { result ≡ self.plan }
    {
        self.layout.finished()
    }
}
