//! A test of labels that also keeps what it found out.
ghost use Rattle.std.specs.Prelude.{◌≡◌, ◌≤◌, ◌++◌, ℕ, Bool, false, List, length, IsTrue, None, IfOk, IsOk, OnErr};
ghost use Rattle.variant_list.specs.Beginnings.{shortest_hopeless};
ghost use Rattle.variant_list.specs.Sharing.{IsKeptOf};
ghost use Rattle.variant_list.specs.Verdicts.{IsVerdict};

use crate::filter::Filter;
use crate::verdict::Verdict;
use std::alloc::{AllocError, Global};

/// A test of labels that keeps what it found out of the last one. It is called for one label after another, and is told
/// how much both share at their start. What it keeps does not change which labels are accepted and which beginnings are
/// dead. So a listing gives the same labels whenever it is resumed.
pub trait Judge {
    /// Which labels are accepted.
    ghost accepted: { Self → List ℕ → Bool };

    /// Which prefixes are dead: no accepted label begins with one.
    ghost dead: { Self → List ℕ → Bool };

    /// In which class a label is. Like the two above it depends on the label alone.
    ghost class_of: { Self → List ℕ → ℕ } = { λ _ _. 0 };

    /// What the judge, once it accepted a label, tells of it.
    ghost tells: { Self → List ℕ → Type 0 };

    /// What the judge keeps is of this label.
    ghost keeps: { Self → List ℕ → Type 0 };

    /// Which labels are judged without memory.
    ghost needs_none: { Self → List ℕ → Type 0 } = { λ _ _. ⊥ };

    /// The verdict on a label of at most 63 code points, of which the first `shared` are those of a label that the
    /// judge keeps something of. Memory is needed only for a label without a dead prefix.
    fn judge(&mut self, alloc: Global, label: &[u32], shared: usize) -> Result<Verdict, AllocError>
        requires short { length label.now ≤ 63 }
        requires kept { IsKeptOf (keeps self.old) shared label.now }
        ensures kept { keeps self.new label.now }
        ensures verdict { IfOk result (IsVerdict (accepted self.old) (dead self.old) (tells self.new) label.now) }
        ensures memory { OnErr result (shortest_hopeless (dead self.old) label.now ≡ None) }
        ensures no_memory { needs_none self.old label.now → IsOk result }
        ensures same_needs { (v : List ℕ) → needs_none self.old v → needs_none self.new v }
        ensures same_labels { accepted self.new ≡ accepted self.old }
        ensures same_beginnings { dead self.new ≡ dead self.old }
        ensures same_classes { class_of self.new ≡ class_of self.old };

    /// No accepted label begins with a dead prefix.
    ghost dead_for_good: { (judge : Self) (w z : List ℕ) → IsTrue (dead judge w) → accepted judge (w ++ z) ≡ false };
}

/// A filter keeps nothing of a label, and tells nothing of one that it accepted.
impl<F: Filter> Judge for &F {
    ghost accepted = { λ filter. F.accepted filter.now };

    ghost dead = { λ filter. F.dead filter.now };

    ghost tells = { λ _ _. Unit {0} };

    ghost keeps = { λ _ _. Unit {0} };

    ghost dead_for_good = { λ filter w z. F.dead_for_good filter.now w z };

    fn judge(
        &mut self,
        alloc: Global,
        label: &[u32],
        _shared: usize,
    ) -> Result<Verdict, AllocError> {
        if let Some(count) = self.shortest_hopeless(label) {
            return Ok(Verdict::DeadPrefix(count));
        }
        if self.accepts(alloc, label)? {
            Ok(Verdict::Accepted)
        } else {
            Ok(Verdict::NotAccepted)
        }
    }
}
