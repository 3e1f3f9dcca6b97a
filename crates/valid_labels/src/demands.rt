//! The demands of a table on each label.
ghost use Rattle.std.specs.Prelude.{◌≡◌, ◌↔◌, length, map, IsTrue, MatchOption};
ghost use Rattle.std.specs.List.{AllByRecursion};
ghost use Rattle.label_patterns.specs.FirstEnds.{IsFirstEnd};
ghost use Rattle.label_patterns.specs.Matches.{HasItsSets};
ghost use Rattle.label_patterns.specs.Rules.{Occurs};
ghost use Rattle.ruleset_text.specs.DemandTrees.{demand};
ghost use Rattle.valid_labels.specs.Demands.{IsMet};
ghost use Rattle.valid_labels.specs.inner.Ends.{IsRefusing, IsRefusedAt, NoneRefuses, lesser_of};

use label_patterns::{SeenLabel, first_end, ignores_end, occurs};
use ruleset_text::{Demand, DemandKind};

/// Whether a label meets all these demands.
pub fn are_met(demands: &[Demand], seen: &SeenLabel) -> bool
    requires { AllByRecursion (λ d. HasItsSets (length seen.now.sets) d.pattern) (map demand demands.now) }
    ensures { IsTrue result ↔ AllByRecursion (IsMet seen.now) (map demand demands.now) }
{
    for wanted in demands {
        if !is_met(wanted, seen) {
            return false;
        }
    }
    true
}

/// Whether a label meets a demand.
pub(crate) fn is_met(wanted: &Demand, seen: &SeenLabel) -> bool
    requires { HasItsSets (length seen.now.sets) (demand wanted.now).pattern }
    ensures { IsTrue result ↔ IsMet seen.now (demand wanted.now) }
{
    let found = occurs(&wanted.pattern, seen);
    match wanted.kind {
        DemandKind::Never => !found,
        DemandKind::Always => found,
    }
}

/// The least place where a part of a label ends that no label may have, whatever follows. `None` where it has no such
/// part.
pub fn refused_end(demands: &[Demand], seen: &SeenLabel) -> Option<usize>
    requires { AllByRecursion (λ d. HasItsSets (length seen.now.sets) d.pattern) (map demand demands.now) }
    ensures { MatchOption result (NoneRefuses seen.now (map demand demands.now))
        (IsRefusedAt seen.now (map demand demands.now)) }
{
    let mut least = None;
    for wanted in demands {
        if is_refusing(wanted) {
            least = lesser(least, first_end(&wanted.pattern, seen));
        }
    }
    least
}

/// Whether a demand refuses a part of a label whatever follows it.
fn is_refusing(wanted: &Demand) -> bool
    ensures { IsTrue result ↔ IsRefusing (demand wanted.now) }
{
    matches!(wanted.kind, DemandKind::Never) && ignores_end(&wanted.pattern)
}

/// The lesser one of two numbers, each of which may be missing.
fn lesser(left: Option<usize>, right: Option<usize>) -> Option<usize>
    ensures { result ≡ lesser_of left right }
{
    match (left, right) {
        (Some(left), Some(right)) => Some(if left < right { left } else { right }),
        (Some(left), None) => Some(left),
        (None, right) => right,
    }
}
