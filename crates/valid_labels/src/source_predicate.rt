//! What is asked of a source that stands in a label.
ghost use Rattle.std.specs.Prelude.{◌≡◌, ◌↔◌, ◌≤◌, ℕ, length, IsTrue};
ghost use Rattle.label_patterns.specs.Barring.{IsBarred};
ghost use Rattle.label_patterns.specs.Conditions.{ConditionHolds};
ghost use Rattle.variant_table.specs.Places.{EntryValue};

use label_patterns::{Condition, SeenLabel, condition_holds, is_barred};
use ruleset_text::Definitions;
use variant_table::Entry;

/// Something that is asked of the entry of a source that stands in a label.
pub trait SourcePredicate {
    /// What is asked of an entry whose source stands from one place to another.
    ghost asks: { Self → EntryValue → ℕ → ℕ → Type 0 };

    /// It can be asked in a label of so many code points.
    ghost can_ask: { Self → ℕ → Type 0 };

    /// Whether what is asked of an entry is so, where its source stands from `start` to `end` of a label.
    fn holds(&self, entry: &Entry<'_>, start: usize, end: usize) -> bool
        requires { (n : ℕ) × can_ask self.now n × (start ≤ n) × (end ≤ n) }
        ensures { IsTrue result ↔ asks self.now entry.now start end };
}

/// Nothing is asked of the source.
pub struct AnySource;

impl SourcePredicate for AnySource {
    ghost asks = { λ _ _ _ _. Unit {0} };

    ghost can_ask = { λ _ _. Unit {0} };

    fn holds(&self, _entry: &Entry<'_>, _start: usize, _end: usize) -> bool {
        true
    }
}

/// It is asked that the condition of the source isn't barred where it begins.
#[derive(Drop)]
pub struct UnbarredSource<'a> {
    pub definitions: &'a Definitions,
    pub seen: &'a SeenLabel<'a>,
}

impl<'a> SourcePredicate for UnbarredSource<'a> {
    ghost asks = { λ s e i _. IsBarred s.definitions.now.rules s.seen.now e.condition i → ⊥ };

    ghost can_ask = { λ s n. (s.seen.now.sets ≡ s.definitions.now.sets) × (n ≤ length s.seen.now.label) };

    fn holds(&self, entry: &Entry<'_>, start: usize, _end: usize) -> bool {
        !barred(entry.condition(0), self.definitions, self.seen, start)
    }
}

/// Whether a condition holds for the part of a label from `start` to `end`.
pub(crate) fn holds(
    condition: Option<Condition>,
    definitions: &Definitions,
    seen: &SeenLabel,
    start: usize,
    end: usize,
) -> bool
    requires sets { seen.now.sets ≡ definitions.now.sets }
    requires start { start ≤ length seen.now.label }
    requires end { end ≤ length seen.now.label }
    ensures { IsTrue result ↔ ConditionHolds definitions.now.rules seen.now condition start end }
{
    condition_holds(condition, definitions.rules(), seen, start, end)
}

/// Whether a condition is barred at a place of a label.
fn barred(
    condition: Option<Condition>,
    definitions: &Definitions,
    seen: &SeenLabel,
    start: usize,
) -> bool
    requires sets { seen.now.sets ≡ definitions.now.sets }
    requires start { start ≤ length seen.now.label }
    ensures { IsTrue result ↔ IsBarred definitions.now.rules seen.now condition start }
{
    is_barred(condition, definitions.rules(), seen, start)
}
