//! The disposition of a variant by all of its readings.
ghost use Rattle.std.specs.Prelude.{◌≡◌, ◌↔◌, ◌<◌, ◌≤◌, ℕ, Bool, List, [], length, IsTrue, IsSome, IfSome};
ghost use Rattle.std.specs.Int.{bit_at};
ghost use Rattle.reading_kinds.specs.Readings.{Substitution, SubstitutionsSpell};
ghost use Rattle.variant_dispositions.specs.Readings.{AreWordsOf, HasNoTypeButBlocked, IsAllocatableInSome, IsTold};

use crate::action::Action;
use crate::disposition::Disposition;
use crate::fold::disposition_of;
use crate::kinds::BLOCKED_BIT;
use crate::label_rules::LabelRules;
use reading_kinds::{Readings, Words};

/// What is told of a label that arises as a variant.
#[derive(Clone, Copy, PartialEq, Eq)]
pub enum VariantDisposition {
    /// All of its readings record the same.
    Clear(Disposition),
    /// Two readings record different kinds (RFC 7940, section 8.4).
    Unclear,
}

/// The disposition of a label of at most 63 code points by its readings. `None` if they don't spell it. Takes no
/// memory.
pub fn disposition_of_variant<R: LabelRules>(
    readings: &mut Readings,
    actions: &[Action],
    variant: &[u32],
    rules: &R,
) -> Option<VariantDisposition>
    requires { length variant.now ≤ 63 }
    ensures same { readings.new ≡ readings.old }
    ensures spelled { IsSome result ↔ SubstitutionsSpell readings.old variant.now }
    ensures told { IfSome result (IsTold (R.matched rules.now) actions.now readings.old variant.now) }
{
    match readings.words_of(variant) {
        Some(words) => Some(disposition_of_words(actions, words, rules)),
        None => None,
    }
}

/// The disposition of a label that is spelled, by the words of its readings.
pub fn disposition_of_words<R: LabelRules>(
    actions: &[Action],
    words: Words,
    rules: &R,
) -> VariantDisposition
    ensures { (substitutions : List (List Substitution)) (v : List ℕ) → SubstitutionsSpell substitutions v →
        AreWordsOf substitutions v words.has words.lacks →
        IsTold (R.matched rules.now) actions.now substitutions v result }
{
    if are_apart(words.has, words.lacks) {
        VariantDisposition::Clear(disposition_of(actions, words.has, rules))
    } else {
        VariantDisposition::Unclear
    }
}

/// Whether no bit is in both words.
fn are_apart(has: u64, lacks: u64) -> bool
    ensures { IsTrue result ↔ ((bit : ℕ) → bit < 64 → bit_at has bit ≡ 1 → bit_at lacks bit ≡ 1 → ⊥) }
{
    has & lacks == 0
}

/// Whether the holder may have a label by some of its readings, by the default actions, where no type but blocked is
/// recorded. So tables of version 2 are read, in which a label is never unclear.
pub fn is_allocatable_in_some(words: Words) -> bool
    ensures told { (matched : ℕ → Bool) (substitutions : List (List Substitution)) (v : List ℕ) →
        AreWordsOf substitutions v words.has words.lacks → HasNoTypeButBlocked substitutions v →
        IsTrue result ↔ IsAllocatableInSome matched [] substitutions v }
    ensures lacks { IsTrue result ↔ (bit_at words.lacks 3 ≡ 1) }
{
    words.lacks(BLOCKED_BIT)
}
