//! Where single points stand in a label, by what is asked of them.
ghost use Rattle.std.specs.Prelude.{◌≡◌, ◌⊎◌, ◌<◌, ◌≤◌, ℕ, length, slice_index};
ghost use Rattle.label_patterns.specs.Places.{Has};

use crate::cutting::SingleSteps;
use crate::single_points::SinglePoints;
use idn_class::CachedLabel;
use label_patterns::{
    Condition, ConditionKind, PatternTree, SeenLabel, both, either, holding_points, point_places,
    with_place_if, without,
};
use std::alloc::{AllocError, Global};

/// Places of a label at which single points stand.
#[derive(Drop)]
pub struct SinglePlaces {
    /// Those at which nothing is asked.
    free: u64,
    /// For each rule those at which it is to hold.
    when: Vec<u64>,
    /// For each rule those at which it is not to hold.
    unless: Vec<u64>,
}

impl SinglePlaces {
    ghost use Rattle.std.specs.Prelude.{◌≡◌, ◌⊎◌, ◌+◌, ◌<◌, ◌≤◌, ℕ, length, map, take, IfOk, None, Option};
    ghost use Rattle.std.specs.List.{AllByRecursion};
    ghost use Rattle.label_patterns.specs.declared.condition.Condition.{Condition};
    ghost use Rattle.label_patterns.specs.Conditions.{ConditionHolds};
    ghost use Rattle.label_patterns.specs.Matches.{HasItsSets};
    ghost use Rattle.label_patterns.specs.Places.{Has};
    ghost use Rattle.label_patterns.specs.Trees.{pattern};
    ghost use Rattle.valid_labels.specs.inner.Singles.{asked_at, AreHoldingSteps, AreSingles, HasRoom};

    /// None, under so many rules. It is an `Err` only where memory was refused.
    pub fn new(alloc: Global, rules: usize) -> Result<Self, AllocError>
        ensures room { IfOk result (HasRoom rules) }
        ensures none { IfOk result (λ places. (i : ℕ) (c : Option Condition) → Has (asked_at places c) i → ⊥) }
    {
        Ok(SinglePlaces {
            free: 0,
            when: vec![in alloc; 0; rules]?,
            unless: vec![in alloc; 0; rules]?,
        })
    }

    /// Makes those of a label of those that are cached of a label with the same first `shared` code points, which is
    /// `cached`.
    pub fn renew(
        &mut self,
        points: &mut SinglePoints<'_>,
        cached: &CachedLabel,
        label: &[u32],
        shared: usize,
    )
        requires short { length label.now ≤ 63 }
        requires shared { shared ≤ length label.now }
        requires same { take shared cached.now ≡ take shared label.now }
        requires singles { AreSingles (length cached.now) points.old cached.now self.old }
        ensures singles { AreSingles (length label.now) points.old label.now self.new }
        ensures same { points.new ≡ points.old }
        ensures room { (n : ℕ) → HasRoom n self.old → HasRoom n self.new }
    {
        self.keep_first(shared);
        for place in shared..label.len() {
            if let Some(single) = points.find(label[place]) {
                self.add(place, single.condition);
            }
        }
    }

    /// Leaves out the places from this one on.
    fn keep_first(&mut self, shared: usize)
        requires { shared ≤ 63 }
        ensures first { (i : ℕ) (c : Option Condition) → Has (asked_at self.new c) i →
            (i < shared) × Has (asked_at self.old c) i }
        ensures room { (n : ℕ) → HasRoom n self.old → HasRoom n self.new }
    {
        self.free = both(self.free, point_places(shared));
        keep_first(&mut self.when, shared);
        keep_first(&mut self.unless, shared);
    }

    /// Adds a place at which this is asked.
    fn add(&mut self, place: usize, condition: Option<Condition>)
        requires { place < 64 }
        ensures added { (i : ℕ) (c : Option Condition) → Has (asked_at self.new c) i →
            Has (asked_at self.old c) i ⊎ ((c ≡ condition) × (i ≡ place)) }
        ensures room { (n : ℕ) → HasRoom n self.old → HasRoom n self.new }
    {
        match condition {
            None => self.free = with_place_if(self.free, place, true),
            Some(asked) => match asked.kind {
                ConditionKind::When => add_place(&mut self.when, asked.rule as usize, place),
                ConditionKind::Unless => add_place(&mut self.unless, asked.rule as usize, place),
            },
        }
    }

    /// The places at which nothing is asked: from each of them the code point that stands there leads on.
    pub fn free_steps(&self) -> SingleSteps
        ensures known { result.known ≡ asked_at self.now None }
        ensures leading { result.leading ≡ asked_at self.now None }
    {
        SingleSteps {
            known: self.free,
            leading: self.free,
        }
    }

    /// From which of the places the code point that stands there leads on, since what is asked there is so.
    pub fn holding_steps(&self, rules: &[PatternTree], seen: &SeenLabel<'_>) -> SingleSteps
        requires sets { AllByRecursion (HasItsSets (length seen.now.sets)) (map pattern rules.now) }
        requires room { HasRoom (length rules.now) self.now }
        requires within { (i : ℕ) (c : Option Condition) → Has (asked_at self.now c) i → i < length seen.now.label }
        ensures { AreHoldingSteps (map pattern rules.now) seen.now self.now result }
    {
        let mut known = self.free;
        let mut leading = self.free;
        for number in 0..rules.len() {
            let when = self.when[number];
            let unless = self.unless[number];
            let asked = either(when, unless);
            if asked != 0 {
                let holding = holding_points(&rules[number], seen);
                known = either(known, asked);
                leading = either(
                    leading,
                    either(both(when, holding), without(unless, holding)),
                );
            }
        }
        SingleSteps { known, leading }
    }
}

/// Takes from each of the sets what isn't before a place.
fn keep_first(sets: &mut [u64], shared: usize)
    requires { shared ≤ 63 }
    ensures first { (m i : ℕ) → Has (slice_index sets.new m) i → (i < shared) × Has (slice_index sets.old m) i }
    ensures room { length sets.new ≡ length sets.old }
{
    let first = point_places(shared);
    for number in 0..sets.len() {
        sets[number] = both(sets[number], first);
    }
}

/// Adds a place to the set of this number.
fn add_place(sets: &mut [u64], number: usize, place: usize)
    requires { place < 64 }
    ensures added { (m i : ℕ) → Has (slice_index sets.new m) i →
        Has (slice_index sets.old m) i ⊎ ((m ≡ number) × (i ≡ place)) }
    ensures room { length sets.new ≡ length sets.old }
{
    if number < sets.len() {
        sets[number] = with_place_if(sets[number], place, true);
    }
}
