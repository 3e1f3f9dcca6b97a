//! The pairs of a table that lack their reverse, turned round.
ghost use Rattle.std.specs.Prelude.{◌≡◌, ◌+◌, ◌<◌, ◌≤◌, ◌↔◌, ℕ, [], ◌∷◌, ◌++◌, List, true, false, length, Contains};
ghost use Rattle.std.specs.Prelude.{IsTrue, IsOk, IfOk, IfErr, OnOk};
ghost use Rattle.variant_table.specs.Gaps.{IsPair};
ghost use Rattle.variant_list.specs.Reversed.{AreReversedOf, AreFew, IsCrowded, IsCrowdedAt, IsReversed, sources_of};
ghost use Rattle.variant_list.specs.declared.reversed.ReversedFault.TheVariants.{TooManySources};
ghost use Rattle.variant_list.specs.inner.Turned.{sequences_of, groups_of, AreOfFirst, AreSound, Adds, HasNoRoom, Puts};

use std::alloc::{AllocError, Global};
use std::collections::BTreeMap;
use std::marker::Model;
use thiserror::Error;
use variant_table::Table;

/// A sequence is a variant of at most so many sources that aren't variants of it.
const SOURCE_LIMIT: usize = 64;

/// The sources that have a sequence as a variant and aren't variants of it. A table without gaps has none.
#[derive(Drop)]
pub struct Reversed {
    sources: Sources,
}

/// Sequences, and the sources of which each is a variant.
type Sources = BTreeMap<Vec<u32>, Vec<Vec<u32>>>;

impl Model for Reversed {
    ghost use Rattle.std.specs.Prelude.{List};
    ghost use Rattle.variant_list.specs.Reversed.{Group, AreFew};
    ghost use Rattle.variant_list.specs.inner.Turned.{groups_of};

    ghost Value = { List Group };

    ghost view = { λ r. groups_of r.sources.entries };

    ghost invariant = { λ r. AreFew (groups_of r.sources.entries) };
}

/// Why the pairs of a table aren't turned round.
#[derive(Clone, Copy, PartialEq, Eq, Debug, Drop, Error)]
pub enum ReversedFault {
    /// Some sequence is a variant of too many sources: the first one too many is that of the entry of this number.
    #[error("too many sources")]
    TooManySources { entry: usize },
    /// Memory was refused.
    #[error("out of memory")]
    Memory,
}

impl From<AllocError> for ReversedFault {
    ghost use Rattle.std.specs.Prelude.{◌≡◌};
    ghost use Rattle.variant_list.specs.declared.reversed.ReversedFault.TheVariants.{Memory};

    ghost from_gives = { λ _ fault. fault ≡ Memory };

    fn from(_: AllocError) -> ReversedFault {
        ReversedFault::Memory
    }
}

impl Reversed {
    /// The pairs of a table. `TooManySources` comes exactly where a sequence is a variant of more than 64 sources that
    /// aren't variants of it, with the entry whose source is the first 65th, and `Memory` only where memory was
    /// refused: none is taken for a table in which each pair has its reverse.
    pub fn of_table(alloc: Global, table: &Table) -> Result<Reversed, ReversedFault>
        ensures pairs { IfOk result (AreReversedOf table.now.entries) }
        ensures few { IfOk result AreFew }
        ensures uncrowded { IfOk result (λ _. (a : List ℕ) → ¬ IsCrowded table.now.entries a) }
        ensures crowded { IfErr result
            (λ fault. (entry : ℕ) → fault ≡ TooManySources entry → IsCrowdedAt table.now.entries entry) }
        ensures no_memory { ((a b : List ℕ) → ¬ IsReversed table.now.entries a b) → IsOk result }
    {
        let mut sources = BTreeMap::new(alloc);
        for number in 0..table.len() {
            add_entry(alloc, table, number, &mut sources)?;
        }
        Ok(Reversed { sources })
    }

    /// The sources of which a sequence is a variant, and that aren't variants of it.
    pub fn sources(&self, sequence: &[u32]) -> &[Vec<u32>]
        ensures sources { sequences_of result.now ≡ sources_of self.now sequence.now }
        ensures few { length result.now ≤ 64 }
    {
        match self.sources.get(sequence) {
            Some(sources) => sources,
            None => &[],
        }
    }
}

/// Adds the pairs of the entry of this number that lack their reverse.
fn add_entry(
    alloc: Global,
    table: &Table,
    entry_number: usize,
    sources: &mut Sources,
) -> Result<(), ReversedFault>
    requires in_table { entry_number < length table.now.entries }
    requires sound { AreSound (groups_of sources.old.entries) }
    requires earlier { AreOfFirst table.now.entries entry_number (groups_of sources.old.entries) }
    ensures adds { OnOk result
        (AreOfFirst table.now.entries (entry_number + 1) (groups_of sources.new.entries)) }
    ensures sound { OnOk result (AreSound (groups_of sources.new.entries)) }
    ensures crowded { IfErr result
        (λ fault. (entry : ℕ) → fault ≡ TooManySources entry → IsCrowdedAt table.now.entries entry) }
    ensures no_memory { ((a b : List ℕ) → ¬ IsReversed table.now.entries a b) → IsOk result }
{
    let entry = table.entry(entry_number);
    let source = entry.source();
    for number in 1..entry.replacements() {
        let variant = entry.replacement(number);
        if !is_pair(table, variant, source) {
            let has_room = add(alloc, sources, variant, source)?;
            if !has_room {
                return Err(ReversedFault::TooManySources {
                    entry: entry_number,
                });
            }
        }
    }
    Ok(())
}

/// Whether a sequence is a source, and another one its variant.
fn is_pair(table: &Table, source: &[u32], variant: &[u32]) -> bool
    ensures { IsTrue result ↔ IsPair table.now.entries source.now variant.now }
{
    match table.find(source) {
        Some(entry) => entry.has_variant(variant),
        None => false,
    }
}

/// Adds a source to those of a variant, unless it is there. Tells whether there is room for it; where there is none,
/// the variant has lost its sources.
fn add(
    alloc: Global,
    sources: &mut Sources,
    variant: &[u32],
    source: &[u32],
) -> Result<bool, AllocError>
    requires sound { AreSound (groups_of sources.old.entries) }
    ensures adds { IfOk result (λ has_room. has_room ≡ true →
        Adds (groups_of sources.old.entries) (groups_of sources.new.entries)
        (λ a b. (a ≡ variant.now) × (b ≡ source.now))) }
    ensures sound { IfOk result (λ has_room. has_room ≡ true → AreSound (groups_of sources.new.entries)) }
    ensures no_room { IfOk result
        (λ has_room. has_room ≡ false → HasNoRoom (groups_of sources.old.entries) variant.now source.now) }
{
    let mut of_variant = match sources.remove(variant) {
        Some(of_variant) => of_variant,
        None => Vec::new(alloc),
    };
    if !has(&of_variant, source) {
        if of_variant.len() >= SOURCE_LIMIT {
            return Ok(false);
        }
        push_copy(alloc, &mut of_variant, source)?;
    }
    put(alloc, sources, variant, of_variant)?;
    Ok(true)
}

/// Whether a sequence is one of these.
fn has(sequences: &[Vec<u32>], sequence: &[u32]) -> bool
    ensures { IsTrue result ↔ Contains (sequences_of sequences.now) sequence.now }
{
    for other in sequences {
        if other.as_slice() == sequence {
            return true;
        }
    }
    false
}

/// Adds a copy of a sequence.
fn push_copy(
    alloc: Global,
    sequences: &mut Vec<Vec<u32>>,
    sequence: &[u32],
) -> Result<(), AllocError>
    ensures { OnOk result (sequences_of sequences.new.items ≡ sequences_of sequences.old.items ++ sequence.now ∷ []) }
{
    sequences.push(Vec::from_slice(alloc, sequence)?)?;
    Ok(())
}

/// Puts the sources of a variant that has none.
fn put(
    alloc: Global,
    sources: &mut Sources,
    variant: &[u32],
    of_variant: Vec<Vec<u32>>,
) -> Result<(), AllocError>
    ensures { OnOk result
        (Puts (groups_of sources.old.entries) (groups_of sources.new.entries) variant.now
        (sequences_of of_variant.items)) }
{
    sources.insert(Vec::from_slice(alloc, variant)?, of_variant)?;
    Ok(())
}
