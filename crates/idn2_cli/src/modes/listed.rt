//! What the whole listing of a label says of other labels.

ghost use Rattle.std.specs.Prelude.{◌≡◌, ◌≢◌, ◌≤◌, ◌↔◌, ℕ, List, length, IfOk, None, Some};
ghost use Rattle.variant_table.specs.Entries.{TableValue};
ghost use Rattle.valid_labels.specs.Validity.{IsSound};
ghost use Rattle.idn2_cli.specs.inner.Decided.{IsListingOf, listed_regard, regard_of as regard_in};
ghost use Rattle.idn2_cli.specs.inner.Dispositions.{AreOfTable, AreRulesOf};

use crate::modes::dispositions::{Appearance, Dispositions};
use crate::modes::label_dispositions::readings_of;
use answer_json::{Disposition, Regard};
use reading_kinds::Readings;
use std::alloc::{AllocError, Global};
use variant_dispositions::LabelRules;
use variant_table::Table;

/// Tells which other labels a label spells, and how they appear in its listing.
#[derive(Drop)]
pub(crate) struct Listed<'l> {
    of_table: &'l Dispositions,
    readings: Readings,
}

impl<'l> Listed<'l> {
    /// Of a label of at most 63 code points. It takes the memory for all other labels.
    pub fn of_label(
        alloc: Global,
        table: &Table,
        of_table: &'l Dispositions,
        label: &[u32],
    ) -> Result<Listed<'l>, AllocError>
        requires short { length label.now ≤ 63 }
        requires of_table { AreOfTable table.now of_table.now }
        ensures { IfOk result (IsListingOf table.now label.now) }
    {
        let readings = readings_of(alloc, table, label)?;
        Ok(Listed { of_table, readings })
    }

    /// What another label of at most 63 code points is to the label, by the rules that it matches, if the label spells
    /// it and it isn't left out. Takes no memory.
    pub fn regard<R: LabelRules>(&mut self, other: &[u32], rules: &R) -> Option<Regard>
        requires short { length other.now ≤ 63 }
        ensures regard { (table : TableValue) (label : List ℕ) → IsSound table → IsListingOf table label self.old →
            AreRulesOf table other.now (R.matched rules.now) → other.now ≢ label →
            result ≡ listed_regard table label other.now }
        ensures same { self.new ≡ self.old }
    {
        match self.readings.words_of(other) {
            None => None,
            Some(words) => regard_of(self.of_table.of_words(words, rules)),
        }
    }
}

/// What a variant is that appears so, if it is listed.
pub(crate) fn regard_of(appearance: Appearance) -> Option<Regard>
    ensures { result ≡ regard_in appearance }
{
    match appearance {
        Appearance::LeftOut => None,
        Appearance::Listed(None) => Some(Regard::Variant),
        Appearance::Listed(Some(Disposition::Allocatable)) => Some(Regard::Allocatable),
        Appearance::Listed(Some(_)) => Some(Regard::Blocked),
    }
}
