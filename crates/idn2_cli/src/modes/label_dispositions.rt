//! The dispositions of the labels that one label spells.

ghost use Rattle.std.specs.Prelude.{◌≡◌, ◌≢◌, ◌≤◌, true, ℕ, List, length, IfOk};
ghost use Rattle.variant_table.specs.Entries.{TableValue};
ghost use Rattle.valid_labels.specs.Testing.{IsAdmission};
ghost use Rattle.valid_labels.specs.Validity.{IsSound};
ghost use Rattle.valid_labels.specs.declared.validity.Admission.TheVariants.{Admitted};
ghost use Rattle.variant_list.specs.Substitutions.{substitutions_of};
ghost use Rattle.idn2_cli.specs.inner.Dispositions.{AreOfTable, AreRulesOf, appearance, asks_readings};

use crate::modes::dispositions::{Appearance, DecidedBy, Dispositions};
use answer_json::Disposition;
use reading_kinds::Readings;
use std::alloc::{AllocError, Global};
use std::marker::Model;
use variant_dispositions::{Disposition as Outcome, LabelRules};
use variant_list::{Cuts, substitutions_of};
use variant_table::Table;

/// What tells how the labels that a label spells appear in its listing. Contracts see the table and the label.
#[derive(Drop)]
pub(crate) struct LabelDispositions<'l> {
    table: &'l Table,
    of_table: &'l Dispositions,
    label: &'l [u32],
    /// The disposition of the label itself: of it those readings count in which each source stays (RFC 7940, section
    /// 8.1.1).
    own: Outcome,
    /// The readings of the others, where they make a difference.
    readings: Option<Readings>,
}

impl<'l> Model for LabelDispositions<'l> {
    ghost use Rattle.std.specs.Coded.{codes};
    ghost use Rattle.std.specs.Prelude.{◌≡◌, ◌≢◌, []};
    ghost use Rattle.variant_table.specs.TableCodes.{table_code};
    ghost use Rattle.valid_labels.specs.Validity.{IsSound};
    ghost use Rattle.valid_labels.specs.Testing.{IsAdmission};
    ghost use Rattle.valid_labels.specs.declared.validity.Admission.TheVariants.{Admitted};
    ghost use Rattle.idn2_cli.specs.inner.Dispositions.{AreOfTable, HasReadings, Listing};

    ghost Value = { Listing };

    ghost coded = { Prim.hlevel (codes, table_code) };

    ghost view = { λ d. record { table = d.table.now; label = d.label.now } };

    ghost invariant = { λ d. IsSound d.table.now × (d.label.now ≢ []) × AreOfTable d.table.now d.of_table.now
        × IsAdmission d.table.now d.label.now (Admitted d.own)
        × HasReadings d.table.now d.label.now d.of_table.now.by d.readings };
}

impl<'l> LabelDispositions<'l> {
    /// What tells them, of a label of 1 to 63 code points that the table admits with this disposition. It takes the
    /// memory for all that are asked.
    pub fn of_label(
        alloc: Global,
        table: &'l Table,
        of_table: &'l Dispositions,
        label: &'l [u32],
        own: Outcome,
    ) -> Result<LabelDispositions<'l>, AllocError>
        requires some { 1 ≤ length label.now }
        requires short { length label.now ≤ 63 }
        requires sound { IsSound table.now }
        requires of_table { AreOfTable table.now of_table.now }
        requires own { IsAdmission table.now label.now (Admitted own) }
        ensures { IfOk result (λ dispositions. dispositions ≡ record { table = table.now; label = label.now }) }
    {
        let readings = if of_table.asks_readings() {
            Some(readings_of(alloc, table, label)?)
        } else {
            None
        };
        Ok(LabelDispositions {
            table,
            of_table,
            label,
            own,
            readings,
        })
    }

    /// How another label of at most 63 code points, or the label itself, appears in its listing, by the rules that it
    /// matches. Takes no memory.
    #[inline]
    pub fn appearance<R: LabelRules>(&mut self, variant: &[u32], rules: &R) -> Appearance
        requires short { length variant.now ≤ 63 }
        requires rules { AreRulesOf self.old.table variant.now (R.matched rules.now) }
        ensures told { result ≡ appearance self.old.table self.old.label variant.now }
        ensures same { self.new ≡ self.old }
    {
        match self.of_table.by() {
            DecidedBy::Version1 => Appearance::Listed(None),
            DecidedBy::Nothing => Appearance::Listed(Some(Disposition::Allocatable)),
            _ => self.decided(variant, rules),
        }
    }

    /// The same where it has to be decided. Not inlined, so that variants without a disposition need no stack space for
    /// it.
    #[inline(never)]
    fn decided<R: LabelRules>(&mut self, variant: &[u32], rules: &R) -> Appearance
        requires short { length variant.now ≤ 63 }
        requires rules { AreRulesOf self.old.table variant.now (R.matched rules.now) }
        ensures told { result ≡ appearance self.old.table self.old.label variant.now }
        ensures same { self.new ≡ self.old }
    {
        match &mut self.readings {
            None => self.of_table.without_readings(rules),
            Some(readings) => {
                if variant == self.label {
                    return self.of_table.of_own(self.own);
                }
                appearance_read(self.of_table, readings, variant, rules)
            }
        }
    }
}

/// How a label of at most 63 code points appears in the listing of another one, by the readings of that.
fn appearance_read<R: LabelRules>(
    of_table: &Dispositions,
    readings: &mut Readings,
    variant: &[u32],
    rules: &R,
) -> Appearance
    requires short { length variant.now ≤ 63 }
    ensures told { (table : TableValue) (label : List ℕ) → IsSound table → AreOfTable table of_table.now →
        asks_readings of_table.now.by ≡ true → readings.old ≡ substitutions_of table label →
        AreRulesOf table variant.now (R.matched rules.now) → variant.now ≢ label →
        result ≡ appearance table label variant.now }
    ensures same { readings.new ≡ readings.old }
{
    match readings.words_of(variant) {
        Some(words) => of_table.of_words(words, rules),
        None => Appearance::Listed(Some(Disposition::Blocked)),
    }
}

/// The readings of a label of at most 63 code points.
pub(crate) fn readings_of(
    alloc: Global,
    table: &Table,
    label: &[u32],
) -> Result<Readings, AllocError>
    requires short { length label.now ≤ 63 }
    ensures { IfOk result (λ readings. readings ≡ substitutions_of table.now label.now) }
{
    let substitutions = substitutions_of(alloc, table, label, Cuts::Segmentations)?;
    Readings::new(alloc, substitutions)
}
