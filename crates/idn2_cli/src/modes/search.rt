//! The labels that a label may collide with under a table.

ghost use Rattle.std.specs.Prelude.{◌≡◌, ◌≢◌, ◌≤◌, ◌↔◌, ℕ, List, length, All, Contains, Err, IfOk, IfErr, None};
ghost use Rattle.idn_text.specs.Points.{AreScalarValues};
ghost use Rattle.idn_text.specs.declared.refusal.Refusal.TheVariants as refusals;
ghost use Rattle.valid_labels.specs.Testing.{IsAdmission};
ghost use Rattle.valid_labels.specs.Validity.{IsAdmitted};
ghost use Rattle.valid_labels.specs.declared.validity.Admission.TheVariants.{Admitted};
ghost use Rattle.variant_table.specs.Segmentations.{IsMadeOfSources};
ghost use Rattle.variant_list.specs.Closure.{AreNear};
ghost use Rattle.idn2_answers.specs.Answers.{IsRefusedAs};
ghost use Rattle.idn2_cli.specs.inner.Ruling.{Sees, ruling_in, ruling_of};
ghost use Rattle.idn2_cli.specs.inner.Searches.{IsNearOf, IsReady};

use crate::modes::admission::{admission_by, validity_test_by};
use crate::modes::decided::Decisions;
use crate::modes::dispositions::Dispositions;
use idn_text::Refusal;
use std::alloc::Global;
use valid_labels::{Admission, Segments, ValidityTest};
use variant_dispositions::Disposition;
use variant_list::{Net, NetFault, Reversed};
use variant_table::Table;

/// A table by which collisions are searched, and what is found of it once.
#[derive(Drop)]
pub(crate) struct Search<'t> {
    pub table: &'t Table,
    pub ruling: &'t Option<Segments<'t>>,
    pub dispositions: &'t Dispositions,
    pub reversed: &'t Reversed,
}

/// The labels that are near a label, as a variant graph, and what decides what each of them is to it.
#[derive(Drop)]
pub(crate) struct Near<'l> {
    pub net: Net,
    pub decisions: Decisions<'l>,
}

impl<'t> Search<'t> {
    /// What is near a label of 1 to 63 code points, where the table admits it; else why it doesn't, or that memory was
    /// refused.
    pub fn near<'l>(&'l self, alloc: Global, label: &'l [u32]) -> Result<Near<'l>, Refusal>
        requires ready { IsReady self.now }
        requires some { 1 ≤ length label.now }
        requires short { length label.now ≤ 63 }
        ensures near { IfOk result (IsNearOf self.now.table.now label.now) }
        ensures admitted { IfOk result (λ _. IsAdmitted self.now.table.now label.now) }
        ensures refused { IfErr result (λ refusal. refusal ≢ refusals.Memory →
            IsRefusedAs self.now.table.now label.now refusal) }
        // Where the table asks nothing of its labels, no memory is taken for one that isn't in it.
        ensures no_memory { self.now.ruling.now ≡ None → ¬ IsMadeOfSources self.now.table.now label.now →
            result ≡ Err refusals.NotInTable }
    {
        let Ok(mut validity) = validity_test_by(alloc, self.ruling) else {
            return Err(Refusal::Memory);
        };
        let actions = self.dispositions.actions();
        match admission_by(alloc, &mut validity, actions, self.table, label) {
            Ok(Admission::NotCut) => Err(Refusal::NotInTable),
            Ok(Admission::NotAdmitted) => Err(Refusal::NotValid),
            Ok(Admission::Admitted(own)) => self.near_admitted(alloc, label, own, validity),
            Err(_) => Err(Refusal::Memory),
        }
    }

    /// What is near a label that the table admits with this disposition.
    fn near_admitted<'l>(
        &'l self,
        alloc: Global,
        label: &'l [u32],
        own: Disposition,
        validity: Option<ValidityTest<'l>>,
    ) -> Result<Near<'l>, Refusal>
        requires ready { IsReady self.now }
        requires some { 1 ≤ length label.now }
        requires short { length label.now ≤ 63 }
        requires admitted { IsAdmission self.now.table.now label.now (Admitted own) }
        requires ruling { ruling_in validity ≡ ruling_of self.now.table.now }
        requires sees { Sees label.now validity }
        ensures near { IfOk result (IsNearOf self.now.table.now label.now) }
        ensures memory { IfErr result (λ refusal. refusal ≡ refusals.Memory) }
    {
        let net = self.net(alloc, label)?;
        let decisions = Decisions::of_label(
            self.table,
            self.dispositions,
            self.ruling,
            label,
            own,
            validity,
        );
        Ok(Near { net, decisions })
    }

    /// The variant graph of the labels that are near a label which the table admits.
    fn net(&self, alloc: Global, label: &[u32]) -> Result<Net, Refusal>
        requires ready { IsReady self.now }
        requires some { 1 ≤ length label.now }
        requires short { length label.now ≤ 63 }
        requires admitted { IsAdmitted self.now.table.now label.now }
        ensures near { IfOk result (λ net. (w : List ℕ) →
            Contains net.spelled w ↔ AreNear self.now.table.now label.now w) }
        ensures scalar_values { IfOk result (λ net. All AreScalarValues net.spelled) }
        ensures memory { IfErr result (λ refusal. refusal ≡ refusals.Memory) }
    {
        match Net::of_closure(alloc, self.table, self.reversed, label) {
            Ok(net) => Ok(net),
            // Such a label is near itself.
            Err(NetFault::NothingSpelled) => unreachable!(),
            Err(NetFault::Memory) => Err(Refusal::Memory),
        }
    }
}
