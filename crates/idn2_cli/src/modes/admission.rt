//! Which labels a table admits, with which disposition, and why it refuses the others.

ghost use Rattle.std.specs.Prelude.{◌≡◌, ◌≢◌, ◌≤◌, ℕ, List, [], length, All, IfOk, IfErr, IsOk, None, Some};
ghost use Rattle.idn_text.specs.Points.{AreScalarValues};
ghost use Rattle.idn_text.specs.declared.refusal.Refusal.TheVariants as refusals;
ghost use Rattle.valid_labels.specs.Testing.{IsAdmission};
ghost use Rattle.valid_labels.specs.Validity.{IsAdmitted, IsSound};
ghost use Rattle.variant_list.specs.Spelled.{spelled};
ghost use Rattle.variant_list.specs.Variants.{in_order};
ghost use Rattle.idn2_answers.specs.Answers.{IsRefusedAs};
ghost use Rattle.valid_labels.specs.Actions.{actions_of};
ghost use Rattle.valid_labels.specs.Testing.{Testing};
ghost use Rattle.valid_labels.specs.declared.validity.Admission.TheVariants.{Admitted};
ghost use Rattle.idn2_cli.specs.inner.Ruling.{IsOwnBy, IsRefusedBy, IsValidityBy, KeepsOf, KeepsShared, Sees};
ghost use Rattle.idn2_cli.specs.inner.Ruling.{dead_prefix_in, lesser_count, passes, ruling_in, ruling_of};

use idn_text::Refusal;
use std::alloc::{AllocError, Global};
use valid_labels::{Admission, Segments, Validity, ValidityTest, asks_nothing, is_made_of_sources};
use variant_dispositions::{Action, Disposition};
use variant_list::{Net, NetFault};
use variant_table::Table;

/// What labels are tested by, where the table asks something of them; it is found once.
pub(crate) fn ruling_of_table(table: &Table) -> Option<Segments<'_>>
    ensures { result ≡ ruling_of table.now }
{
    // Only for the proof: the contract of `len` says that a table is well-formed.
    let _entries = table.len();
    if asks_nothing(table) {
        return None;
    }
    Some(Segments::of_table(table))
}

/// The test of the labels of one line.
pub(crate) fn validity_test_by<'p>(
    alloc: Global,
    ruling: &'p Option<Segments<'p>>,
) -> Result<Option<ValidityTest<'p>>, AllocError>
    ensures ruling { IfOk result (λ test. ruling_in test ≡ ruling.now) }
    ensures no_memory { ruling.now ≡ None → IsOk result }
{
    match ruling {
        None => Ok(None),
        Some(segments) => Ok(Some(ValidityTest::new(alloc, segments)?)),
    }
}

/// Whether the table admits a label of 1 to 63 code points, and if not, why. The test has then seen the label. Without
/// a test no memory is taken.
pub(crate) fn admission_by(
    alloc: Global,
    test: &mut Option<ValidityTest<'_>>,
    actions: &[Action],
    table: &Table,
    label: &[u32],
) -> Result<Admission, AllocError>
    requires some { 1 ≤ length label.now }
    requires short { length label.now ≤ 63 }
    requires sound { IsSound table.now }
    requires ruling { ruling_in test.old ≡ ruling_of table.now }
    requires actions { actions.now ≡ actions_of table.now.definitions }
    ensures admission { IfOk result (IsAdmission table.now label.now) }
    ensures sees { Sees label.now test.new }
    ensures same { ruling_in test.new ≡ ruling_in test.old }
    ensures no_memory { test.old ≡ None → IsOk result }
{
    match test {
        None => {
            if is_made_of_sources(table, label) {
                Ok(Admission::Admitted(Disposition::Valid))
            } else {
                Ok(Admission::NotCut)
            }
        }
        Some(test) => test.admission(alloc, actions, label),
    }
}

/// A label that the table admits: its variant graph, and its disposition.
#[derive(Drop)]
pub(crate) struct AdmittedLabel {
    pub net: Net,
    pub disposition: Disposition,
}

/// What is found of a label that the table admits, or why it refuses the label, or that memory was refused.
pub(crate) fn admitted_net(
    alloc: Global,
    table: &Table,
    validity: &mut Option<ValidityTest<'_>>,
    actions: &[Action],
    label: &[u32],
) -> Result<AdmittedLabel, Refusal>
    requires some { 1 ≤ length label.now }
    requires short { length label.now ≤ 63 }
    requires sound { IsSound table.now }
    requires ruling { ruling_in validity.old ≡ ruling_of table.now }
    requires actions { actions.now ≡ actions_of table.now.definitions }
    ensures spelled { IfOk result (λ found. in_order found.net.spelled ≡ in_order (spelled table.now label.now)) }
    ensures scalar_values { IfOk result (λ found. All AreScalarValues found.net.spelled) }
    ensures admitted { IfOk result (λ found. IsAdmission table.now label.now (Admitted found.disposition)) }
    ensures refused { IfErr result (λ refusal. refusal ≢ refusals.Memory → IsRefusedAs table.now label.now refusal) }
    ensures same { ruling_in validity.new ≡ ruling_in validity.old }
    ensures begun { (v : List ℕ) → IsOk result → KeepsOf v validity.new }
{
    let disposition = own_disposition(alloc, validity, actions, label)?;
    match Net::build(alloc, table, label) {
        Ok(net) => Ok(AdmittedLabel { net, disposition }),
        Err(NetFault::NothingSpelled) => Err(Refusal::NotInTable),
        Err(NetFault::Memory) => Err(Refusal::Memory),
    }
}

/// The disposition of a label that is admitted by a test, which keeps nothing then; or why it isn't. Without a test it
/// is the same for each label.
fn own_disposition(
    alloc: Global,
    validity: &mut Option<ValidityTest<'_>>,
    actions: &[Action],
    label: &[u32],
) -> Result<Disposition, Refusal>
    requires short { length label.now ≤ 63 }
    requires tested { (test : Testing) → validity.old ≡ Some test →
        IsSound test.table × (actions.now ≡ actions_of test.table.definitions) }
    ensures admitted { IfOk result (IsOwnBy (ruling_in validity.old) label.now) }
    ensures refused { IfErr result (λ refusal. refusal ≢ refusals.Memory →
        IsRefusedBy (ruling_in validity.old) label.now refusal) }
    ensures same { ruling_in validity.new ≡ ruling_in validity.old }
    ensures begun { (v : List ℕ) → IsOk result → KeepsOf v validity.new }
{
    match validity {
        None => Ok(Disposition::Valid),
        Some(test) => tested_disposition(alloc, test, actions, label),
    }
}

/// The same by a test.
fn tested_disposition(
    alloc: Global,
    test: &mut ValidityTest<'_>,
    actions: &[Action],
    label: &[u32],
) -> Result<Disposition, Refusal>
    requires short { length label.now ≤ 63 }
    requires actions { actions.now ≡ actions_of test.old.table.definitions }
    ensures admitted { IfOk result (λ d. IsAdmission test.old.table label.now (Admitted d)) }
    ensures refused { IfErr result (λ refusal. refusal ≢ refusals.Memory →
        IsRefusedAs test.old.table label.now refusal) }
    ensures same { test.new.table ≡ test.old.table }
    ensures kept { IsOk result → test.new.cached ≡ [] }
{
    match test.admission(alloc, actions, label) {
        Err(_) => Err(Refusal::Memory),
        Ok(Admission::NotCut) => Err(Refusal::NotInTable),
        Ok(Admission::NotAdmitted) => Err(Refusal::NotValid),
        Ok(Admission::Admitted(disposition)) => {
            test.forget();
            Ok(disposition)
        }
    }
}

/// Whether a label is valid, or how many code points its shortest dead prefix has. Without a test each label is. Its
/// first `shared` code points are those of the label before.
#[inline(always)]
pub(crate) fn validity_by(
    test: &mut Option<ValidityTest<'_>>,
    label: &[u32],
    shared: usize,
) -> Validity
    requires short { length label.now ≤ 63 }
    requires kept { KeepsShared test.old shared label.now }
    ensures validity { IsValidityBy (ruling_in test.old) label.now result }
    ensures kept { KeepsOf label.now test.new }
    ensures sees { Sees label.now test.new }
    ensures same { ruling_in test.new ≡ ruling_in test.old }
{
    match test {
        None => Validity::Valid,
        Some(test) => test.judge(label, shared),
    }
}

/// How many code points the shortest dead prefix of a label has, if it has one.
#[inline(always)]
pub(crate) fn dead_prefix_by(validity: Validity) -> Option<usize>
    ensures { result ≡ dead_prefix_in validity }
{
    match validity {
        Validity::DeadPrefix(count) => Some(count),
        Validity::Valid | Validity::NotValid => None,
    }
}

/// The lesser of two numbers, as far as they are there.
#[inline(always)]
pub(crate) fn lesser(a: Option<usize>, b: Option<usize>) -> Option<usize>
    ensures { result ≡ lesser_count a b }
{
    match (a, b) {
        (Some(a), Some(b)) => Some(a.min(b)),
        (Some(a), None) => Some(a),
        (None, b) => b,
    }
}

/// Whether a label that may be registered is valid, too.
#[inline(always)]
pub(crate) fn is_valid_by(test: &mut Option<ValidityTest<'_>>, label: &[u32], shared: usize) -> bool
    requires short { length label.now ≤ 63 }
    requires kept { KeepsShared test.old shared label.now }
    ensures passes { result ≡ passes (ruling_in test.old) label.now }
    ensures kept { KeepsOf label.now test.new }
    ensures sees { Sees label.now test.new }
    ensures same { ruling_in test.new ≡ ruling_in test.old }
{
    matches!(validity_by(test, label, shared), Validity::Valid)
}
