//! What two labels are to each other: whether they collide, and how (RFC 7940, sections 5.1 and 7.3).

ghost use Rattle.std.specs.Prelude.{◌≡◌, ◌≢◌, ◌≤◌, ◌↔◌, true, length, IsTrue, IfOk, IsOk, None, OnOk};
ghost use Rattle.idn_class.specs.declared.properties.Properties.{Properties};
ghost use Rattle.idn_label.specs.FirstFault.{IsRegistrable};
ghost use Rattle.valid_labels.specs.Testing.{IsAdmission};
ghost use Rattle.valid_labels.specs.declared.validity.Admission.TheVariants.{Admitted};
ghost use Rattle.valid_labels.specs.Validity.{IsSound};
ghost use Rattle.variant_table.specs.Segmentations.{IsMadeOfSources};
ghost use Rattle.variant_list.specs.Arising.{Arises};
ghost use Rattle.idn2_options.specs.Settings.{Settings};
ghost use Rattle.idn2_answers.specs.Listings.{is_registrable};
ghost use Rattle.idn2_answers.specs.Collisions.{IsGood, barred_in, is_either, is_something, regard_of, regards_of};
ghost use Rattle.idn2_cli.specs.inner.Decided.{Decides, IsMade, IsOfPair, IsStanding, listed_regard};
ghost use Rattle.idn2_cli.specs.inner.Dispositions.{AreOfTable};
ghost use Rattle.idn2_cli.specs.inner.Ruling.{Sees, ruling_in, ruling_of};

use crate::modes::admission::{admission_by, is_valid_by, validity_test_by};
use crate::modes::dispositions::{DecidedBy, Dispositions};
use crate::modes::listed::{Listed, regard_of};
use crate::modes::matched_rules::MatchedRules;
use answer_json::{Regard, Regards};
use idn_class::Properties;
use idn_label::check_registrable;
use idn_text::Refusal;
use reading_kinds::Readings;
use std::alloc::{AllocError, Global};
use valid_labels::{Admission, Segments, ValidityTest, is_made_of_sources};
use variant_dispositions::Disposition;
use variant_list::{Cuts, substitutions_of};
use variant_table::Table;

/// What today's rules say of a label.
#[derive(Clone, Copy)]
enum Standing {
    /// It may be registered, and the table admits it.
    Good,
    /// It may be registered, and be a variant, but the table doesn't admit it.
    VariantAlone,
    /// It can't be a variant either.
    Refused,
}

/// What decides what registered labels are to one label, which is good, and it to them.
#[derive(Drop)]
pub(crate) struct Decisions<'l> {
    table: &'l Table,
    of_table: &'l Dispositions,
    ruling: &'l Option<Segments<'l>>,
    label: &'l [u32],
    /// The disposition of the label itself.
    own: Disposition,
    /// The test that has seen the label itself.
    asked: Option<ValidityTest<'l>>,
    /// The test of other labels.
    others: Option<ValidityTest<'l>>,
    /// The whole listing of the label, once another label is decided.
    listed: Option<Listed<'l>>,
}

impl<'l> Decisions<'l> {
    /// Of a label of 1 to 63 code points, which the table admits with this disposition, with a test that has seen it.
    /// Memory for its listing is taken when another label is decided first.
    pub fn of_label(
        table: &'l Table,
        of_table: &'l Dispositions,
        ruling: &'l Option<Segments<'l>>,
        label: &'l [u32],
        own: Disposition,
        asked: Option<ValidityTest<'l>>,
    ) -> Decisions<'l>
        requires some { 1 ≤ length label.now }
        requires short { length label.now ≤ 63 }
        requires sound { IsSound table.now }
        requires of_table { AreOfTable table.now of_table.now }
        requires ruling { ruling.now ≡ ruling_of table.now }
        requires own { IsAdmission table.now label.now (Admitted own) }
        requires asked { ruling_in asked ≡ ruling_of table.now }
        requires sees { Sees label.now asked }
        ensures decides { Decides result }
        ensures pair { IsOfPair table.now label.now result }
    {
        Decisions {
            table,
            of_table,
            ruling,
            label,
            own,
            asked,
            others: None,
            listed: None,
        }
    }

    /// The one label.
    pub fn label(&self) -> &'l [u32]
        ensures { result.now ≡ self.now.label.now }
    {
        self.label
    }

    /// What another label of at most 63 code points is to the label, and back, by the properties by which labels may be
    /// registered. Of the label itself that takes no memory.
    pub fn regards(
        &mut self,
        alloc: Global,
        other: &[u32],
        properties: Properties,
    ) -> Result<Regards, AllocError>
        requires decides { Decides self.old }
        requires short { length other.now ≤ 63 }
        ensures regards { IfOk result (λ regards. (o : Settings) → IsGood o self.old.table.now self.old.label.now →
            o.properties ≡ properties →
            regards ≡ regards_of (is_registrable o.properties) self.old.table.now self.old.label.now other.now) }
        ensures no_memory { other.now ≡ self.old.label.now → IsOk result }
        ensures decides { Decides self.new }
        ensures pair { IsOfPair self.old.table.now self.old.label.now self.new }
    {
        if other == self.label {
            return Ok(self.own_regards());
        }
        let may_be_registered = may_be_registered(alloc, other, properties)?;
        self.make_listing(alloc)?;
        let standing = self.standing_of(alloc, other, may_be_registered)?;
        let there = self.there(alloc, other, standing)?;
        let back = self.back(alloc, other, standing)?;
        Ok(Regards { there, back })
    }

    /// Makes the listing of the label and the test of other labels, unless they were made.
    fn make_listing(&mut self, alloc: Global) -> Result<(), AllocError>
        requires decides { Decides self.old }
        ensures made { OnOk result (IsMade self.new) }
        ensures decides { Decides self.new }
        ensures pair { IsOfPair self.old.table.now self.old.label.now self.new }
    {
        if self.listed.is_none() {
            self.others = validity_test_by(alloc, self.ruling)?;
            self.listed = Some(Listed::of_label(alloc, self.table, self.of_table, self.label)?);
        }
        Ok(())
    }

    /// What the label is to itself, there and back.
    fn own_regards(&self) -> Regards
        requires decides { Decides self.now }
        ensures { (o : Settings) → IsGood o self.now.table.now self.now.label.now → result ≡
            regards_of (is_registrable o.properties) self.now.table.now self.now.label.now self.now.label.now }
    {
        let regard = regard_of(self.of_table.of_own(self.own)).unwrap_or(Regard::NoVariant);
        Regards {
            there: regard,
            back: regard,
        }
    }

    /// What today's rules say of a label of at most 63 code points, by whether it may be registered. If it may, the
    /// test of other labels has then seen it.
    fn standing_of(
        &mut self,
        alloc: Global,
        other: &[u32],
        may_be_registered: bool,
    ) -> Result<Standing, AllocError>
        requires decides { Decides self.old }
        requires made { IsMade self.old }
        requires some { may_be_registered ≡ true → 1 ≤ length other.now }
        requires short { length other.now ≤ 63 }
        ensures standing { IfOk result (λ standing. (properties : Properties) →
            (IsTrue may_be_registered ↔ IsRegistrable properties other.now) →
            IsStanding properties self.old.table.now other.now standing) }
        ensures sees { IfOk result (λ standing. standing ≢ Standing.Refused → Sees other.now self.new.others) }
        ensures no_memory { ruling_of self.old.table.now ≡ None → IsOk result }
        ensures decides { Decides self.new }
        ensures made { IsMade self.new }
        ensures pair { IsOfPair self.old.table.now self.old.label.now self.new }
    {
        if !may_be_registered {
            return Ok(Standing::Refused);
        }
        let actions = self.of_table.actions();
        let admission = admission_by(alloc, &mut self.others, actions, self.table, other)?;
        if let Admission::Admitted(_) = admission {
            return Ok(Standing::Good);
        }
        if is_valid_by(&mut self.others, other, other.len()) {
            Ok(Standing::VariantAlone)
        } else {
            Ok(Standing::Refused)
        }
    }

    /// What the other label is to this one.
    fn there(
        &mut self,
        alloc: Global,
        other: &[u32],
        standing: Standing,
    ) -> Result<Regard, AllocError>
        requires decides { Decides self.old }
        requires made { IsMade self.old }
        requires short { length other.now ≤ 63 }
        requires another { other.now ≢ self.old.label.now }
        requires sees { standing ≢ Standing.Refused → Sees other.now self.old.others }
        ensures regard { IfOk result (λ regard. (o : Settings) → IsGood o self.old.table.now self.old.label.now →
            IsStanding o.properties self.old.table.now other.now standing →
            regard ≡ regard_of (is_registrable o.properties) self.old.table.now self.old.label.now other.now) }
        ensures decides { Decides self.new }
        ensures pair { IsOfPair self.old.table.now self.old.label.now self.new }
    {
        match standing {
            Standing::Good => {
                let regard = self.regard_listed(other);
                Ok(regard.unwrap_or(Regard::NoVariant))
            }
            Standing::VariantAlone => match self.regard_listed(other) {
                Some(regard) => Ok(regard),
                None => self.barred(alloc, self.label, other),
            },
            Standing::Refused => self.barred(alloc, self.label, other),
        }
    }

    /// What another label, which the test of other labels has seen, is to the label by its listing, if that has it.
    fn regard_listed(&mut self, other: &[u32]) -> Option<Regard>
        requires decides { Decides self.old }
        requires made { IsMade self.old }
        requires short { length other.now ≤ 63 }
        requires another { other.now ≢ self.old.label.now }
        requires sees { Sees other.now self.old.others }
        ensures regard { result ≡ listed_regard self.old.table.now self.old.label.now other.now }
        ensures decides { Decides self.new }
        ensures pair { IsOfPair self.old.table.now self.old.label.now self.new }
    {
        let rules = MatchedRules::of_test(&self.others);
        let Some(listed) = &mut self.listed else {
            unreachable!()
        };
        listed.regard(other, &rules)
    }

    /// What this label is to the other one.
    fn back(&self, alloc: Global, other: &[u32], standing: Standing) -> Result<Regard, AllocError>
        requires decides { Decides self.now }
        requires short { length other.now ≤ 63 }
        requires another { other.now ≢ self.now.label.now }
        ensures regard { IfOk result (λ regard. (o : Settings) → IsGood o self.now.table.now self.now.label.now →
            IsStanding o.properties self.now.table.now other.now standing →
            regard ≡ regard_of (is_registrable o.properties) self.now.table.now other.now self.now.label.now) }
        ensures no_memory { standing ≢ Standing.Good → ¬ IsMadeOfSources self.now.table.now other.now → IsOk result }
    {
        match standing {
            Standing::Good => {
                let mut listed = Listed::of_label(alloc, self.table, self.of_table, other)?;
                let rules = MatchedRules::of_test(&self.asked);
                let regard = listed.regard(self.label, &rules);
                Ok(regard.unwrap_or(Regard::NoVariant))
            }
            _ => self.barred(alloc, other, self.label),
        }
    }

    /// What a label is to another one where it is no variant of it, and one of the two isn't good: nobody may have it,
    /// if it arises from the other.
    fn barred(&self, alloc: Global, label: &[u32], other: &[u32]) -> Result<Regard, AllocError>
        requires decides { Decides self.now }
        requires short { length label.now ≤ 63 }
        requires other { length other.now ≤ 63 }
        ensures arising { IfOk result
            (λ regard. Arises self.now.table.now label.now other.now → regard ≡ barred_in self.now.table.now.version) }
        ensures none { IfOk result
            (λ regard. ¬ Arises self.now.table.now label.now other.now → regard ≡ Regard.NoVariant) }
        ensures no_memory { ¬ IsMadeOfSources self.now.table.now label.now → IsOk result }
    {
        if !arises(alloc, self.table, label, other)? {
            return Ok(Regard::NoVariant);
        }
        match self.of_table.by() {
            DecidedBy::Version1 => Ok(Regard::Variant),
            _ => Ok(Regard::Blocked),
        }
    }
}

/// Whether one of two labels is something to the other.
pub(crate) fn is_either(regards: Regards) -> bool
    ensures { result ≡ is_either regards }
{
    is_something(regards.there) || is_something(regards.back)
}

/// Whether a label is something to another one.
fn is_something(regard: Regard) -> bool
    ensures { result ≡ is_something regard }
{
    !matches!(regard, Regard::NoVariant)
}

/// Whether a label may be registered.
fn may_be_registered(
    alloc: Global,
    label: &[u32],
    properties: Properties,
) -> Result<bool, AllocError>
    ensures { IfOk result (λ told. IsTrue told ↔ IsRegistrable properties label.now) }
{
    match check_registrable(alloc, label, properties) {
        Ok(()) => Ok(true),
        Err(Refusal::Memory) => Err(AllocError),
        Err(_) => Ok(false),
    }
}

/// Whether another label arises from a label, both of at most 63 code points. Nothing does from one that isn't made of
/// sources, and then no memory is taken.
fn arises(alloc: Global, table: &Table, label: &[u32], other: &[u32]) -> Result<bool, AllocError>
    requires short { length label.now ≤ 63 }
    requires other { length other.now ≤ 63 }
    ensures told { IfOk result (λ told. IsTrue told ↔ Arises table.now label.now other.now) }
    ensures no_memory { ¬ IsMadeOfSources table.now label.now → IsOk result }
{
    if !is_made_of_sources(table, label) {
        return Ok(false);
    }
    let substitutions = substitutions_of(alloc, table, label, Cuts::Anyhow)?;
    let mut readings = Readings::new(alloc, substitutions)?;
    Ok(readings.spells(other))
}
