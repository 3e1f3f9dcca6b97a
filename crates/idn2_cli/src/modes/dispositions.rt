//! The dispositions of the labels that a label spells, by the types and actions of a table (RFC 7940, sections 7 and
//! 8.3).

ghost use Rattle.std.specs.Prelude.{◌≡◌, ◌≢◌, false, ℕ, List, [], IfOk, IsOk, Some};
ghost use Rattle.reading_kinds.specs.Readings.{SubstitutionsSpell};
ghost use Rattle.variant_table.specs.Entries.{TableValue};
ghost use Rattle.variant_dispositions.specs.Readings.{AreWordsOf};
ghost use Rattle.variant_dispositions.specs.declared.variant.VariantDisposition.TheVariants.{Clear};
ghost use Rattle.valid_labels.specs.Actions.{actions_of as actions_under};
ghost use Rattle.valid_labels.specs.Testing.{IsAdmission};
ghost use Rattle.valid_labels.specs.Validity.{IsSound};
ghost use Rattle.valid_labels.specs.declared.validity.Admission.TheVariants.{Admitted};
ghost use Rattle.variant_list.specs.Substitutions.{substitutions_of};
ghost use Rattle.idn2_answers.specs.Dispositions.{allocation};
ghost use Rattle.idn2_cli.specs.inner.Dispositions.{AreOfTable, AreRulesOf, IsDecidedBy, appearance};
ghost use Rattle.idn2_cli.specs.inner.Dispositions.{appearance_by, asks_readings};

use answer_json::Disposition;
use reading_kinds::Words;
use std::alloc::{AllocError, Global};
use valid_labels::actions_of;
use variant_dispositions::{
    Action, Disposition as Outcome, LabelRules, UNMAPPED, VariantDisposition, disposition_of,
    disposition_of_words, is_allocatable_in_some,
};
use variant_table::Table;

/// What a listing does with a label that is spelled.
#[derive(Clone, Copy)]
pub(crate) enum Appearance {
    /// It is left out: its disposition is invalid.
    LeftOut,
    /// It is listed, with its disposition, if the version of the table has any.
    Listed(Option<Disposition>),
}

/// What tells the dispositions of variants under a table. It is found once.
#[derive(Drop)]
pub(crate) struct Dispositions {
    actions: Vec<Action>,
    by: DecidedBy,
}

/// What decides the disposition of a variant.
#[derive(Clone, Copy)]
pub(crate) enum DecidedBy {
    /// No disposition is told: the table is of version 1.
    Version1,
    /// Nothing: each variant may be allocated, since nothing has a type, and there is no action.
    Nothing,
    /// The rules that actions ask for: nothing has a type.
    Rules,
    /// Whether some reading has no blocked variant: the table is of version 2.
    Blocked,
    /// What the readings of the variant record, and actions.
    Readings,
}

impl Dispositions {
    /// What tells the dispositions of a table's variants. It is an `Err` only where memory was refused, which is taken
    /// for actions alone.
    pub fn of_table(alloc: Global, table: &Table) -> Result<Self, AllocError>
        ensures of_table { IfOk result (AreOfTable table.now) }
        ensures no_memory { table.now.definitions.actions ≡ [] → IsOk result }
    {
        let actions = actions_of(alloc, table.definitions())?;
        let by = decided_by(table, &actions);
        Ok(Dispositions { actions, by })
    }

    /// The actions of the table.
    pub fn actions(&self) -> &[Action]
        ensures { (table : TableValue) → AreOfTable table self.now → result.now ≡ actions_under table.definitions }
    {
        &self.actions
    }

    /// What decides.
    #[inline]
    pub fn by(&self) -> DecidedBy
        ensures { result ≡ self.now.by }
    {
        self.by
    }

    /// Whether what the readings of a label record makes a difference.
    pub fn asks_readings(&self) -> bool
        ensures { result ≡ asks_readings self.now.by }
    {
        matches!(self.by, DecidedBy::Blocked | DecidedBy::Readings)
    }

    /// How a label appears where readings make no difference, by the rules that it matches.
    pub fn without_readings<R: LabelRules>(&self, rules: &R) -> Appearance
        requires { asks_readings self.now.by ≡ false }
        ensures { (table : TableValue) (label v : List ℕ) → AreOfTable table self.now →
            AreRulesOf table v (R.matched rules.now) → result ≡ appearance table label v }
    {
        match self.by {
            DecidedBy::Version1 => Appearance::Listed(None),
            DecidedBy::Rules => appearance_of(disposition_of(&self.actions, UNMAPPED, rules)),
            _ => Appearance::Listed(Some(Disposition::Allocatable)),
        }
    }

    /// How another label that is spelled appears, by the words of its readings and by the rules that it matches.
    pub fn of_words<R: LabelRules>(&self, words: Words, rules: &R) -> Appearance
        ensures { (table : TableValue) (label v : List ℕ) → IsSound table → AreOfTable table self.now →
            AreRulesOf table v (R.matched rules.now) → v ≢ label →
            SubstitutionsSpell (substitutions_of table label) v →
            AreWordsOf (substitutions_of table label) v words.has words.lacks → result ≡ appearance table label v }
    {
        match self.by {
            DecidedBy::Blocked => {
                let is_allocatable = is_allocatable_in_some(words);
                Appearance::Listed(Some(allocation(is_allocatable)))
            }
            DecidedBy::Readings => {
                appearance_told(disposition_of_words(&self.actions, words, rules))
            }
            _ => self.without_readings(rules),
        }
    }

    /// How a label appears in its own listing, by its disposition.
    pub fn of_own(&self, own: Outcome) -> Appearance
        ensures { (table : TableValue) (label : List ℕ) → IsSound table → label ≢ [] →
            AreOfTable table self.now → IsAdmission table label (Admitted own) →
            result ≡ appearance table label label }
    {
        match self.by {
            DecidedBy::Version1 => Appearance::Listed(None),
            DecidedBy::Nothing => Appearance::Listed(Some(Disposition::Allocatable)),
            DecidedBy::Blocked => Appearance::Listed(Some(Disposition::Allocatable)),
            _ => appearance_of(own),
        }
    }
}

/// What decides the dispositions of a table with these actions.
fn decided_by(table: &Table, actions: &[Action]) -> DecidedBy
    requires { actions.now ≡ actions_under table.now.definitions }
    ensures { IsDecidedBy table.now result }
{
    let version = table.version();
    if version == 1 {
        return DecidedBy::Version1;
    }
    if table.has_types() {
        return if version == 2 {
            DecidedBy::Blocked
        } else {
            DecidedBy::Readings
        };
    }
    if version == 2 || actions.is_empty() {
        DecidedBy::Nothing
    } else {
        DecidedBy::Rules
    }
}

/// How a label appears of which this is told.
fn appearance_told(told: VariantDisposition) -> Appearance
    ensures { result ≡ appearance_by (Some told) }
{
    match told {
        VariantDisposition::Clear(outcome) => appearance_of(outcome),
        VariantDisposition::Unclear => Appearance::Listed(Some(Disposition::Unclear)),
    }
}

/// How a label of this disposition appears.
fn appearance_of(outcome: Outcome) -> Appearance
    ensures { result ≡ appearance_by (Some (Clear outcome)) }
{
    match outcome {
        Outcome::Invalid => Appearance::LeftOut,
        _ => Appearance::Listed(Some(allocation(outcome.is_allocatable()))),
    }
}

/// The disposition that is told of a label, by whether the holder of the label asked about may have it.
fn allocation(is_allocatable: bool) -> Disposition
    ensures { result ≡ allocation is_allocatable }
{
    if is_allocatable {
        Disposition::Allocatable
    } else {
        Disposition::Blocked
    }
}
