//! What judges the variants of a block.

ghost use Rattle.std.specs.Prelude.{◌≡◌, ◌≤◌, length, None, IfOk, IsOk, OnErr};
ghost use Rattle.idn_label.specs.Memory.{NeedsNoMemory};
ghost use Rattle.valid_labels.specs.Validity.{IsSound};
ghost use Rattle.variant_list.specs.Beginnings.{shortest_hopeless};
ghost use Rattle.variant_list.specs.Sharing.{IsKeptOf};
ghost use Rattle.variant_list.specs.Verdicts.{IsVerdict};
ghost use Rattle.idn2_cli.specs.inner.Blocks.{IsListedOrNot, KnowsLabel, Tells, class_by, filter_of_judge};
ghost use Rattle.idn2_cli.specs.inner.ForGood.{none_listed};
ghost use Rattle.idn2_cli.specs.inner.Ruling.{Sees, ruling_in, ruling_of};

use crate::modes::admission::{dead_prefix_by, lesser, validity_by};
use crate::modes::cached_line::CachedLine;
use crate::modes::dispositions::Appearance;
use crate::modes::label_dispositions::LabelDispositions;
use crate::modes::matched_rules::MatchedRules;
use answer_json::Disposition;
use idn_class::{CachedPrefixes, Properties};
use idn_label::CachedALabel;
use idn_text::Refusal;
use std::alloc::{AllocError, Global};
use valid_labels::{Validity, ValidityTest};
use variant_list::{Judge, Verdict};

/// Only labels that may be registered are listed (RFC 5891 section 4.2), and under a ruleset only valid ones whose
/// disposition isn't invalid (RFC 7940 section 8). What a label shares at its start with the one before is neither
/// tested nor taken apart nor written again.
#[derive(Drop)]
pub(crate) struct VariantJudge<'p, 'd> {
    pub beginnings: CachedPrefixes,
    pub test: CachedALabel,
    pub line: CachedLine,
    pub validity: Option<ValidityTest<'p>>,
    pub dispositions: LabelDispositions<'d>,
    /// The disposition of the last label that was accepted, if its table has any.
    pub told: Option<Disposition>,
    pub properties: Properties,
}

impl<'p, 'd> VariantJudge<'p, 'd> {
    /// The verdict on a label that may be registered and is valid, by its disposition.
    #[inline(always)]
    fn decided(&mut self, label: &[u32]) -> Verdict
        requires short { length label.now ≤ 63 }
        requires sound { IsSound self.old.dispositions.table }
        requires sees { Sees label.now self.old.validity }
        requires ruling { ruling_in self.old.validity ≡ ruling_of self.old.dispositions.table }
        ensures verdict { IsListedOrNot self.old.dispositions label.now self.new.told result }
        ensures same { self.new ≡ record self.old { told = self.new.told } }
    {
        let rules = MatchedRules::of_test(&self.validity);
        match self.dispositions.appearance(label, &rules) {
            Appearance::LeftOut => Verdict::NotAccepted,
            Appearance::Listed(disposition) => {
                self.told = disposition;
                Verdict::Accepted
            }
        }
    }
}

impl<'p, 'd> Judge for VariantJudge<'p, 'd> {
    ghost accepted = { λ judge label. (filter_of_judge judge).accepts label };

    ghost dead = { λ judge label. (filter_of_judge judge).hopeless label };

    ghost class_of = { λ judge. class_by judge.dispositions };

    ghost tells = { λ judge label. Tells judge label };

    ghost keeps = { λ judge label. KnowsLabel judge label };

    ghost needs_none = { λ _ label. NeedsNoMemory label };

    ghost dead_for_good = { λ judge w z dead. none_listed judge.properties judge.validity judge.dispositions w z dead };

    /// Judges a label. It takes no memory for one of which the test needs none.
    fn judge(&mut self, alloc: Global, label: &[u32], shared: usize) -> Result<Verdict, AllocError>
        requires short { length label.now ≤ 63 }
        requires kept { IsKeptOf (KnowsLabel self.old) shared label.now }
        ensures kept { KnowsLabel self.new label.now }
        ensures verdict { IfOk result
            (IsVerdict (filter_of_judge self.old).accepts (filter_of_judge self.old).hopeless (Tells self.new)
            label.now) }
        ensures memory { OnErr result (shortest_hopeless (filter_of_judge self.old).hopeless label.now ≡ None) }
        ensures no_memory { NeedsNoMemory label.now → IsOk result }
        ensures same_labels { (filter_of_judge self.new).accepts ≡ (filter_of_judge self.old).accepts }
        ensures same_beginnings { (filter_of_judge self.new).hopeless ≡ (filter_of_judge self.old).hopeless }
        ensures same_classes { class_by self.new.dispositions ≡ class_by self.old.dispositions }
    {
        self.beginnings.keep(shared);
        self.test.keep(shared);
        self.line.keep(shared);
        let hopeless = self.beginnings.shortest_hopeless(label, self.properties);
        let validity = validity_by(&mut self.validity, label, shared);
        if let Some(count) = lesser(hopeless, dead_prefix_by(validity)) {
            return Ok(Verdict::DeadPrefix(count));
        }
        if let Validity::NotValid = validity {
            return Ok(Verdict::NotAccepted);
        }
        let facts = self.beginnings.facts();
        match self.test.test_label(alloc, label, facts, self.properties) {
            Ok(()) => Ok(self.decided(label)),
            Err(Refusal::Memory) => Err(AllocError),
            Err(_) => Ok(Verdict::NotAccepted),
        }
    }
}
