//! The test of one label after another, which keeps the A-label, and of the Punycode what both labels share.
ghost use Rattle.std.specs.Prelude.{◌≡◌, ◌≢◌, ◌≤◌, ℕ, List, [], min, length, take, true, Err, OnOk};
ghost use Rattle.idna.specs.Validity.{is_all_ascii};
ghost use Rattle.idn_class.specs.Facts.{AreFactsOf};
ghost use Rattle.idn_punycode.specs.Cached.{IsTakenApart};
ghost use Rattle.idn_label.specs.ALabel.{a_label_of};
ghost use Rattle.idn_label.specs.Answers.{RefusesBy};
ghost use Rattle.idn_label.specs.FirstFault.{first_fault, IsRegistrable};
ghost use Rattle.idn_label.specs.Memory.{NeedsNoMemory};

use crate::a_label::{ALabel, ascii_text};
use crate::first_fault::check_label;
use crate::unit::is_all_ascii;
use idn_class::{Facts, MAX_LABEL_LEN, Properties};
use idn_punycode::CachedPunycode;
use idn_text::Refusal;
use std::alloc::Global;
use std::marker::Model;

/// Tests labels for registration, and keeps the A-label of the last one. The digits that the next one's begins with too
/// are not written again. Contracts see the A-label, and what the first code points are taken apart into.
#[derive(Drop)]
pub struct CachedALabel {
    a_label: CachedPunycode,
}

impl Model for CachedALabel {
    ghost use Rattle.idn_punycode.specs.Cached.{Cached};

    ghost Value = { Cached };

    ghost view = { λ cached. cached.a_label };

    ghost invariant = { λ cached. Unit {0} };
}

impl CachedALabel {
    /// No A-label is cached, and no label is taken apart.
    pub fn new() -> CachedALabel
        ensures text { result.text ≡ [] }
        ensures apart { (label : List ℕ) → IsTakenApart label result }
    {
        CachedALabel {
            a_label: CachedPunycode::new(),
        }
    }

    /// The A-label of the last label, if it may be registered.
    pub fn a_label(&self) -> &ALabel
        ensures { result.now.bytes ≡ self.now.text }
    {
        self.a_label.text()
    }

    /// Goes over to labels that begin with the same `count` code points.
    #[inline]
    pub fn keep(&mut self, count: usize)
        ensures count { self.new.apart ≡ min self.old.apart count }
        ensures apart { (before label : List ℕ) → IsTakenApart before self.old →
            take count before ≡ take count label → IsTakenApart label self.new }
    {
        self.a_label.keep(count);
    }

    /// Keeps the A-label of a label that may be registered, else tells its first fault, as the function `test_label`
    /// does. The facts of the label are known, and what is taken apart must be of it. At a fault nothing is said of the
    /// A-label that is then cached.
    #[tactic(auto, using(crate::proofs::FaultLemmas::measured), unfolding(crate::specs::ALabel::a_label_of))]
    pub fn test_label(
        &mut self,
        alloc: Global,
        label: &[u32],
        facts: Facts,
        properties: Properties,
    ) -> Result<(), Refusal>
        requires facts { AreFactsOf facts label.now }
        requires begun { IsTakenApart label.now self.old }
        ensures apart { IsTakenApart label.now self.new }
        ensures registrable { OnOk result (IsRegistrable properties label.now) }
        ensures a_label { OnOk result (self.new.text ≡ a_label_of label.now) }
        ensures fault { RefusesBy result (first_fault properties label.now) }
        ensures no_memory { NeedsNoMemory label.now → result ≢ Err Refusal.Memory }
    {
        check_label(alloc, label, facts, properties)?;
        if label.len() > MAX_LABEL_LEN {
            return Err(Refusal::LabelTooLong);
        }
        if is_all_ascii(label) {
            self.keep_ascii(label);
            return Ok(());
        }
        self.a_label.encode(label).or(Err(Refusal::LabelTooLong))
    }

    /// Keeps a label in ASCII, which is its own A-label. Not inlined, so that other labels need no stack space for it.
    #[inline(never)]
    fn keep_ascii(&mut self, label: &[u32])
        requires short { length label.now ≤ 63 }
        requires ascii { is_all_ascii label.now ≡ true }
        ensures { self.new ≡ record self.old { text = label.now } }
    {
        self.a_label.put(ascii_text(label));
    }
}
