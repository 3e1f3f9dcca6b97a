//! Tests of labels under a table.
use crate::label_rules::RulesOfLabel;
use crate::segments::Segments;
use crate::single_places::SinglePlaces;
use crate::single_points::SinglePoints;
use crate::valid::{admission, validity};
use crate::validity::{Admission, Validity};
use idn_class::{CachedLabel, shared_len};
use label_patterns::renew_masks;
use std::alloc::{AllocError, Global};
use std::marker::Model;
use variant_dispositions::Action;

/// A test of labels under a table. It keeps what it found of the last label, so that the next one costs less where both
/// begin alike. That changes no answer.
#[derive(Drop)]
pub struct ValidityTest<'a> {
    points: SinglePoints<'a>,
    /// The label that was tested last.
    cached: CachedLabel,
    /// For each set its places in that label.
    masks: Vec<u64>,
    /// Where single points stand in that label.
    singles: SinglePlaces,
}

impl<'a> Model for ValidityTest<'a> {
    ghost use Rattle.std.specs.Prelude.{length};
    ghost use Rattle.label_patterns.specs.inner.Masks.{AreMasks};
    ghost use Rattle.valid_labels.specs.inner.Singles.{AreSingles, HasRoom};
    ghost use Rattle.valid_labels.specs.Testing.{Testing, testing_code};

    ghost Value = { Testing };

    ghost coded = { testing_code };

    ghost view = { λ t. record { table = t.points; cached = t.cached } };

    ghost invariant = { λ t. AreMasks t.points.definitions.sets t.cached t.masks.items ×
        HasRoom (length t.points.definitions.rules) t.singles ×
        AreSingles (length t.cached) t.points t.cached t.singles };
}

impl<'a> ValidityTest<'a> {
    ghost use Rattle.std.specs.Prelude.{◌≡◌, ◌≤◌, [], length, IfOk};
    ghost use Rattle.valid_labels.specs.Actions.{actions_of, rules_of};
    ghost use Rattle.valid_labels.specs.Testing.{IsAdmission, IsValidity, SharesCached};

    /// A test of labels under the table of these segments. It is an `Err` only where memory was refused.
    pub fn new(alloc: Global, segments: &'a Segments<'a>) -> Result<Self, AllocError>
        ensures table { IfOk result (λ test. test.table ≡ segments.now) }
        ensures kept { IfOk result (λ test. test.cached ≡ []) }
    {
        let sets = segments.table().definitions().sets();
        let masks = vec![in alloc; 0; sets.len()]?;
        Ok(ValidityTest {
            points: SinglePoints::new(segments),
            cached: CachedLabel::new(),
            masks,
            singles: SinglePlaces::new(alloc, segments.table().definitions().rules().len())?,
        })
    }

    /// Whether a label of at most 63 code points may be asked about; the actions are those of the table. It is then the
    /// label that was tested last. It is an `Err` only where memory was refused.
    pub fn admission(
        &mut self,
        alloc: Global,
        actions: &[Action],
        label: &[u32],
    ) -> Result<Admission, AllocError>
        requires short { length label.now ≤ 63 }
        requires actions { actions.now ≡ actions_of self.old.table.definitions }
        ensures admission { IfOk result (IsAdmission self.old.table label.now) }
        ensures kept { self.new.cached ≡ label.now }
        ensures same_table { self.new.table ≡ self.old.table }
    {
        let shared = shared_len(self.cached.as_slice(), label);
        self.see(label, shared);
        let segments = self.points.segments();
        let masks: &[u64] = &self.masks;
        admission(alloc, segments, actions, label, masks, &self.singles)
    }

    /// The rules of the table, asked of the label that was tested last.
    pub fn rules(&self) -> RulesOfLabel<'_>
        ensures { result ≡ rules_of self.now.table self.now.cached }
    {
        let table = self.points.segments().table();
        RulesOfLabel::new(table, self.cached.as_slice(), &self.masks)
    }

    /// Whether a label of at most 63 code points is valid, and if it isn't, how long its shortest dead prefix is. It
    /// has the first `shared` code points of the label that was tested last, or all of them if that has fewer. It takes
    /// no memory.
    pub fn judge(&mut self, label: &[u32], shared: usize) -> Validity
        requires short { length label.now ≤ 63 }
        requires kept { SharesCached shared self.old.cached label.now }
        ensures validity { IsValidity self.old.table label.now result }
        ensures kept { self.new.cached ≡ label.now }
        ensures same_table { self.new.table ≡ self.old.table }
    {
        self.see(label, shared);
        let segments = self.points.segments();
        let sets = segments.table().definitions().sets();
        let masks: &[u64] = &self.masks;
        validity(segments, sets, label, masks, &self.singles)
    }

    /// Keeps nothing of the label that was tested last.
    pub fn forget(&mut self)
        ensures kept { self.new.cached ≡ [] }
        ensures same_table { self.new.table ≡ self.old.table }
    {
        let empty: &[u32] = &[];
        self.see(empty, 0);
    }

    /// Keeps this label in place of the last one.
    fn see(&mut self, label: &[u32], shared: usize)
        requires short { length label.now ≤ 63 }
        requires kept { SharesCached shared self.old.cached label.now }
        ensures kept { self.new.cached ≡ label.now }
        ensures same_table { self.new.table ≡ self.old.table }
    {
        let shared = shared.min(label.len()).min(self.cached.len());
        self.singles
            .renew(&mut self.points, &self.cached, label, shared);
        self.cached.keep(shared);
        for place in shared..label.len() {
            self.cached.push(label[place]);
        }
        let sets = self.points.segments().table().definitions().sets();
        renew_masks(sets, label, shared, &mut self.masks);
    }
}
