//! The whole-label rules that a label matches, as actions ask for them.

ghost use Rattle.std.specs.Prelude.{◌≡◌};
ghost use Rattle.idn2_cli.specs.inner.Ruling.{matched_in};

use valid_labels::ValidityTest;
use variant_dispositions::LabelRules;

/// The rules that the label matches which a test has seen last. Where there is no test, no action asks for a rule.
#[derive(Clone, Copy)]
pub(crate) struct MatchedRules<'v, 'p> {
    test: &'v Option<ValidityTest<'p>>,
}

impl<'v, 'p> MatchedRules<'v, 'p> {
    /// The rules that the label matches which this test has seen last.
    #[inline]
    pub fn of_test(test: &'v Option<ValidityTest<'p>>) -> MatchedRules<'v, 'p>
        ensures { result.test.now ≡ test.now }
    {
        MatchedRules { test }
    }
}

impl<'v, 'p> LabelRules for MatchedRules<'v, 'p> {
    ghost matched = { λ rules. matched_in rules.test.now };

    fn matches(&self, rule: u8) -> bool {
        match self.test {
            None => false,
            Some(test) => test.rules().matches(rule),
        }
    }
}
