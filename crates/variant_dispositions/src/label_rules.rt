//! The rules of a ruleset, as actions ask for them.
ghost use Rattle.std.specs.Prelude.{◌≡◌, ℕ, Bool};

/// The whole-label rules of a ruleset, asked of one label.
pub trait LabelRules {
    /// Which rules the label matches, by their numbers.
    ghost matched: { Self → ℕ → Bool };

    /// Whether the label matches the rule of this number.
    fn matches(&self, rule: u8) -> bool
        ensures { result ≡ matched self.now rule };
}
