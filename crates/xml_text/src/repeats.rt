//! How often a byte was read in a row.
ghost use Rattle.std.specs.Prelude.{◌≡◌};
ghost use Rattle.xml_text.specs.inner.DocumentSteps as steps;

/// How often the byte of which two may end something was read last.
#[derive(Clone, Copy, PartialEq, Eq)]
pub enum Repeats {
    Zero,
    One,
    Two,
}

impl Repeats {
    /// After one more byte.
    pub fn after(self, is_one: bool) -> Self
        ensures { result ≡ steps.after is_one self }
    {
        match (is_one, self) {
            (false, _) => Repeats::Zero,
            (true, Repeats::Zero) => Repeats::One,
            (true, _) => Repeats::Two,
        }
    }

    /// So many brackets.
    pub fn brackets(self) -> &'static [u8]
        ensures { result.now ≡ steps.times self 93 }
    {
        match self {
            Repeats::Zero => b"",
            Repeats::One => b"]",
            Repeats::Two => b"]]",
        }
    }

    /// Whether there were two, or more.
    pub fn is_two(self) -> bool
        ensures { result ≡ steps.is_two self }
    {
        matches!(self, Repeats::Two)
    }
}
