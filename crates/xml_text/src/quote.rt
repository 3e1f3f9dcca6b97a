//! The quotes round the value of an attribute.
ghost use Rattle.std.specs.Prelude.{◌≡◌};
ghost use Rattle.xml_text.specs.Tags.{quote_byte};

/// The quotes round a value.
#[derive(Clone, Copy, PartialEq, Eq)]
pub enum Quote {
    Double,
    Single,
}

impl Quote {
    pub fn byte(self) -> u8
        ensures { result ≡ quote_byte self }
    {
        match self {
            Quote::Double => b'"',
            Quote::Single => b'\'',
        }
    }
}
