//! What a byte may be in a tag. The numbers in brackets are the productions of XML 1.0.
ghost use Rattle.std.specs.Prelude.{◌≡◌, ◌&&◌};
ghost use Rattle.xml_text.specs.Names as words;
ghost use Rattle.xml_text.specs.inner.Runs.{is_in_line};

/// A blank, which separates the parts of a tag [3].
#[inline]
pub fn is_blank(byte: u8) -> bool
    ensures { result ≡ words.is_blank byte }
{
    matches!(byte, b' ' | b'\t' | b'\r' | b'\n')
}

/// A blank that ends no line.
#[inline]
pub fn is_space(byte: u8) -> bool
    ensures { result ≡ (words.is_blank byte && is_in_line byte) }
{
    matches!(byte, b' ' | b'\t')
}

/// What a name in ASCII may begin with [4].
#[inline]
pub fn is_name_start(byte: u8) -> bool
    ensures { result ≡ words.is_name_start byte }
{
    matches!(byte, b'A'..=b'Z' | b'a'..=b'z' | b':' | b'_')
}

/// What may stand in a name in ASCII [4a].
#[inline]
pub fn is_name_byte(byte: u8) -> bool
    ensures { result ≡ words.is_name_byte byte }
{
    is_name_start(byte) || matches!(byte, b'0'..=b'9' | b'-' | b'.')
}

/// What may stand between `&` and `;`.
#[inline]
pub fn is_reference_byte(byte: u8) -> bool
    ensures { result ≡ words.is_reference_byte byte }
{
    is_name_byte(byte) || byte == b'#'
}
