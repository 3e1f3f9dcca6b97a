//! How long an A-label may be.
ghost use Rattle.std.specs.Prelude.{◌≤◌, IsTrue};
ghost use Rattle.idn_punycode.specs.Lengths.{AlwaysFits};

/// The most octets of a label in UTF-8 with which its A-label is known to fit.
const MAX_KNOWN_LEN: usize = 30;

/// Whether every label with so many octets in UTF-8 (RFC 3629) is short enough: it has at most 63 code points, and its
/// A-label has at most 63 octets. That is known up to 30; if there are more, the label itself must be encoded to tell.
#[inline]
pub fn always_fits(utf8_len: usize) -> bool
    ensures fits { IsTrue result → AlwaysFits utf8_len }
    ensures known { utf8_len ≤ 30 → IsTrue result }
{
    utf8_len <= MAX_KNOWN_LEN
}
