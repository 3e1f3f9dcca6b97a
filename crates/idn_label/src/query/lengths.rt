//! The lengths that the DNS allows (RFC 1035 section 2.3.4).
ghost use Rattle.std.specs.Prelude.{◌≡◌, ◌≤◌, ◌-◌};
ghost use Rattle.std.specs.Int.{is_in_range};
ghost use Rattle.idn_label.specs.LdhNames.{may_end};

use idn_class::MAX_LABEL_LEN;

/// The most octets of a name in the DNS, a full stop at its end put aside.
pub const MAX_NAME_LEN: usize = 253;

/// The most octets of a name in the DNS with a full stop at its end.
pub(crate) const MAX_QUERY_LEN: usize = MAX_NAME_LEN + 1;

/// Whether a label that begins at `start` and ends before `end` has 1 to 63 octets.
#[inline]
pub(crate) fn has_label_length(start: usize, end: usize) -> bool
    requires { start ≤ end }
    ensures { result ≡ is_in_range 1 63 (end - start) }
{
    start < end && end - start <= MAX_LABEL_LEN
}

/// Whether a name of `len` octets may end in the label that begins at `start`: in 1 to 63 octets, or after the full
/// stop of another label, which is put aside.
#[inline]
pub(crate) fn may_end(start: usize, len: usize) -> bool
    requires { start ≤ len }
    ensures { result ≡ may_end start len }
{
    if start == len {
        start != 0 && len <= MAX_QUERY_LEN
    } else {
        has_label_length(start, len) && len <= MAX_NAME_LEN
    }
}
