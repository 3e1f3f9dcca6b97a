//! The code points next to a place of a label.
ghost use Rattle.std.specs.Prelude.{◌≡◌, ◌<◌, length};
ghost use Rattle.idn_class.specs.Neighbors.{before, after};

/// The code point before a place of a label, if there is one.
pub(crate) fn before(label: &[u32], place: usize) -> Option<u32>
    ensures { result ≡ before label.now place }
{
    if place == 0 {
        None
    } else {
        label.get(place - 1).copied()
    }
}

/// The code point after a place of a label, if there is one.
pub(crate) fn after(label: &[u32], place: usize) -> Option<u32>
    requires { place < length label.now }
    ensures { result ≡ after label.now place }
{
    label.get(place + 1).copied()
}
