//! Room for an object, which is filled place by place.
ghost use Rattle.std.specs.Prelude.{◌≡◌, ◌≤◌, ◌<◌, ◌+◌, ◌∷◌, [], ◌++◌, length, take};

/// The most bytes of an object and a line feed.
pub const MAX_OBJECT_LEN: usize = 32_768;

/// Room for an object and a line feed. What an object leaves in it says nothing of the next one.
///
/// An object is written from its first place on. Each of the functions that write some of it is given the place at
/// which that begins, and returns the place after it. What stands before the place stays; of what stands after the last
/// byte that was written nothing is said.
pub type ObjectRoom = [u8; MAX_OBJECT_LEN];

/// Writes bytes as they are.
///
/// Always inline: where it is called their number is mostly known, and then they are copied at once.
#[inline(always)]
pub(crate) fn put_bytes(out: &mut ObjectRoom, at: usize, bytes: &[u8]) -> usize
    requires { at + length bytes.now ≤ MAX_OBJECT_LEN }
    ensures written { take result out.new ≡ take at out.old ++ bytes.now }
    ensures end { result ≡ at + length bytes.now }
{
    // `copy_from_slice` would ask first whether the two overlap.
    let mut end = at;
    for byte in bytes {
        out[end] = *byte;
        end += 1;
    }
    end
}

/// Writes a byte as it is.
#[inline(always)]
pub(crate) fn put_byte(out: &mut ObjectRoom, at: usize, byte: u8) -> usize
    requires { at < MAX_OBJECT_LEN }
    ensures written { take result out.new ≡ take at out.old ++ byte ∷ [] }
    ensures end { result ≡ at + 1 }
{
    out[at] = byte;
    at + 1
}
