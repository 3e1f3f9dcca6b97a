//! Texts of a fixed size.

ghost use Rattle.std.specs.Prelude.{◌≡◌, ◌≤◌, ◌+◌, ◌++◌, length};
ghost use Rattle.arrayvec.specs.ArrayVec.{array_vec_len};

use arrayvec::ArrayVec;

/// Appends a text for which there is space.
pub fn append<const N: usize>(line: &mut ArrayVec<u8, N>, text: &[u8])
    requires { array_vec_len line.old + length text.now ≤ N }
    ensures { line.new.items ≡ line.old.items ++ text.now }
{
    let Ok(()) = line.try_extend_from_slice(text) else {
        unreachable!()
    };
}
