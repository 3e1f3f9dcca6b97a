//! A label of which a beginning is cached.
use std::marker::Model;

/// The most octets of a label in the DNS (RFC 1035, section 2.3.4), and so the most code points of a label: the A-label
/// of a longer one has more octets.
pub const MAX_LABEL_LEN: usize = 63;

/// A label of at most 63 code points, of which a beginning is cached for the next one. Unlike an `ArrayVec`, it leaves
/// what it cuts off where it stands. Contracts see the label.
#[derive(Drop)]
pub struct CachedLabel {
    points: [u32; MAX_LABEL_LEN],
    len: usize,
}

impl Model for CachedLabel {
    ghost use Rattle.std.specs.Prelude.{◌≤◌, ℕ, List, take};

    ghost Value = { List ℕ };

    ghost view = { λ cached. take cached.len cached.points };

    ghost invariant = { λ cached. cached.len ≤ 63 };
}

impl CachedLabel {
    ghost use Rattle.std.specs.Prelude.{◌≡◌, ◌≤◌, ◌<◌, [], ◌∷◌, ◌++◌, length, take};

    /// The empty label.
    pub fn new() -> CachedLabel
        ensures { result ≡ [] }
    {
        CachedLabel {
            points: [0; MAX_LABEL_LEN],
            len: 0,
        }
    }

    /// A copy of the label. It is copied as it lies, since a length that is known is copied faster.
    #[inline]
    pub fn copied(&self) -> CachedLabel
        ensures { result ≡ self.now }
    {
        CachedLabel {
            points: self.points,
            len: self.len,
        }
    }

    /// How many code points there are.
    #[inline]
    pub fn len(&self) -> usize
        ensures value { result ≡ length self.now }
        ensures short { result ≤ 63 }
    {
        self.len
    }

    /// The code points.
    #[inline]
    pub fn as_slice(&self) -> &[u32]
        ensures value { result.now ≡ self.now }
        ensures short { length result.now ≤ 63 }
    {
        &self.points[..self.len]
    }

    /// Keeps the first `count` code points.
    #[inline]
    pub fn keep(&mut self, count: usize)
        ensures { self.new ≡ take count self.old }
    {
        self.len = self.len.min(count);
    }

    /// Puts a code point after the others. There must be room.
    #[inline]
    pub fn push(&mut self, point: u32)
        requires { length self.old < 63 }
        ensures { self.new ≡ self.old ++ point ∷ [] }
    {
        self.points[self.len] = point;
        self.len += 1;
    }
}
