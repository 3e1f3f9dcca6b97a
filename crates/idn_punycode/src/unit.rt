//! What octets, numbers and characters share, as the code points of a label.
ghost use Rattle.std.specs.Prelude.{◌≡◌, ℕ, List, map, IfSome};
ghost use Rattle.std.proofs.Common.{map-id, sym};

/// A code point of a label as it is held: an octet of ASCII, a number, or a character.
pub trait Unit: Copy {
    ghost code: { Self → ℕ };

    /// The code points of a text of such units.
    ghost codes: { List Self → List ℕ };

    fn code_point(self) -> u32
        ensures { result ≡ code self };

    /// The units themselves, where they are octets: these can be searched in vectors.
    #[inline]
    fn as_octets(units: &[Self]) -> Option<&[u8]>
        ensures { IfSome result (λ octets. octets.now ≡ codes units.now) }
    {
        None
    }

    ghost codes_are: { (units : List Self) → codes units ≡ map code units };
}

impl Unit for u8 {
    ghost code = { λ octet. octet };

    ghost codes = { λ octets. octets };

    ghost codes_are = { λ octets. sym (map-id octets) };

    #[inline]
    fn code_point(self) -> u32 {
        u32::from(self)
    }

    #[inline]
    fn as_octets(units: &[u8]) -> Option<&[u8]> {
        Some(units)
    }
}

impl Unit for u32 {
    ghost code = { λ number. number };

    ghost codes = { λ numbers. numbers };

    ghost codes_are = { λ numbers. sym (map-id numbers) };

    #[inline]
    fn code_point(self) -> u32 {
        self
    }
}

impl Unit for char {
    ghost code = { λ character. character };

    ghost codes = { λ characters. characters };

    ghost codes_are = { λ characters. sym (map-id characters) };

    #[inline]
    fn code_point(self) -> u32 {
        self as u32
    }
}
