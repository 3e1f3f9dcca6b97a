//! What a reading records of a source, as bits of a word.
ghost use Rattle.std.specs.Prelude.{◌≡◌, ◌+◌, ◌<◌, ◌^◌, [], ◌∷◌};
ghost use Rattle.variant_dispositions.specs.Kinds as kinds;
ghost use Rattle.variant_dispositions.specs.Kinds.{bit_of, kinds_in, IsTypeNumber};

/// A source that stays, and has no reflexive type.
pub const UNMAPPED: u64 = 1;
/// A variant without a type.
pub const UNTYPED: u64 = 1 << 1;
/// The type `invalid`, the first of the predefined ones (RFC 7940, section 7.3).
pub const INVALID: u64 = 1 << 2;
/// The type `blocked`.
pub const BLOCKED: u64 = 1 << BLOCKED_BIT;
/// The type `allocatable`.
pub const ALLOCATABLE: u64 = 1 << 4;
/// The type `activated`.
pub const ACTIVATED: u64 = 1 << 5;
/// The type `valid`. From the next bit on there are types of a ruleset's own.
pub const VALID: u64 = 1 << 6;

pub(crate) const BLOCKED_BIT: u32 = 3;

/// All types.
pub(crate) const TYPES: u64 = !3;
/// All but the types of a ruleset's own.
pub(crate) const PREDEFINED: u64 = (1 << 7) - 1;

/// What is recorded of a source that stays, by the number of its reflexive type, if it has one (RFC 7940, section
/// 5.3.4).
pub fn kind_of_source(reflexive_type: Option<u8>) -> u64
    requires { IsTypeNumber reflexive_type }
    ensures word { result ≡ 2 ^ bit_of (kinds.kind_of_source reflexive_type) }
    ensures kind { kinds_in result ≡ kinds.kind_of_source reflexive_type ∷ [] }
{
    match reflexive_type {
        Some(number) => kind_of_type(number),
        None => UNMAPPED,
    }
}

/// What is recorded of a variant that is put in the place of its source, by the number of its type, if it has one.
pub fn kind_of_variant(variant_type: Option<u8>) -> u64
    requires { IsTypeNumber variant_type }
    ensures word { result ≡ 2 ^ bit_of (kinds.kind_of_variant variant_type) }
    ensures kind { kinds_in result ≡ kinds.kind_of_variant variant_type ∷ [] }
{
    match variant_type {
        Some(number) => kind_of_type(number),
        None => UNTYPED,
    }
}

/// The bit of the type of this number.
fn kind_of_type(number: u8) -> u64
    requires { number < 62 }
    ensures { result ≡ 2 ^ (number + 2) }
{
    1 << (number + 2)
}
