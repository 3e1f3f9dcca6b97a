//! The class of a code point (RFC 5892), by one look-up in a table.
ghost use Rattle.std.specs.Prelude.{◌≡◌, false, IfOk, IsOk, if◌then◌else◌};
ghost use Rattle.idn_class.specs.inner.Entries.{number_by};
ghost use Rattle.idn_class.specs.Class.{class_of, is_left_open, is_unstable};

use crate::class_table::{CLASS_INDEX, CLASS_WORDS};
use crate::properties::Properties;
use crate::stability::is_unstable;
use std::alloc::{AllocError, Global};

/// The entry of a code point for which only stability is open.
const LEFT_OPEN: u32 = 5;

/// What the entry of a code point outside the profile has more than its number by the standard.
const LEFT_OUT: u32 = 6;

/// What a code point may be in a label (RFC 5892, section 1).
#[derive(Clone, Copy, Debug, PartialEq, Eq)]
pub enum Class {
    /// DISALLOWED: never allowed.
    Disallowed,
    /// PVALID: allowed.
    Pvalid,
    /// CONTEXTJ: a joiner, allowed where its rule holds.
    Contextj,
    /// CONTEXTO: another code point, allowed where its rule holds.
    Contexto,
    /// UNASSIGNED: not yet a character of this version of Unicode.
    Unassigned,
}

/// The class of a code point (RFC 5892, section 3); a number that is no Unicode scalar value is
/// disallowed. One look-up in a table answers, and memory is taken only for the few code points
/// that it leaves open.
#[inline]
pub fn class_of(alloc: Global, c: u32) -> Result<Class, AllocError>
    ensures class { IfOk result (λ class. class ≡ class_of Properties.Profile c) }
    ensures succeeds { is_left_open c ≡ false → IsOk result }
{
    class_of_by(alloc, c, Properties::Profile)
}

/// The class of a code point by these properties, as `class_of` tells it.
#[inline]
pub fn class_of_by(alloc: Global, c: u32, properties: Properties) -> Result<Class, AllocError>
    ensures class { IfOk result (λ class. class ≡ class_of properties c) }
    ensures succeeds { is_left_open c ≡ false → IsOk result }
{
    let Some(point) = char::from_u32(c) else {
        return Ok(Class::Disallowed);
    };
    let entry = ucd_table::get::<4, 8>(&CLASS_INDEX, &CLASS_WORDS, &[], c);
    let number = number_by(entry, properties);
    if number == LEFT_OPEN {
        return class_by_stability(alloc, point, properties);
    }
    Ok(match number {
        0 => Class::Disallowed,
        1 => Class::Pvalid,
        2 => Class::Contextj,
        3 => Class::Contexto,
        _ => Class::Unassigned,
    })
}

/// The number of a class by an entry of the table.
#[inline]
fn number_by(entry: u32, properties: Properties) -> u32
    ensures { result ≡ number_by properties entry }
{
    if entry < LEFT_OUT {
        return entry;
    }
    match properties {
        Properties::Profile => 0,
        Properties::Unicode => entry - LEFT_OUT,
    }
}

/// The class of a letter, mark or digit for which only stability is open.
#[cold]
fn class_by_stability(alloc: Global, c: char, properties: Properties) -> Result<Class, AllocError>
    requires { class_of properties c ≡ (if is_unstable c then Class.Disallowed else Class.Pvalid) }
    ensures { IfOk result (λ class. class ≡ class_of properties c) }
{
    if is_unstable(alloc, c)? {
        Ok(Class::Disallowed)
    } else {
        Ok(Class::Pvalid)
    }
}
