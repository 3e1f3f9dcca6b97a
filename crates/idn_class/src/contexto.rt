//! The context rules of the other code points that have one (RFC 5892, appendix A.3 to A.9).
ghost use Rattle.std.specs.Prelude.{◌≡◌, ◌↔◌, ◌<◌, length, IsTrue, MatchOption, IsSomeAnd, Any};
ghost use Rattle.unicode.specs.Script.{script};
ghost use Rattle.idn_class.specs.ContextO.{is_arabic_digit, is_extended_arabic_digit};
ghost use Rattle.idn_class.specs.ContextO.{is_japanese, OtherPasses, PassesContextO};
ghost use Rattle.idn_class.specs.Tests.{contexto_ok};
ghost use Rattle.idn_class.specs.Causes.{IsFirstFailing, misplaced_other};

use crate::category::script_of;
use crate::neighbor::{after, before};
use unicode::properties::Script;

/// Whether each code point of a label that needs a context, and is no joiner, meets its rule
/// (RFC 5892, appendix A.3 to A.9).
pub fn contexto_ok(label: &[u32]) -> bool
    ensures rule { IsTrue result ↔ PassesContextO label.now }
    ensures test { result ≡ contexto_ok label.now }
{
    misplaced_other(label).is_none()
}

/// The place of the first code point that needs a context, is no joiner and does not meet its rule, from 0. `None`
/// where each of them meets it.
pub fn misplaced_other(label: &[u32]) -> Option<usize>
    ensures rule { MatchOption result (PassesContextO label.now) (IsFirstFailing label.now (OtherPasses label.now)) }
    ensures test { result ≡ misplaced_other label.now }
{
    for place in 0..label.len() {
        if !other_passes(label, place) {
            return Some(place);
        }
    }
    None
}

/// Whether the code point at a place meets its rule, if it has one.
fn other_passes(label: &[u32], place: usize) -> bool
    requires { place < length label.now }
    ensures { IsTrue result ↔ OtherPasses label.now place }
{
    match label[place] {
        0xB7 => is_l(before(label, place)) && is_l(after(label, place)),
        0x375 => is_greek(after(label, place)),
        0x5F3 | 0x5F4 => is_hebrew(before(label, place)),
        0x30FB => has_japanese(label),
        0x660..=0x669 => !has_extended_arabic_digit(label),
        0x6F0..=0x6F9 => !has_arabic_digit(label),
        _ => true,
    }
}

fn is_l(neighbor: Option<u32>) -> bool
    ensures { IsTrue result ↔ (neighbor ≡ Some 0x6C) }
{
    matches!(neighbor, Some(0x6C))
}

fn is_greek(neighbor: Option<u32>) -> bool
    ensures { IsTrue result ↔ IsSomeAnd neighbor (λ c. script c ≡ Script.Greek) }
{
    match neighbor {
        Some(c) => script_of(c) == Script::Greek,
        None => false,
    }
}

fn is_hebrew(neighbor: Option<u32>) -> bool
    ensures { IsTrue result ↔ IsSomeAnd neighbor (λ c. script c ≡ Script.Hebrew) }
{
    match neighbor {
        Some(c) => script_of(c) == Script::Hebrew,
        None => false,
    }
}

fn has_japanese(label: &[u32]) -> bool
    ensures { IsTrue result ↔ Any (λ c. IsTrue (is_japanese c)) label.now }
{
    label.iter().any(|c| is_japanese(*c))
}

#[tactic(auto, unfolding(crate::specs::ContextO::is_japanese))]
fn is_japanese(c: u32) -> bool
    ensures { result ≡ is_japanese c }
{
    matches!(
        script_of(c),
        Script::Hiragana | Script::Katakana | Script::Han
    )
}

fn has_arabic_digit(label: &[u32]) -> bool
    ensures { IsTrue result ↔ Any (λ c. IsTrue (is_arabic_digit c)) label.now }
{
    label.iter().any(|c| is_arabic_digit(*c))
}

fn is_arabic_digit(c: u32) -> bool
    ensures { result ≡ is_arabic_digit c }
{
    matches!(c, 0x660..=0x669)
}

fn has_extended_arabic_digit(label: &[u32]) -> bool
    ensures { IsTrue result ↔ Any (λ c. IsTrue (is_extended_arabic_digit c)) label.now }
{
    label.iter().any(|c| is_extended_arabic_digit(*c))
}

fn is_extended_arabic_digit(c: u32) -> bool
    ensures { result ≡ is_extended_arabic_digit c }
{
    matches!(c, 0x6F0..=0x6F9)
}
