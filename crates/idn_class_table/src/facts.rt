//! The facts that a code point does not have, for the second table.
ghost use Rattle.std.specs.Prelude.{◌<◌};

use crate::entry::{Entry, entry_of};
use ucd_idna_map::IdnaStatus;
use unicode::normal::canonical_combining_class;
use unicode::properties::{BidiClass, GeneralCategory};
use unicode_normalization::IsNormalized;
use unicode_normalization::slice::is_nfc_quick;

const MAY_BE_BARRED: u32 = 1;

const CONTEXTJ: u32 = 2;

const CONTEXTO: u32 = 4;

const MAY_COMPOSE: u32 = 8;

const MARK: u32 = 16;

const RIGHT_TO_LEFT: u32 = 32;

const NOT_KEPT: u32 = 64;

/// The bits of all facts.
const ALL: u32 = 127;

/// The facts that a code point does not have, a bit each.
pub(crate) fn absent_facts(c: u32) -> u32 {
    let mut absent = ALL & !class_facts(c);
    let Some(point) = char::from_u32(c) else {
        return absent & !NOT_KEPT;
    };
    if is_nfc_quick(&[point]) != IsNormalized::Yes || canonical_combining_class(point) != 0 {
        absent &= !MAY_COMPOSE;
    }
    if is_mark(point) {
        absent &= !MARK;
    }
    if is_right_to_left(point) {
        absent &= !RIGHT_TO_LEFT;
    }
    if !matches!(
        IdnaStatus::for_char(point),
        IdnaStatus::Valid | IdnaStatus::Deviation
    ) {
        absent &= !NOT_KEPT;
    }
    absent
}

fn class_facts(c: u32) -> u32 {
    match entry_of(c) {
        Entry::Pvalid => 0,
        Entry::Contextj => CONTEXTJ,
        Entry::Contexto => CONTEXTO,
        Entry::Disallowed | Entry::Unassigned | Entry::LeftOpen => MAY_BE_BARRED,
    }
}

fn is_mark(c: char) -> bool {
    matches!(
        GeneralCategory::for_char(c),
        GeneralCategory::NonspacingMark
            | GeneralCategory::SpacingMark
            | GeneralCategory::EnclosingMark
    )
}

/// R, AL or AN in the profile or in Unicode. The profile has whole blocks, except for the extended
/// Arabic-Indic digits and for marks.
fn is_right_to_left(c: char) -> bool {
    is_right_to_left_in_profile(c)
        || matches!(
            BidiClass::for_char(c),
            BidiClass::RightToLeft | BidiClass::ArabicLetter | BidiClass::ArabicNumber
        )
}

fn is_right_to_left_in_profile(c: char) -> bool {
    matches!(c, '\u{590}'..='\u{8FF}')
        && !matches!(c, '\u{6F0}'..='\u{6F9}')
        && !matches!(
            GeneralCategory::for_char(c),
            GeneralCategory::NonspacingMark | GeneralCategory::EnclosingMark
        )
}
