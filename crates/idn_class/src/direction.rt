//! What may follow the first code points of a label under the Bidi rule.
ghost use Rattle.std.specs.Prelude.{◌≡◌};
ghost use Rattle.idn_class.specs.Directions.{TellsShortest, begun_in, lengthened, rtl_lengthened, breaks_after};

use crate::bidi::is_rtl_code_point;
use crate::bidi_class::{BidiClass, bidi_class};
use crate::mark::is_mark;
use crate::properties::Properties;

/// What may follow the code points of a beginning under the Bidi rule (RFC 5893, section 2).
#[derive(Clone, Copy)]
pub(crate) enum Direction {
    /// The first is neither R nor AL: no R, AL and AN may follow.
    Ltr,
    /// The first is R or AL: nothing that an RTL label may not hold may follow, and not both EN and AN. Neither is
    /// there yet.
    Rtl,
    /// The first is R or AL, and an EN is there: no AN may follow either.
    RtlEuropean,
    /// The first is R or AL, and an AN is there: no EN may follow either.
    RtlArabic,
}

impl Direction {
    /// The direction of a first code point. `None` for one with which no label may begin: a hyphen, a
    /// combining mark, or AN.
    pub(crate) fn begun(first: u32, properties: Properties) -> Option<Direction>
        ensures { result ≡ begun_in properties first }
    {
        if first == 0x2D || is_mark(first) {
            return None;
        }
        if !is_rtl_code_point(first, properties) {
            return Some(Direction::Ltr);
        }
        match bidi_class(first, properties) {
            BidiClass::AN => None,
            _ => Some(Direction::Rtl),
        }
    }

    /// How many code points have to follow until the Bidi rule is broken for good. `None` where all may
    /// follow.
    pub(crate) fn shortest_breaking(self, rest: &[u32], properties: Properties) -> Option<usize>
        ensures { TellsShortest (breaks_after properties self) rest.now result }
    {
        let mut direction = self;
        for index in 0..rest.len() {
            match direction.lengthened(rest[index], properties) {
                Some(longer) => direction = longer,
                None => return Some(index + 1),
            }
        }
        None
    }

    /// The direction once a code point follows. `None` where it may not.
    pub(crate) fn lengthened(self, c: u32, properties: Properties) -> Option<Direction>
        ensures { result ≡ lengthened properties self c }
    {
        match self {
            Direction::Ltr if is_rtl_code_point(c, properties) => None,
            Direction::Ltr => Some(self),
            _ => self.rtl_lengthened(bidi_class(c, properties)),
        }
    }

    /// The direction once a code point of this Bidi class follows, where the first is R or AL. `None` where it may not.
    fn rtl_lengthened(self, class: BidiClass) -> Option<Direction>
        ensures { result ≡ rtl_lengthened self class }
    {
        match (self, class) {
            (_, BidiClass::L | BidiClass::Other) => None,
            (Direction::Rtl, BidiClass::EN) => Some(Direction::RtlEuropean),
            (Direction::RtlArabic, BidiClass::EN) => None,
            (Direction::Rtl, BidiClass::AN) => Some(Direction::RtlArabic),
            (Direction::RtlEuropean, BidiClass::AN) => None,
            _ => Some(self),
        }
    }
}
