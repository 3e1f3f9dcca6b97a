//! What is told of a label that is refused: what breaks the rule of its first fault, and where.

use idn_class::{BarringLine, BidiClass, Broken};

/// What gives a label its first fault. Places are counted from 0, in code points.
#[derive(Clone, Copy, PartialEq, Eq)]
pub enum Cause {
    /// A place, the code point there, and the line of RFC 5892, section 3, that bars it.
    Barred(usize, u32, BarringLine),
    /// The first place at which the label and its Normalization Form C differ, and what the two have there. The form
    /// may end there.
    Changed(usize, u32, Option<u32>),
    /// The place of a hyphen, and how many code points the label has.
    Hyphen(usize, usize),
    /// A place and the code point there.
    Point(usize, u32),
    /// A condition of the Bidi rule, with the code point that breaks it and its Bidi_Class.
    Condition(Broken, u32, BidiClass),
    /// The code points of the label, more than 63.
    Points(usize),
    /// The octets of its A-label, more than 63.
    Octets(usize),
}
