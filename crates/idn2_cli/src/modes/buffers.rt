//! Buffers of a fixed size for the work on a line.

ghost use Rattle.std.specs.Prelude.{◌≡◌, []};

use arrayvec::ArrayVec;
use idn_label::{DecodedLabel, LookupBuffers, MAX_NAME_LEN};
use idn_text::MAX_LINE_LEN;

/// The most octets of an answer: four for each of 1,024 code points, and a line feed.
pub(crate) const MAX_ANSWER_LEN: usize = 4 * MAX_LINE_LEN + 1;

/// The most octets of the answer of lookup: a name with a full stop at its end, and a line feed. Registration answers
/// at most 63.
const MAX_QUERY_LINE_LEN: usize = MAX_NAME_LEN + 2;

/// Buffers that are used again from line to line. What is left in them says nothing of the next line.
#[derive(Drop)]
pub(crate) struct Buffers {
    /// The code points of a line.
    pub points: ArrayVec<u32, MAX_LINE_LEN>,
    /// Room for the code points of a label that is tested for registration.
    pub label: [u32; MAX_LINE_LEN],
    /// The answer of decoding in UTF-8, and a line feed.
    pub answer: [u8; MAX_ANSWER_LEN],
    /// Room for what an A-label stands for.
    pub u_label: DecodedLabel,
    /// The answer of lookup or registration, and a line feed.
    pub answer_line: [u8; MAX_QUERY_LINE_LEN],
    /// Room for the work of lookup on a name.
    pub lookup: LookupBuffers,
}

impl Buffers {
    pub(crate) fn new() -> Buffers
        ensures { result.points.items ≡ [] }
    {
        Buffers {
            points: ArrayVec::new(),
            label: [0; MAX_LINE_LEN],
            answer: [0; MAX_ANSWER_LEN],
            u_label: DecodedLabel::new(),
            answer_line: [0; MAX_QUERY_LINE_LEN],
            lookup: LookupBuffers::new(),
        }
    }
}
