//! Buffers for the lookup of a name.

use crate::a_label::ALabelEncoder;
use crate::query::lengths::MAX_QUERY_LEN;
use arrayvec::ArrayVec;

/// A name, as it is mapped. Its query has at least as many octets, so there is room for each name that has one.
pub(crate) type Mapped = ArrayVec<char, MAX_QUERY_LEN>;

/// What a query has for a name.
pub(crate) type Query = ArrayVec<u8, MAX_QUERY_LEN>;

/// Buffers that lookup uses again from name to name. What is left in them says nothing of the next name.
#[derive(Drop)]
pub struct LookupBuffers {
    /// The name, as it is mapped.
    pub(crate) mapped: Mapped,
    /// The A-label of one label after another.
    pub(crate) encoder: ALabelEncoder,
    /// The answer.
    pub(crate) query: Query,
}

impl LookupBuffers {
    /// Buffers for any name.
    pub fn new() -> LookupBuffers {
        LookupBuffers {
            mapped: ArrayVec::new(),
            encoder: ALabelEncoder::new(),
            query: ArrayVec::new(),
        }
    }
}
