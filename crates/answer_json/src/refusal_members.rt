//! What a refusal is told with.

/// The members of a refusal after its number and its text: those that its cause has. Numbers count from 1.
#[derive(Clone, Copy)]
pub struct RefusalMembers<'a> {
    /// The number of the label in the name.
    pub label: Option<u128>,
    /// Whether the cause is of what an A-label stands for.
    pub decoded: bool,
    /// A code point.
    pub code_point: Option<u32>,
    /// The place of the code point, in code points.
    pub place: Option<u128>,
    /// What a ruleset asks of a rule: that it holds, `when`, or that it doesn't, `unless`.
    pub condition: Option<&'a [u8]>,
    /// The rule that is broken, by its document and section; that of a ruleset by its name.
    pub rule: Option<&'a [u8]>,
    /// The Bidi_Class of the code point.
    pub bidi_class: Option<&'a [u8]>,
    /// The code point that Normalization Form C has at the place.
    pub nfc: Option<u32>,
    /// The number of the demand of a ruleset that is broken.
    pub demand: Option<u128>,
    /// The kind of the demand: `never` or `always`.
    pub kind: Option<&'a [u8]>,
    /// The number of the action of a ruleset that the label triggers, among those of the file.
    pub action: Option<u128>,
    /// The same among the default actions (RFC 7940, section 7.6).
    pub default_action: Option<u128>,
    /// The name of the type that triggers the action.
    pub type_name: Option<&'a [u8]>,
    /// Whether the readings of the label have different kinds.
    pub unclear: bool,
    /// How many code points the label has.
    pub code_points: Option<u128>,
    /// How many octets the A-label has, or the label of a name, or the name.
    pub octets: Option<u128>,
    /// The A-label of what the label stands for.
    pub alabel: Option<&'a [u8]>,
    /// The place of a byte.
    pub byte: Option<u128>,
    /// The U-label of an A-label that stands where a U-label is wanted.
    pub ulabel: Option<&'a [u8]>,
}

impl RefusalMembers<'_> {
    /// No further member.
    pub const NONE: RefusalMembers<'static> = RefusalMembers {
        label: None,
        decoded: false,
        code_point: None,
        place: None,
        condition: None,
        rule: None,
        bidi_class: None,
        nfc: None,
        demand: None,
        kind: None,
        action: None,
        default_action: None,
        type_name: None,
        unclear: false,
        code_points: None,
        octets: None,
        alabel: None,
        byte: None,
        ulabel: None,
    };
}
