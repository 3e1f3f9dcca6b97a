//! Laws of the definitions. Each holds by its proof alone.
ghost use Rattle.std.specs.Prelude.{◌≡◌, ◌≢◌, ◌↔◌, ℕ, List, Bool, None, Some, Err, slice_index};
ghost use Rattle.idn_text.specs.declared.refusal.Refusal.{Refusal};
ghost use Rattle.idn_text.specs.declared.refusal.Refusal.TheVariants.{Empty, LookupLength};
ghost use Rattle.idn_class.specs.declared.properties.Properties.{Properties};
ghost use Rattle.idn_class.specs.Causes.{IsFirstFailing};
ghost use Rattle.idn_class.specs.Class.{class_of};
ghost use Rattle.idn_label.specs.FirstFault.{code_point_fault, fault_of_class, first_fault};
ghost use Rattle.idn_label.specs.Decode.{decode_answer};
ghost use Rattle.idn_label.specs.Lookup.{query_name};
ghost use Rattle.idn_label.specs.Register.{u_label_answer};
ghost use Rattle.idn_cause.specs.declared.a_label.ALabelCause.{ALabelCause};
ghost use Rattle.idn_cause.specs.declared.cause.Cause.{Cause};
ghost use Rattle.idn_cause.specs.declared.name.NameCause.{NameCause};
ghost use Rattle.idn_cause.specs.declared.query.LengthCause.{LengthCause};
ghost use Rattle.idn_cause.specs.ALabelCauses.{a_label_cause, IsALabelCause};
ghost use Rattle.idn_text.specs.Points.{utf8_of};
ghost use Rattle.idn_cause.specs.CodedLabels.{coded_label, IsALabelOf};
ghost use Rattle.idn_cause.specs.Causes.{cause_of, IsCause, IsPermitted};
ghost use Rattle.idn_cause.specs.NameCauses.{name_cause, query_cause, IsNameCause, IsQueryCause};
ghost use Rattle.idn_cause.specs.Examples.{HaveCauses, ExamplesOfALabels, ExamplesOfLengths, causes};

/// What is told of a fault is its cause, and nothing else is. The class of the code point that is told says which fault
/// it is. The first fault of a label has a cause, unless the label is empty.
pub fn causes_are_told()
    ensures exactly { (properties : Properties) (label : List ℕ) (refusal : Refusal) (cause : Cause) →
        (cause_of properties label refusal ≡ Some cause) ↔ IsCause properties label refusal cause }
    ensures kind { (properties : Properties) (label : List ℕ) (place : ℕ) →
        IsFirstFailing label (IsPermitted properties label) place →
        code_point_fault properties label ≡ fault_of_class (class_of properties (slice_index label place)) }
    ensures always { (properties : Properties) (label : List ℕ) (refusal : Refusal) →
        first_fault properties label ≡ Some refusal →
        refusal ≢ Empty → cause_of properties label refusal ≢ None }
    ensures examples { HaveCauses causes }
{}

/// What is told of a fault of what begins with `xn--` is its cause, and nothing else is. Each fault but `Empty` has a
/// cause.
pub fn a_label_causes_are_told()
    ensures exactly { (properties : Properties) (given : List ℕ) (refusal : Refusal) (cause : ALabelCause) →
        (a_label_cause properties given refusal ≡ Some cause) ↔ IsALabelCause properties given refusal cause }
    ensures always { (properties : Properties) (given : List ℕ) (refusal : Refusal) →
        u_label_answer properties given ≡ Err refusal →
        refusal ≢ Empty → a_label_cause properties given refusal ≢ None }
    ensures examples { ExamplesOfALabels }
{}

/// What is told of what begins with `xn--` where a U-label is wanted is the label of which it is the A-label, if there
/// is one.
pub fn coded_labels_are_told()
    ensures exactly { (properties : Properties) (given utf8 : List ℕ) →
        (coded_label properties given ≡ Some utf8) ↔
        ((label : List ℕ) × IsALabelOf properties given label × (utf8 ≡ utf8_of label)) }
{}

/// What is told of a fault of a name that is decoded is its cause, and nothing else is. Each fault but `Empty` has a
/// cause.
pub fn name_causes_are_told()
    ensures exactly { (properties : Properties) (name : List ℕ) (refusal : Refusal) (cause : NameCause) →
        (name_cause properties name refusal ≡ Some cause) ↔ IsNameCause properties name refusal cause }
    ensures always { (properties : Properties) (name : List ℕ) (refusal : Refusal) →
        decode_answer properties name ≡ Err refusal →
        refusal ≢ Empty → name_cause properties name refusal ≢ None }
{}

/// What is told of a fault of a name that is looked up is its cause, and nothing else is. A wrong length has a cause.
pub fn query_causes_are_told()
    ensures exactly { (name : List ℕ) (std3 : Bool) (refusal : Refusal) (cause : LengthCause) →
        (query_cause name std3 refusal ≡ Some cause) ↔ IsQueryCause name std3 refusal cause }
    ensures always { (name : List ℕ) (std3 : Bool) → query_name name std3 ≡ Err LookupLength →
        query_cause name std3 LookupLength ≢ None }
    ensures examples { ExamplesOfLengths }
{}
