//! What is done with the input.

/// What the program does with its input.
#[derive(Clone, Copy, Debug, PartialEq, Eq)]
pub enum Mode {
    /// Each line is a name, converted for a query.
    Lookup,
    /// Each line is a label to be registered, answered by its A-label.
    Register,
    /// Each line is a name, its A-labels answered as U-labels.
    Decode,
    /// Each line is a label of a zone, answered by its line in a file of registered labels.
    DecodeOld,
    /// Each line is a label, answered by its variants under a table.
    Variants,
    /// Each line is a label and a text, answered by the least label, no less than the text, that is near the label
    /// under a table, and by what each of the two is to the other.
    Jump,
    /// A table is checked for the pairs that it lacks.
    CheckTable,
    /// A table is printed as its canonical text.
    PrintTable,
}
