//! Laws of the definitions.
ghost use Rattle.std.specs.Prelude.{◌≡◌, ℕ, List, ◌++◌};
ghost use Rattle.xml_text.specs.Examples.{IsDocumentExample, IsEmptyExample, IsStartExample};
ghost use Rattle.xml_text.specs.Files.{IsDocument, IsStopAt};
ghost use Rattle.xml_text.specs.Tags.{Tag, IsTag};
ghost use Rattle.xml_text.specs.Tokens.{Token};

/// A text begins with one tag at most.
pub fn a_text_begins_with_one_tag()
    ensures { (t u : Tag) (front rest other more : List ℕ) → front ++ rest ≡ other ++ more → IsTag front t →
        IsTag other u →
        (front ≡ other) × (t ≡ u) }
{}

/// A text is one document at most.
pub fn a_text_is_one_document()
    ensures { (text : List ℕ) (tokens others : List Token) → IsDocument text tokens → IsDocument text others →
        tokens ≡ others }
{}

/// A text at a byte of which no document goes on is none.
pub fn a_text_that_stops_is_no_document()
    ensures { (text : List ℕ) (place : ℕ) (tokens : List Token) → IsStopAt text place → IsDocument text tokens → ⊥ }
{}

/// Examples of XML 1.0 are what it says that they are.
pub fn definitions_give_the_examples()
    ensures start { IsStartExample }
    ensures empty { IsEmptyExample }
    ensures document { IsDocumentExample }
{}
