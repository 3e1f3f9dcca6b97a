//! Laws of the definitions. Each holds by its proof alone.
ghost use Rattle.std.specs.Prelude.{◌≡◌, Some, true, IsUtf8};
ghost use Rattle.json.specs.Json.{document};
ghost use Rattle.answer_json.specs.Answers.{Answer, HasSmallNumbers, json_of, text_of};
ghost use Rattle.answer_json.specs.Clear.{is_clear};
ghost use Rattle.answer_json.specs.Examples.{HaveTexts, answers, by_rulesets, escapes, refusals, tables};
ghost use Rattle.answer_json.specs.Unicode.{HasUnicodeTexts};

/// The text of each answer is read back as the object that is meant, by the grammar of JSON (RFC 8259), whatever its
/// texts hold.
pub fn objects_are_read_back()
    ensures { (answer : Answer) → HasSmallNumbers answer → document (text_of (json_of answer)) ≡ Some (json_of answer) }
{}

/// No byte below the space is in the text of an answer. So no line feed is, and an answer is one line.
pub fn objects_are_lines()
    ensures { (answer : Answer) → HasSmallNumbers answer → is_clear (text_of (json_of answer)) ≡ true }
{}

/// The text of an answer whose texts are UTF-8 is UTF-8, as a text of JSON has to be.
pub fn objects_are_unicode()
    ensures { (answer : Answer) → HasSmallNumbers answer → HasUnicodeTexts answer → IsUtf8 (text_of (json_of answer)) }
{}

/// Texts of answers, computed from the definitions.
pub fn objects_have_texts()
    ensures escapes { HaveTexts escapes }
    ensures answers { HaveTexts answers }
    ensures refusals { HaveTexts refusals }
    ensures by_rulesets { HaveTexts by_rulesets }
    ensures tables { HaveTexts tables }
{}
