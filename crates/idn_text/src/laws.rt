//! Laws of the definitions, each the contract of a function that does nothing.

ghost use Rattle.std.specs.Prelude.{◌≡◌, ◌≢◌, ◌<◌, ◌^◌, ℕ, List, []};
ghost use Rattle.std.specs.Prelude.{◌∷◌, ◌++◌, length, All, Some, None, codes};
ghost use Rattle.idn_text.specs.Lines.{raw_lines, ended_lines, lines_of, Numbered, body_of};
ghost use Rattle.idn_text.specs.Lines.{HasNoFeed, joined_lines, with_last_feed, EndsInFeed};
ghost use Rattle.idn_text.specs.Readers.{Reader, Fails};
ghost use Rattle.idn_text.specs.Reading.{Reading, IsUnread, HasRead, unread};
ghost use Rattle.idn_text.specs.declared.lines.State.TheVariants.{Ended, Stopped};
ghost use Rattle.idn_text.specs.Points.{IsUtf8Of, utf8_of, point_of_hex};

/// The lines of a text hold no line feed, and each with a line feed after it, joined, are the text,
/// with a line feed after a rest that has none.
pub fn lines_join_to_the_text()
    ensures no_feed { (text : List ℕ) → All HasNoFeed (raw_lines text) }
    ensures joined { (text : List ℕ) → joined_lines (raw_lines text) ≡ with_last_feed text }
{}

/// Lines without a line feed, joined, have these very lines.
pub fn joined_lines_are_the_lines()
    ensures { (lines : List (List ℕ)) → All HasNoFeed lines → raw_lines (joined_lines lines) ≡ lines }
{}

/// The lines that a line feed ends are the lines of the text without its rest.
pub fn ended_lines_are_those_before_the_rest()
    ensures { (text rest : List ℕ) → EndsInFeed text → HasNoFeed rest →
        ended_lines (text ++ rest) ≡ raw_lines text }
{}

/// Of a line of at most 1,024 bytes one carriage return is dropped, and no longer line has a body.
pub fn a_body_is_the_line_without_its_end()
    ensures kept { (line : List ℕ) (last : ℕ) → length line < 1024 → last ≢ 13 →
        body_of (line ++ last ∷ []) ≡ Some (line ++ last ∷ []) }
    ensures dropped { (line : List ℕ) → length line < 1024 → body_of (line ++ 13 ∷ []) ≡ Some line }
    ensures too_long { (line : List ℕ) → 1024 < length line → body_of line ≡ None }
{}

/// Bytes are the UTF-8 of one list of scalar values at most.
pub fn utf8_is_of_one_list()
    ensures { (bytes one other : List ℕ) → IsUtf8Of bytes one → IsUtf8Of bytes other → one ≡ other }
{}

/// A reader of which no line was read yet has a history, in which no byte was given.
pub fn reading_begins()
    ensures { (start : Reading) → IsUnread start → HasRead start start [] [] }
{}

/// At the end, the lines that were read of a text are all its lines.
pub fn ended_reading_has_all_lines()
    ensures { (text : List ℕ) (reader : Reader) (now : Reading) (given : List ℕ) (lines : List Numbered) →
        HasRead (unread (record reader { remaining = Some text })) now given lines →
        now.state ≡ Ended → lines ≡ lines_of text }
{}

/// In a text of fewer than 2^32 bytes only a read that fails stops the reading.
pub fn only_a_failed_reader_stops_a_short_text()
    ensures { (text : List ℕ) (reader : Reader) (now : Reading) (given : List ℕ) (lines : List Numbered) →
        HasRead (unread (record reader { remaining = Some text })) now given lines →
        length text < 2 ^ 32 → now.state ≡ Stopped → Fails reader now.input.reader }
{}

/// Examples, which the definitions compute: `aa`, an empty line and `b`, ended by CR LF, LF and
/// nothing; `faß`, U+4E2D and U+1F600 in UTF-8; U+00DF by its digits, and what names no scalar value.
pub fn definitions_compute_the_examples()
    ensures lines { lines_of (97 ∷ 97 ∷ 13 ∷ 10 ∷ 10 ∷ 98 ∷ []) ≡
        record { number = 1; body = Some (97 ∷ 97 ∷ []) } ∷ record { number = 2; body = Some [] }
        ∷ record { number = 3; body = Some (98 ∷ []) } ∷ [] }
    ensures ended { ended_lines (97 ∷ 97 ∷ 13 ∷ 10 ∷ 10 ∷ 98 ∷ []) ≡
        (97 ∷ 97 ∷ 13 ∷ []) ∷ [] ∷ [] }
    ensures utf8 { utf8_of (0x66 ∷ 0x61 ∷ 0xDF ∷ 0x4E2D ∷ 0x1F600 ∷ []) ≡
        0x66 ∷ 0x61 ∷ 0xC3 ∷ 0x9F ∷ 0xE4 ∷ 0xB8 ∷ 0xAD ∷ 0xF0 ∷ 0x9F ∷ 0x98 ∷ 0x80 ∷ [] }
    ensures hex { point_of_hex (codes "00dF") ≡ Some 0xDF }
    ensures six { point_of_hex (codes "10FFFF") ≡ Some 0x10FFFF }
    ensures surrogate { point_of_hex (codes "D800") ≡ None }
    ensures too_large { point_of_hex (codes "110000") ≡ None }
    ensures three { point_of_hex (codes "0DF") ≡ None }
    ensures no_digit { point_of_hex (codes "00G0") ≡ None }
{}
