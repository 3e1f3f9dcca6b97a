//! Reading the form of an entry or of a range, lexeme by lexeme.
ghost use Rattle.std.specs.Prelude.{◌≡◌, true, IfOk, OnOk, bytes_eq, codes, length, slice_index};
ghost use Rattle.std.specs.Option.{option_map};
ghost use Rattle.ruleset_text.specs.EntryForms as forms;
ghost use Rattle.ruleset_text.specs.EntryWords.{point_of};
ghost use Rattle.ruleset_text.specs.EntryFaults.{notes_of};
ghost use Rattle.ruleset_text.specs.EntrySteps as steps;
ghost use Rattle.ruleset_text.specs.LineStops.{Gives};
ghost use Rattle.ruleset_text.specs.Names.{is_one_of as is_among};
ghost use Rattle.ruleset_text.specs.declared.entry_reading.Phase.TheVariants.{Begin};
ghost use Rattle.ruleset_text.specs.inner.EntryNoted.{names_next, noted, point_noted};
ghost use Rattle.ruleset_text.specs.inner.EntryTaken.{is_before_name, is_before_word, taken_as};

use crate::definitions::Definitions;
use crate::entry_form::{EntryForm, Mapped};
use crate::entry_notes::{EntryNotes, LinePoint};
use crate::entry_parts::EntryParts;
use crate::fault::{FaultPlace, ReadError};
use crate::named_condition::NamedCondition;
use crate::names::{Name, is_name, is_one_of};
use crate::placed::PlacedLexemes;
use crate::tokens::without_prefix;
use idn_text::hex_point;
use label_patterns::ConditionKind;
use std::alloc::{AllocError, Global};
use std::mem::replace;

/// What a lexeme is in the line of an entry, where it is no code point and no name.
#[derive(Clone, Copy, PartialEq, Eq)]
enum EntryWord {
    /// `!`
    Mark,
    /// `-`
    Hyphen,
    /// `|`
    Bar,
    /// `:`
    Colon,
    /// `..`
    Range,
    /// `as`
    As,
    /// `when`
    When,
    /// `unless`
    Unless,
    Other,
}

/// What was read last of a source or a variant.
#[derive(Clone, Copy, PartialEq, Eq)]
enum Phase {
    /// Nothing.
    Begin,
    Mark,
    Point,
    Hyphen,
    /// `..`
    Range,
    /// The last code point of a range.
    Last,
    /// `as`
    As,
    /// The name of a type.
    VariantType,
    When,
    Unless,
    Rule,
}

/// What was read of a line: the source and the variants that are complete, and the one that isn't.
#[derive(Drop)]
struct EntryState {
    done: Vec<Mapped>,
    current: Mapped,
    last: Option<u32>,
    phase: Phase,
}

/// The entry or the range that a line spells, with no other parts than these; or where the line stops being one, which
/// law `reading_an_entry_is_exact` says. Types and rules go by their names. What its form doesn't show is noted: where
/// each sequence begins, and what is wrong after these definitions.
// Always inline, so that it is where a table is read, whoever else calls it. So are each step and the end.
#[inline(always)]
#[tactic(auto, unfolding(crate::specs::EntrySteps::entry_read))]
pub fn read_entry(
    alloc: Global,
    parts: EntryParts,
    definitions: &Definitions,
    line: &[u8],
    notes: &mut EntryNotes,
) -> Result<EntryForm, ReadError>
    ensures read { Gives forms.entry_form result (steps.entry_read parts line.now) }
    ensures noted { IfOk result (λ form. forms.notes notes.new ≡
        notes_of definitions.now (forms.entry_form form) line.now) }
{
    notes.clear();
    let mut state = EntryState::new(alloc);
    let mut lexemes = PlacedLexemes::new(line);
    while let Some((place, lexeme)) = lexemes.next() {
        if !state.step(alloc, parts, definitions, notes, place, lexeme)? {
            return Err(ReadError::Stop(FaultPlace::Lexeme(place, lexeme.len())));
        }
    }
    match state.ended()? {
        Some(form) => Ok(form),
        None => Err(ReadError::Stop(FaultPlace::End(line.len()))),
    }
}

fn nothing(alloc: Global) -> Mapped
    ensures { forms.mapped result ≡ steps.nothing }
{
    Mapped {
        marked: false,
        points: Vec::new(alloc),
        type_name: None,
        condition: None,
    }
}

/// Each step answers whether its lexeme, or the word that it is, may stand there. If it may not, or memory was refused,
/// the state is of no use any more.
impl EntryState {
    /// Nothing was read.
    fn new(alloc: Global) -> Self
        ensures { steps.state result ≡ steps.start }
    {
        EntryState {
            done: Vec::new(alloc),
            current: nothing(alloc),
            last: None,
            phase: Phase::Begin,
        }
    }

    /// A word of a part that is lacking may stand nowhere. A code point is no word.
    #[inline(always)]
    #[tactic(auto, using(crate::proofs::EntryWordLemmas::point_steps))]
    fn step(
        &mut self,
        alloc: Global,
        parts: EntryParts,
        definitions: &Definitions,
        notes: &mut EntryNotes,
        place: usize,
        lexeme: &[u8],
    ) -> Result<bool, AllocError>
        ensures state { IfOk result (λ taken. steps.step_in parts (steps.state self.old) lexeme.now ≡
            taken_as taken (steps.state self.new)) }
        ensures notes { IfOk result (λ taken. taken ≡ true → forms.notes notes.new ≡ noted definitions.now
            (steps.state self.old) (record { place = place; lexeme = lexeme.now }) (forms.notes notes.old)) }
    {
        match self.phase {
            Phase::Mark | Phase::Hyphen => self.take_point(
                alloc,
                definitions,
                notes,
                place,
                lexeme,
            ),
            Phase::Range => self.take_last(alloc, definitions, notes, place, lexeme),
            Phase::As | Phase::When | Phase::Unless => self.take_name(
                alloc,
                parts,
                definitions,
                notes,
                place,
                lexeme,
            ),
            Phase::Begin => self.begin(alloc, parts, definitions, notes, place, lexeme),
            Phase::Point | Phase::Last | Phase::VariantType | Phase::Rule => self.take_word(
                alloc, parts, lexeme,
            ),
        }
    }

    /// Takes a name, which may be any word of types and conditions, if these are not lacking.
    #[inline(always)]
    #[tactic(auto, using(crate::proofs::EntryWordLemmas::name_steps))]
    fn take_name(
        &mut self,
        alloc: Global,
        parts: EntryParts,
        definitions: &Definitions,
        notes: &mut EntryNotes,
        place: usize,
        lexeme: &[u8],
    ) -> Result<bool, AllocError>
        requires { is_before_name self.old.phase ≡ true }
        ensures state { IfOk result (λ taken. steps.step_in parts (steps.state self.old) lexeme.now ≡
            taken_as taken (steps.state self.new)) }
        ensures notes { IfOk result (λ taken. forms.notes notes.new ≡ noted definitions.now (steps.state self.old)
            (record { place = place; lexeme = lexeme.now }) (forms.notes notes.old)) }
    {
        notes.add_name(self.is_defined(definitions, lexeme), lexeme, place);
        if !parts.named && is_lacking(parts, false, word_of(lexeme)) {
            return Ok(false);
        }
        match self.phase {
            Phase::When => self.take_rule(alloc, ConditionKind::When, lexeme),
            Phase::Unless => self.take_rule(alloc, ConditionKind::Unless, lexeme),
            _ => self.take_type(alloc, lexeme),
        }
    }

    /// Whether it is one of the names of which one stands next.
    #[inline(always)]
    fn is_defined(&self, definitions: &Definitions, name: &[u8]) -> bool
        ensures { result ≡ is_among (names_next definitions.now self.now.phase) name.now }
    {
        match self.phase {
            Phase::As => definitions.has_type(name),
            _ => is_one_of(definitions.rule_names(), name),
        }
    }

    /// Takes a word after a code point or a name.
    #[inline(always)]
    fn take_word(
        &mut self,
        alloc: Global,
        parts: EntryParts,
        lexeme: &[u8],
    ) -> Result<bool, AllocError>
        requires { is_before_word self.old.phase ≡ true }
        ensures { IfOk result (λ taken. steps.step_in parts (steps.state self.old) lexeme.now ≡
            taken_as taken (steps.state self.new)) }
    {
        let word = word_of(lexeme);
        if is_lacking(parts, false, word) {
            return Ok(false);
        }
        match self.phase {
            Phase::Point => self.after_point(alloc, word),
            Phase::Last => self.after_points(alloc, word),
            Phase::VariantType => self.after_type(alloc, word),
            _ => self.after_rule(alloc, word),
        }
    }

    /// Goes on to another phase.
    fn go_on(&mut self, phase: Phase) -> bool
        ensures taken { result ≡ true }
        ensures state { steps.state self.new ≡ steps.with_phase (steps.state self.old) phase }
    {
        self.phase = phase;
        true
    }

    /// Takes `!`, or the first code point of a source or a variant.
    #[inline(always)]
    fn begin(
        &mut self,
        alloc: Global,
        parts: EntryParts,
        definitions: &Definitions,
        notes: &mut EntryNotes,
        place: usize,
        lexeme: &[u8],
    ) -> Result<bool, AllocError>
        requires { self.old.phase ≡ Begin }
        ensures state { IfOk result (λ taken. steps.step_in parts (steps.state self.old) lexeme.now ≡
            taken_as taken (steps.state self.new)) }
        ensures notes { IfOk result (λ taken. taken ≡ true → forms.notes notes.new ≡ noted definitions.now
            (steps.state self.old) (record { place = place; lexeme = lexeme.now }) (forms.notes notes.old)) }
    {
        if !is_mark(lexeme) {
            return self.take_point(alloc, definitions, notes, place, lexeme);
        }
        if is_lacking(parts, self.done.is_empty(), EntryWord::Mark) {
            return Ok(false);
        }
        self.current.marked = true;
        self.phase = Phase::Mark;
        Ok(true)
    }

    fn take_point(
        &mut self,
        alloc: Global,
        definitions: &Definitions,
        notes: &mut EntryNotes,
        place: usize,
        lexeme: &[u8],
    ) -> Result<bool, AllocError>
        ensures state { IfOk result (λ taken. steps.at_point (steps.state self.old) (point_of lexeme.now) ≡
            taken_as taken (steps.state self.new)) }
        ensures notes { IfOk result (λ taken. taken ≡ true → forms.notes notes.new ≡ point_noted definitions.now
            (steps.state self.old) (record { place = place; lexeme = lexeme.now }) (forms.notes notes.old)) }
    {
        let Some(point) = hex_point(without_prefix(lexeme)) else {
            return Ok(false);
        };
        notes.add_point(alloc, definitions, self.line_point(place, point))?;
        self.current.points.push(point)?;
        self.phase = Phase::Point;
        Ok(true)
    }

    /// A code point at this place, as the next one of its sequence.
    fn line_point(&self, place: usize, point: u32) -> LinePoint
        ensures { result ≡ record {
          place = place;
          point = point;
          sequence = length self.now.done.items;
          index = length self.now.current.points.items;
        } }
    {
        LinePoint {
            place,
            point,
            sequence: self.done.len(),
            index: self.current.points.len(),
        }
    }

    fn after_point(&mut self, alloc: Global, word: EntryWord) -> Result<bool, AllocError>
        ensures { IfOk result (λ taken. steps.after_point (steps.state self.old) word ≡
            taken_as taken (steps.state self.new)) }
    {
        match word {
            EntryWord::Hyphen => Ok(self.go_on(Phase::Hyphen)),
            EntryWord::Range => Ok(self.may_be_range() && self.go_on(Phase::Range)),
            word => self.after_points(alloc, word),
        }
    }

    /// Whether all that was read is one code point.
    fn may_be_range(&self) -> bool
        ensures { result ≡ steps.may_be_range (steps.state self.now) }
    {
        self.done.is_empty() && self.current.points.len() == 1
    }

    /// Takes the last code point of a range, if it isn't less than the first.
    fn take_last(
        &mut self,
        alloc: Global,
        definitions: &Definitions,
        notes: &mut EntryNotes,
        place: usize,
        lexeme: &[u8],
    ) -> Result<bool, AllocError>
        ensures state { IfOk result (λ taken. steps.at_last (steps.state self.old) (point_of lexeme.now) ≡
            taken_as taken (steps.state self.new)) }
        ensures notes { IfOk result (λ taken. taken ≡ true → forms.notes notes.new ≡ point_noted definitions.now
            (steps.state self.old) (record { place = place; lexeme = lexeme.now }) (forms.notes notes.old)) }
    {
        let Some(last) = hex_point(without_prefix(lexeme)) else {
            return Ok(false);
        };
        if first_point(&self.current.points) > last {
            return Ok(false);
        }
        notes.add_point(alloc, definitions, self.line_point(place, last))?;
        self.last = Some(last);
        self.phase = Phase::Last;
        Ok(true)
    }

    fn after_points(&mut self, alloc: Global, word: EntryWord) -> Result<bool, AllocError>
        ensures { IfOk result (λ taken. steps.after_points (steps.state self.old) word ≡
            taken_as taken (steps.state self.new)) }
    {
        match word {
            EntryWord::As => Ok(!self.current.marked && self.go_on(Phase::As)),
            word => self.after_type(alloc, word),
        }
    }

    /// Takes the name of a type.
    fn take_type(&mut self, alloc: Global, lexeme: &[u8]) -> Result<bool, AllocError>
        ensures { IfOk result (λ taken. steps.at_type (steps.state self.old) lexeme.now ≡
            taken_as taken (steps.state self.new)) }
    {
        if !is_name(lexeme) {
            return Ok(false);
        }
        self.current.type_name = Some(Name::copied(alloc, lexeme)?);
        self.phase = Phase::VariantType;
        Ok(true)
    }

    fn after_type(&mut self, alloc: Global, word: EntryWord) -> Result<bool, AllocError>
        ensures { IfOk result (λ taken. steps.after_type (steps.state self.old) word ≡
            taken_as taken (steps.state self.new)) }
    {
        match word {
            EntryWord::When => Ok(self.go_on(Phase::When)),
            EntryWord::Unless => Ok(self.go_on(Phase::Unless)),
            word => self.after_rule(alloc, word),
        }
    }

    /// Takes the name of the rule of a condition.
    fn take_rule(
        &mut self,
        alloc: Global,
        kind: ConditionKind,
        lexeme: &[u8],
    ) -> Result<bool, AllocError>
        ensures { IfOk result (λ taken. steps.at_rule (steps.state self.old) kind lexeme.now ≡
            taken_as taken (steps.state self.new)) }
    {
        if !is_name(lexeme) {
            return Ok(false);
        }
        let rule = Name::copied(alloc, lexeme)?;
        self.current.condition = Some(NamedCondition { kind, rule });
        self.phase = Phase::Rule;
        Ok(true)
    }

    /// Takes a separator: `|` after the source, `:` after a variant, nothing after a range.
    fn after_rule(&mut self, alloc: Global, word: EntryWord) -> Result<bool, AllocError>
        ensures { IfOk result (λ taken. steps.after_rule (steps.state self.old) word ≡
            taken_as taken (steps.state self.new)) }
    {
        let may_stand = match word {
            EntryWord::Bar => self.done.is_empty(),
            EntryWord::Colon => !self.done.is_empty(),
            _ => false,
        };
        if self.last.is_some() || !may_stand {
            return Ok(false);
        }
        self.complete(alloc)?;
        Ok(true)
    }

    /// Completes the source or the variant that was read, and begins a further variant.
    fn complete(&mut self, alloc: Global) -> Result<(), AllocError>
        ensures { OnOk result (steps.state self.new ≡ steps.with_done (steps.state self.old)) }
    {
        let mapped = replace(&mut self.current, nothing(alloc));
        self.done.push(mapped)?;
        self.phase = Phase::Begin;
        Ok(())
    }

    /// The form, if nothing is left open.
    #[inline(always)]
    fn ended(self) -> Result<Option<EntryForm>, AllocError>
        ensures { IfOk result (λ found. steps.ended (steps.state self) ≡ option_map forms.entry_form found) }
    {
        if !is_complete(self.phase) {
            return Ok(None);
        }
        let EntryState {
            done,
            current,
            last,
            phase: _,
        } = self;
        let mut mapped = done;
        mapped.push(current)?;
        Ok(Some(EntryForm { mapped, last }))
    }
}

/// Whether a word is of none of the parts. The first word of a line is that of the source.
fn is_lacking(parts: EntryParts, first: bool, word: EntryWord) -> bool
    ensures { result ≡ steps.is_lacking parts first word }
{
    match word {
        EntryWord::Mark => {
            if first {
                !parts.invalid
            } else {
                !parts.blocked
            }
        }
        EntryWord::Range => !parts.ranges,
        EntryWord::As | EntryWord::When | EntryWord::Unless => !parts.named,
        _ => false,
    }
}

/// The first code point, or 0 if there is none.
fn first_point(points: &[u32]) -> u32
    ensures { result ≡ slice_index points.now 0 }
{
    if points.is_empty() { 0 } else { points[0] }
}

fn is_complete(phase: Phase) -> bool
    ensures { result ≡ steps.is_complete phase }
{
    matches!(
        phase,
        Phase::Point | Phase::Last | Phase::VariantType | Phase::Rule
    )
}

fn is_mark(lexeme: &[u8]) -> bool
    ensures { result ≡ bytes_eq lexeme.now (codes "!") }
{
    matches!(lexeme, b"!")
}

fn word_of(lexeme: &[u8]) -> EntryWord
    ensures { result ≡ steps.word_of lexeme.now }
{
    match lexeme {
        b"!" => EntryWord::Mark,
        b"-" => EntryWord::Hyphen,
        b"|" => EntryWord::Bar,
        b":" => EntryWord::Colon,
        b".." => EntryWord::Range,
        b"as" => EntryWord::As,
        b"when" => EntryWord::When,
        b"unless" => EntryWord::Unless,
        _ => EntryWord::Other,
    }
}
