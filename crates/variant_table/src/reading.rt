//! Reading the definitions and entries of a text, line by line.
ghost use Rattle.std.specs.Prelude.{◌≡◌, ◌+◌, ◌<◌, ◌≤◌, ◌^◌, [], Some, None, length, IfErr, IfOk, OnOk};
ghost use Rattle.ruleset_text.specs.EntryForms.{entry_form};
ghost use Rattle.ruleset_text.specs.Lexemes.{lexemes};
ghost use Rattle.ruleset_text.specs.PlacedLexemes.{unplaced};
ghost use Rattle.variant_table.specs.declared.version.Version.TheVariants.{Three};
ghost use Rattle.variant_table.specs.Entries.{TableValue, empty_table, entry_from, source_of};
ghost use Rattle.variant_table.specs.FaultyLines.{IsRefusalOf};
ghost use Rattle.variant_table.specs.inner.ReadingSteps.{Leaves, Reads, if_new, with_points_of};
ghost use Rattle.variant_table.specs.Limits.{text_limit};
ghost use Rattle.variant_table.specs.LinePlaces.{body_place, definition_place, entry_place, read_place};
ghost use Rattle.variant_table.specs.Reading.{is_skipped as is_skipped_line, table_of_text};
ghost use Rattle.variant_table.specs.Reading.{with_definition, with_form_of, with_line, with_raw_line, with_words};
ghost use Rattle.variant_table.specs.Texts.{IsLineOfEntry, IsTextOf};

use crate::checks::first_bad;
use crate::definition_lines::{definition_line, fault_in};
use crate::fault::{EntryFault, LineRefusal, TableFault, TableRefusal};
use crate::forms::take_sequences;
use crate::lengths::left_after_range;
use crate::ordered_entries::OrderedEntries;
use crate::sequences::Sequences;
use crate::table_draft::TableDraft;
use crate::version::{Notation, Version, head_of};
use idn_class::Properties;
use idn_text::without_carriage_return;
use ruleset_text::{
    DefinitionLine, EntryForm, EntryNotes, FaultPlace, Mapped, ReadError, read_entry,
    without_blanks,
};
use std::alloc::{AllocError, Global};
use std::marker::Model;

/// The table that a text spells.
#[tactic(auto, unfolding(crate::specs::Reading::table_of_lines))]
pub fn read_text<'a>(
    alloc: Global,
    notation: Notation,
    text: &'a [u8],
    properties: Properties,
) -> Result<TableDraft, TableRefusal<'a>>
    ensures read { Reads result (table_of_text properties notation text.now) }
    ensures line { IfErr result (IsRefusalOf properties notation text.now) }
{
    let Some(head) = head_of(notation, text) else {
        return Err(TableRefusal {
            fault: TableFault::Syntax { line: 1 },
            place: None,
            line: None,
        });
    };
    let mut reader = Reader::new(alloc, head.version, properties);
    let mut number = head.lines;
    let mut bytes = head.bytes;
    for line in head.body {
        number += 1;
        if let Err(refused) = reader.add_raw_line(number, bytes, line) {
            return Err(TableRefusal {
                fault: refused.fault,
                place: refused.place,
                line: Some(line),
            });
        }
        bytes += line.len() + 1;
    }
    Ok(reader.draft)
}

/// The line, from 1, that has the entry of this number, in a text without a fault that has it.
#[tactic(auto, unfolding(crate::specs::Reading::table_of_lines))]
pub fn line_of_entry(
    alloc: Global,
    notation: Notation,
    text: &[u8],
    properties: Properties,
    entry: usize,
) -> Result<u64, AllocError>
    requires { (table : TableValue) × IsTextOf properties notation text.now table × (entry < length table.entries) }
    ensures { (table : TableValue) → IsTextOf properties notation text.now table →
        IfOk result (IsLineOfEntry notation text.now table entry) }
{
    let Some(head) = head_of(notation, text) else {
        unreachable!()
    };
    let mut reader = Reader::new(alloc, head.version, properties);
    let (mut number, mut bytes) = (head.lines, head.bytes);
    for line in head.body {
        number += 1;
        if let Err(_refused) = reader.add_raw_line(number, bytes, line) {
            // The text has no fault, so memory was refused.
            return Err(AllocError);
        }
        if reader.draft.entries.len() > entry {
            return Ok(number);
        }
        bytes += line.len() + 1;
    }
    unreachable!()
}

/// What has been read of a text so far. A reader that refused a line has no further use.
#[derive(Drop)]
struct Reader {
    alloc: Global,
    draft: TableDraft,
    /// What is noted of the line of an entry. Its memory is used again for each line.
    notes: EntryNotes,
}

impl Model for Reader {
    ghost use Rattle.std.specs.Coded.{codes};
    ghost use Rattle.ruleset_text.specs.EntryForms.{notes as noted};
    ghost use Rattle.variant_table.specs.TableCodes.{table_code};
    ghost use Rattle.variant_table.specs.inner.Drafts.{draft_table};
    ghost use Rattle.variant_table.specs.inner.Readers.{ReadSoFar};

    ghost Value = { ReadSoFar };

    ghost coded = { Prim.hlevel (codes, table_code) };

    ghost view = { λ r. record {
      table = draft_table r.draft;
      left = r.draft.left;
      notes = noted r.notes;
    } };
}

impl Reader {
    ghost use Rattle.variant_table.specs.inner.Drafts.{form_with};
    ghost use Rattle.variant_table.specs.inner.Readers.{IsCountedIn, IsNotedAs, noted_place, place_of, told_of};

    /// A reader that has read nothing yet, of a text of this version.
    fn new(alloc: Global, version: Version, properties: Properties) -> Self
        ensures table { result.table ≡ empty_table properties version }
        ensures counted { IsCountedIn result }
    {
        Reader {
            alloc,
            draft: TableDraft::new(alloc, version, properties),
            notes: EntryNotes::new(alloc),
        }
    }

    /// Adds what the line of this number says, as it stands in a text after `bytes` bytes.
    #[tactic(auto, unfolding(crate::specs::Reading::with_raw_line))]
    fn add_raw_line(&mut self, number: u64, bytes: usize, line: &[u8]) -> Result<(), LineRefusal>
        requires bytes { bytes ≤ text_limit self.old.table.version }
        requires counted { IsCountedIn self.old }
        ensures read { Leaves number result self.new.table (with_raw_line bytes self.old.table line.now) }
        ensures place { let t = self.old.table in
            IfErr result (λ r. r.place ≡ read_place t.definitions r.fault t.version bytes line.now) }
        ensures counted { OnOk result (IsCountedIn self.new) }
        ensures within { OnOk result (bytes + length line.now + 1 ≤ text_limit self.old.table.version) }
    {
        let version = self.draft.version;
        if line.len() > version.line_limit() {
            let place = FaultPlace::Byte(version.line_limit());
            return Err(TableFault::Limit { line: number }.at(Some(place)));
        }
        if bytes + line.len() + 1 > version.text_limit() {
            return Err(TableFault::Limit { line: number }.at(None));
        }
        self.add_line(number, without_carriage_return(line))
    }

    /// Adds what the line of this number says.
    #[tactic(auto, unfolding(crate::specs::Reading::with_line))]
    fn add_line(&mut self, number: u64, line: &[u8]) -> Result<(), LineRefusal>
        requires counted { IsCountedIn self.old }
        ensures read { Leaves number result self.new.table (with_line self.old.table line.now) }
        ensures place { let t = self.old.table in
            IfErr result (λ r. r.place ≡ body_place t.definitions r.fault t.version line.now) }
        ensures counted { OnOk result (IsCountedIn self.new) }
    {
        if is_skipped(line) {
            return Ok(());
        }
        if let Some(defining) = definition_line(self.draft.version, line) {
            return self.add_definition(number, defining);
        }
        self.add_entries(number, line)
    }

    /// Adds what a line defines, unless it has a fault.
    #[tactic(auto, unfolding(crate::specs::Reading::with_definition))]
    fn add_definition(&mut self, number: u64, line: DefinitionLine<'_>) -> Result<(), LineRefusal>
        requires ruleset { self.old.table.version ≡ Three }
        requires few { length line.after < 2 ^ 63 }
        requires counted { IsCountedIn self.old }
        ensures read { Leaves number result self.new.table
            (with_definition self.old.table line.entry.keyword (unplaced line.entry.after)) }
        ensures place { IfErr result (λ r. r.place ≡ definition_place self.old.table.definitions r.fault line.entry) }
        ensures counted { OnOk result (IsCountedIn self.new) }
    {
        // The canonical text has a limit: what is left of it, and what the definitions already take.
        let room = self.draft.left + self.draft.definitions.canonical_len();
        match self.draft.definitions.define(self.alloc, room, line) {
            Ok(()) => {
                self.draft.left = room - self.draft.definitions.canonical_len();
                Ok(())
            }
            Err(refusal) => Err(fault_in(number, refusal.fault).at(refusal.place)),
        }
    }

    /// Adds the entries that the line of this number spells, if they are without a fault.
    fn add_entries(&mut self, number: u64, line: &[u8]) -> Result<(), LineRefusal>
        requires counted { IsCountedIn self.old }
        ensures read { Leaves number result self.new.table (with_words self.old.table None (lexemes line.now)) }
        ensures place { let t = self.old.table in
            IfErr result (λ r. r.place ≡ entry_place t.definitions r.fault t.version line.now) }
        ensures counted { OnOk result (IsCountedIn self.new) }
    {
        let parts = self.draft.version.entry_parts();
        let definitions = &self.draft.definitions;
        match read_entry(self.alloc, parts, definitions, line, &mut self.notes) {
            Ok(form) => self.add_form(number, &form),
            Err(ReadError::Stop(place)) => Err(TableFault::Syntax { line: number }.at(Some(place))),
            Err(ReadError::Memory) => Err(TableFault::Memory.at(None)),
        }
    }

    /// Adds the entries of a form, by what was noted of its line, if they are without a fault.
    fn add_form(&mut self, number: u64, form: &EntryForm) -> Result<(), LineRefusal>
        requires noted { IsNotedAs (entry_form form.now) self.old }
        ensures read { Leaves number result self.new.table (with_form_of self.old.table (entry_form form.now)) }
        ensures place { IfErr result (λ r. r.place ≡ noted_place self.old (entry_form form.now) r.fault) }
        ensures counted { OnOk result (IsCountedIn self.new) }
    {
        match form.last {
            None => self.add_entry(number, &form.mapped),
            Some(last) => self.add_range(number, &form.mapped, last),
        }
    }

    /// Adds the entry of a source and its variants, unless it has a fault.
    fn add_entry(&mut self, number: u64, mapped: &[Mapped]) -> Result<(), LineRefusal>
        requires noted { IsNotedAs (form_with mapped.now None) self.old }
        ensures read { Leaves number result self.new.table (with_form_of self.old.table (form_with mapped.now None)) }
        ensures place { IfErr result (λ r. r.place ≡ noted_place self.old (form_with mapped.now None) r.fault) }
        ensures counted { OnOk result (IsCountedIn self.new) }
    {
        let found = self.notes.faults.found();
        match self.draft.add_entry(mapped, found) {
            Ok(()) => Ok(()),
            Err(fault) => Err(self.refusal(number, fault)),
        }
    }

    /// Why the line of this number is refused, whose entry has this fault.
    fn refusal(&self, number: u64, fault: EntryFault) -> LineRefusal
        ensures fault { result.fault ≡ told_of number fault }
        ensures place { result.place ≡ place_of self.now.notes fault }
    {
        let line = number;
        let faults = &self.notes.faults;
        match fault {
            EntryFault::Syntax => TableFault::Syntax { line }.at(None),
            EntryFault::Limit => TableFault::Limit { line }.at(faults.limit),
            EntryFault::NoSuchName => TableFault::NoSuchName { line }.at(faults.name),
            EntryFault::BadClass => TableFault::BadClass { line }.at(faults.class),
            EntryFault::SameVariant(again) => {
                TableFault::SameVariant { line }.at(self.notes.variant_place(again))
            }
            EntryFault::SameSource => {
                TableFault::SameSource { line }.at(self.notes.source_place())
            }
            EntryFault::Memory => TableFault::Memory.at(None),
        }
    }

    /// Adds the entries of a range from its source, one code point, to the last code point, unless one has a fault.
    fn add_range(&mut self, number: u64, mapped: &[Mapped], last: u32) -> Result<(), LineRefusal>
        requires noted { IsNotedAs (form_with mapped.now (Some last)) self.old }
        ensures read { Leaves number result self.new.table
            (with_form_of self.old.table (form_with mapped.now (Some last))) }
        ensures place { IfErr result (λ r. r.place ≡ noted_place self.old (form_with mapped.now (Some last)) r.fault) }
        ensures counted { OnOk result (IsCountedIn self.new) }
    {
        let source = &mapped[0];
        let first = source.points[0];
        let count = (last - first) as usize + 1;
        let limit = self.draft.version.entry_limit();
        let faults = &self.notes.faults;
        if count > limit || self.draft.entries.len() > limit - count {
            return Err(TableFault::Limit { line: number }.at(faults.limit));
        }
        let Some(left) = left_after_range(self.draft.version, source, first, count, self.draft.left)
        else {
            return Err(TableFault::Limit { line: number }.at(faults.limit));
        };
        if faults.name.is_some() {
            return Err(TableFault::NoSuchName { line: number }.at(faults.name));
        }
        let properties = self.draft.definitions.properties();
        if let Some(bad) = first_bad(self.alloc, first, count, properties)? {
            return Err(TableFault::BadClass { line: number }.at(self.notes.range_place(bad)));
        }
        take_sequences(&mut self.draft.sequences, &self.draft.definitions, mapped)?;
        if !push_points(
            self.alloc,
            &mut self.draft.entries,
            &self.draft.sequences,
            first,
            count,
        )? {
            return Err(TableFault::SameSource { line: number }.at(self.notes.source_place()));
        }
        self.draft.left = left;
        Ok(())
    }
}

/// Adds the entries of `count` code points, from `first` on, with the type and the condition of the first of the
/// sequences, as long as their sources are new, and answers whether all of them are.
fn push_points(
    alloc: Global,
    entries: &mut OrderedEntries,
    range: &Sequences,
    first: u32,
    count: usize,
) -> Result<bool, AllocError>
    requires some { 0 < length range.now }
    requires last { first + count ≤ 2 ^ 32 }
    requires room { length entries.old + count ≤ 65536 }
    ensures { IfOk result (λ new. with_points_of entries.old (source_of (entry_from range.now)) first count
        ≡ if_new new entries.new) }
{
    let mut sequences = Sequences::new(alloc);
    for offset in 0..count {
        sequences.clear();
        sequences.push(
            &[first + offset as u32],
            range.variant_type(0),
            range.condition(0),
        )?;
        if !entries.push(&sequences)? {
            return Ok(false);
        }
    }
    Ok(true)
}

/// Whether a line has nothing but blanks, or a comment.
fn is_skipped(line: &[u8]) -> bool
    ensures { result ≡ is_skipped_line line.now }
{
    match without_blanks(line).first() {
        None => true,
        Some(first) => *first == b'#',
    }
}
