//! Reading a document by runs: what was read of it, and which byte may follow.
ghost use Rattle.std.specs.Prelude.{◌≡◌, ◌==◌, ◌+◌, ◌<◌, ◌≤◌, ◌^◌, [], ◌∷◌, true, false, IfOk, OnOk, Some};
ghost use Rattle.std.specs.Prelude.{length, slice_index};
ghost use Rattle.xml_text.specs.declared.document_state.Part.TheVariants as parts;
ghost use Rattle.xml_text.specs.inner.DocumentSteps as steps;
ghost use Rattle.xml_text.specs.inner.DocumentSteps.{state, Goes, Reads};
ghost use Rattle.xml_text.specs.Names as words;
ghost use Rattle.xml_text.specs.inner.Runs.{taken_as, GoesOn, Takes};
ghost use Rattle.xml_text.specs.inner.TagSteps.{tag_of};
ghost use Rattle.xml_text.specs.Pieces.{is_xml as is_xml_name};
ghost use Rattle.xml_text.specs.References.{referenced as referenced_by};

use crate::attribute::{Tag, TagKind};
use crate::bytes::{is_blank, is_name_byte, is_name_start, is_reference_byte};
use crate::gathered::Gathered;
use crate::names::Names;
use crate::reference::referenced;
use crate::repeats::Repeats;
use crate::run::{Run, one};
use crate::state::TagState;
use crate::token::{Said, Token};
use bumpalo::Bump;
use std::alloc::{AllocError, Global};

/// How many elements may be open at once.
pub const MAX_LEVELS: usize = 64;

/// What begins a section of character data, after `<![`.
const SECTION: &[u8] = b"CDATA[";

/// What was read last.
#[derive(Clone, Copy, PartialEq, Eq)]
pub enum Part {
    /// A tag, a comment and the like, or character data: perhaps `]`.
    Content(Repeats),
    /// `&`, or a byte after it.
    Reference,
    /// `<`
    Markup,
    /// A part of a start tag.
    Tag,
    /// `</` and so many bytes of the name.
    EndName(usize),
    /// A blank after that.
    EndBlank,
    /// `<!`
    Exclamation,
    /// `<!-`
    CommentBegin,
    /// A part of a comment: perhaps `-`.
    Comment(Repeats),
    /// `<![` and so many bytes of what begins a section.
    SectionBegin(usize),
    /// A part of a section: perhaps `]`.
    Section(Repeats),
    /// `<?`
    Question,
    /// A byte of the name of a processing instruction.
    Target,
    /// `?` after it.
    TargetEnd,
    /// A part of what follows it, and whether that is `?`.
    Instruction(bool),
}

/// What was read of a document.
#[derive(Drop)]
pub struct DocumentState<'a> {
    /// Where that stands which doesn't stand in the text as it is said.
    arena: &'a Bump,
    tokens: Vec<Token<'a>>,
    /// The names of the elements that are open, the innermost first.
    names: Names<'a>,
    /// Whether the root element has begun.
    is_rooted: bool,
    /// What the text says since the last tag.
    said: Gathered<'a>,
    line: usize,
    /// Whether CR was read last, which LF may follow in one end of a line.
    is_after_return: bool,
    /// The line on which the tag begins that isn't complete.
    begun: usize,
    /// What was read of it.
    tag: TagState<'a>,
    /// What was read of a reference, or of the name of a processing instruction.
    word: Vec<u8>,
    part: Part,
}

/// What reads one byte answers whether it may stand there. What reads a run answers how many of the bytes that follow
/// it took, or `None` if the first may not stand there. After that, and if memory was refused, the state is of no use
/// any more.
impl<'a> DocumentState<'a> {
    /// Nothing was read before this line.
    pub fn new(alloc: Global, arena: &'a Bump, line: usize) -> Self
        ensures start { state result ≡ steps.start line }
        ensures after { result.is_after_return ≡ false }
    {
        DocumentState {
            arena,
            tokens: Vec::new(alloc),
            names: Names::new(alloc),
            is_rooted: false,
            said: Gathered::new(alloc),
            line,
            is_after_return: false,
            begun: line,
            tag: TagState::new(alloc, arena),
            word: Vec::new(alloc),
            part: Part::Content(Repeats::Zero),
        }
    }

    /// Reads a run of a text whose lines end in CR LF, LF or CR.
    // Always inline, as what it calls for each run: reading wants no call for a run.
    #[inline(always)]
    pub fn read(&mut self, rest: &'a [u8]) -> Result<Option<usize>, AllocError>
        requires some { 0 < length rest.now }
        requires line { self.old.line + 1 < 2 ^ 64 }
        ensures taken { IfOk result (λ taken. Reads self.old rest.now taken self.new) }
        ensures line { OnOk result (self.new.line ≤ self.old.line + 1) }
    {
        let byte = rest[0];
        let taken = match byte {
            b'\r' => self.step(b"\n")?,
            b'\n' if self.is_after_return => Some(1),
            _ => self.step(rest)?,
        };
        self.is_after_return = byte == b'\r';
        Ok(taken)
    }

    /// Reads a run, and counts lines.
    #[inline(always)]
    fn step(&mut self, rest: &'a [u8]) -> Result<Option<usize>, AllocError>
        requires some { 0 < length rest.now }
        requires line { self.old.line + 1 < 2 ^ 64 }
        ensures taken { IfOk result (λ taken.
            Takes steps.step (steps.step (state self.old) (slice_index rest.now 0)) rest.now taken (state self.new)) }
        ensures line { OnOk result (self.new.line ≤ self.old.line + 1) }
    {
        let line = if rest[0] == b'\n' {
            self.line + 1
        } else {
            self.line
        };
        let taken = self.take(rest)?;
        self.line = line;
        Ok(taken)
    }

    #[inline(always)]
    fn take(&mut self, rest: &'a [u8]) -> Result<Option<usize>, AllocError>
        requires { 0 < length rest.now }
        ensures { IfOk result (λ taken. Goes steps.take (state self.old) rest.now taken (state self.new)) }
    {
        let byte = rest[0];
        match self.part {
            Part::Content(brackets) => self.content(brackets, rest),
            Part::Reference => Ok(one(self.reference(byte)?)),
            Part::Markup => self.markup(rest),
            Part::Tag => self.tag(rest),
            Part::EndName(at) => Ok(one(self.end_name(at, byte)?)),
            Part::EndBlank => Ok(one(self.end_blank(byte)?)),
            Part::Exclamation => Ok(one(self.exclamation(byte))),
            Part::CommentBegin => Ok(one(self.comment_begin(byte))),
            Part::Comment(dashes) => Ok(self.comment(dashes, rest)),
            Part::SectionBegin(at) => Ok(one(self.section_begin(at, byte))),
            Part::Section(brackets) => self.section(brackets, rest),
            Part::Question => Ok(one(self.question(byte)?)),
            Part::Target => Ok(one(self.target(byte)?)),
            Part::TargetEnd => Ok(one(self.target_end(byte))),
            Part::Instruction(is_mark) => Ok(self.instruction(is_mark, rest)),
        }
    }

    /// Goes on to another part.
    fn go_on(&mut self, part: Part) -> bool
        ensures { steps.moved (state self.old) part ≡ taken_as result (state self.new) }
    {
        self.part = part;
        true
    }

    #[inline(always)]
    fn content(&mut self, brackets: Repeats, rest: &'a [u8]) -> Result<Option<usize>, AllocError>
        requires { 0 < length rest.now }
        ensures { IfOk result (λ taken. Goes (steps.content_step brackets) (state self.old) rest.now taken
            (state self.new)) }
    {
        let byte = rest[0];
        if byte == b'<' {
            return Ok(Some(self.begin_markup(rest)?));
        }
        if self.names.is_empty() {
            return Ok(one(is_blank(byte) && self.go_on(Part::Content(Repeats::Zero))));
        }
        match byte {
            b'&' => {
                self.word.clear();
                Ok(one(self.go_on(Part::Reference)))
            }
            b']' => {
                self.said.add(rest, 1)?;
                Ok(one(self.go_on(Part::Content(brackets.after(true)))))
            }
            b'>' if brackets.is_two() => Ok(None),
            _ => self.text_run(rest),
        }
    }

    /// Reads `<`, and the tag that begins or ends with it: how many bytes.
    #[inline(always)]
    fn begin_markup(&mut self, rest: &'a [u8]) -> Result<usize, AllocError>
        requires some { 0 < length rest.now }
        requires open { slice_index rest.now 0 ≡ 60 }
        ensures { (brackets : Repeats) → IfOk result (λ n.
            Goes (steps.content_step brackets) (state self.old) rest.now (Some n) (state self.new)) }
    {
        self.begun = self.line;
        self.part = Part::Markup;
        let (_, more) = rest.split_at(1);
        let others = self.tag_after(more)?;
        Ok(1 + others)
    }

    /// Reads what follows `<`, if it is a tag, or the beginning of one: how many bytes.
    #[inline(always)]
    #[tactic(auto, using(crate::proofs::TakenLemmas::no_more))]
    fn tag_after(&mut self, rest: &'a [u8]) -> Result<usize, AllocError>
        requires { self.old.part ≡ parts.Markup }
        ensures { IfOk result (λ n. GoesOn steps.step (state self.old) rest.now n (state self.new)) }
    {
        let Some(byte) = rest.first() else {
            return Ok(0);
        };
        if *byte == b'/' {
            return self.end_tag(rest);
        }
        if !is_name_start(*byte) || !self.may_open() {
            return Ok(0);
        }
        let len = self.open_tag(rest)?;
        Ok(len)
    }

    /// Reads the rest of an end tag after `<`, if all of it stands there, and closes the element: how many bytes.
    #[tactic(auto, using(crate::proofs::TakenLemmas::no_more))]
    fn end_tag(&mut self, rest: &'a [u8]) -> Result<usize, AllocError>
        requires some { 0 < length rest.now }
        requires slash { slice_index rest.now 0 ≡ 47 }
        requires part { self.old.part ≡ parts.Markup }
        ensures { IfOk result (λ n. GoesOn steps.step (state self.old) rest.now n (state self.new)) }
    {
        let Some(expected) = self.names.innermost() else {
            return Ok(0);
        };
        let (_, more) = rest.split_at(1);
        let len = Run::Name.lead(more);
        let (name, end) = more.split_at(len);
        if name != expected {
            return Ok(0);
        }
        match end {
            [b'>', ..] => {
                self.close()?;
                Ok(1 + (len + 1))
            }
            _ => Ok(0),
        }
    }

    /// Reads bytes of text between tags, of which the first is one.
    #[inline(always)]
    fn text_run(&mut self, rest: &'a [u8]) -> Result<Option<usize>, AllocError>
        requires some { 0 < length rest.now }
        requires inside { steps.has_none self.old.names ≡ false }
        ensures { IfOk result (λ taken. Goes steps.spoken_step (state self.old) rest.now taken (state self.new)) }
    {
        let len = Run::Text.len(rest);
        self.said.add(rest, len)?;
        self.part = Part::Content(Repeats::Zero);
        Ok(Some(len))
    }

    fn reference(&mut self, byte: u8) -> Result<bool, AllocError>
        ensures { IfOk result (λ taken. steps.reference_step (state self.old) byte ≡ taken_as taken (state self.new)) }
    {
        if byte == b';' {
            return self.resolve();
        }
        if !is_reference_byte(byte) {
            return Ok(false);
        }
        self.word.push(byte)?;
        Ok(true)
    }

    /// Puts the character in place of a reference that is complete.
    fn resolve(&mut self) -> Result<bool, AllocError>
        ensures { IfOk result (λ taken. steps.resolved (state self.old) (referenced_by self.old.word.items) ≡
            taken_as taken (state self.new)) }
    {
        let Some(character) = referenced(&self.word) else {
            return Ok(false);
        };
        let mut room = [0; 4];
        let utf8 = character.encode_utf8(&mut room);
        self.said.join(utf8.as_bytes())?;
        Ok(self.go_on(Part::Content(Repeats::Zero)))
    }

    fn markup(&mut self, rest: &'a [u8]) -> Result<Option<usize>, AllocError>
        requires { 0 < length rest.now }
        ensures { IfOk result (λ taken. Goes steps.markup_step (state self.old) rest.now taken (state self.new)) }
    {
        match rest[0] {
            b'!' => Ok(one(self.go_on(Part::Exclamation))),
            b'?' => Ok(one(self.go_on(Part::Question))),
            b'/' => Ok(one(!self.names.is_empty() && self.go_on(Part::EndName(0)))),
            _ => self.begin_tag(rest),
        }
    }

    /// Whether an element may begin.
    fn may_open(&self) -> bool
        ensures { result ≡ steps.may_open self.now.is_rooted self.now.names }
    {
        if self.names.is_empty() {
            !self.is_rooted
        } else {
            self.names.len() < MAX_LEVELS
        }
    }

    fn begin_tag(&mut self, rest: &'a [u8]) -> Result<Option<usize>, AllocError>
        requires { 0 < length rest.now }
        ensures { IfOk result (λ taken. Goes steps.begin_tag_step (state self.old) rest.now taken (state self.new)) }
    {
        if !self.may_open() {
            return Ok(None);
        }
        if !is_name_start(rest[0]) {
            return Ok(None);
        }
        Ok(Some(self.open_tag(rest)?))
    }

    /// Reads the name of a tag, of which the first byte is one, and what follows it: how many bytes.
    #[inline(always)]
    fn open_tag(&mut self, rest: &'a [u8]) -> Result<usize, AllocError>
        requires some { 0 < length rest.now }
        requires name { words.is_name_start (slice_index rest.now 0) ≡ true }
        requires may { steps.may_open self.old.is_rooted self.old.names ≡ true }
        ensures goes { IfOk result (λ n.
            Goes steps.begin_tag_step (state self.old) rest.now (Some n) (state self.new)) }
        ensures line { OnOk result (self.new.line ≡ self.old.line) }
    {
        self.tag.restart();
        self.part = Part::Tag;
        let len = self.tag.name_run(rest)?;
        if let Some(kind) = self.tag.kind() {
            self.open(kind)?;
        }
        Ok(len)
    }

    #[inline(always)]
    fn tag(&mut self, rest: &'a [u8]) -> Result<Option<usize>, AllocError>
        requires some { 0 < length rest.now }
        requires part { self.old.part ≡ parts.Tag }
        ensures { IfOk result (λ taken. Goes steps.tag_step (state self.old) rest.now taken (state self.new)) }
    {
        let Some(len) = self.tag.read(rest)? else {
            return Ok(None);
        };
        if let Some(kind) = self.tag.kind() {
            self.open(kind)?;
        }
        Ok(Some(len))
    }

    /// Opens the element of a tag that is complete.
    fn open(&mut self, kind: TagKind) -> Result<(), AllocError>
        ensures { OnOk result (state self.new ≡ steps.opened (state self.old) (tag_of (state self.old).tag kind)) }
    {
        self.end_text()?;
        let Tag {
            name,
            attributes,
            ..
        } = self.tag.take(kind)?;
        self.names.open(kind, name)?;
        self.tokens
            .push(Token::new(Said::Open(name, attributes), self.begun))?;
        self.end_empty(kind)?;
        self.is_rooted = true;
        self.part = Part::Content(Repeats::Zero);
        Ok(())
    }

    /// Closes an element that is empty.
    fn end_empty(&mut self, kind: TagKind) -> Result<(), AllocError>
        ensures { OnOk result (state self.new ≡ steps.ended_empty (state self.old) kind) }
    {
        if kind == TagKind::Empty {
            self.tokens.push(Token::new(Said::Close, self.begun))?;
        }
        Ok(())
    }

    /// Ends the text before a tag.
    fn end_text(&mut self) -> Result<(), AllocError>
        ensures { OnOk result (state self.new ≡ steps.with_text (state self.old)) }
    {
        if !self.said.is_empty() {
            let said = self.said.finish(self.arena)?;
            self.tokens.push(Token::new(Said::Text(said), self.begun))?;
        }
        Ok(())
    }

    fn end_name(&mut self, at: usize, byte: u8) -> Result<bool, AllocError>
        ensures { IfOk result (λ taken. steps.end_name_step at (state self.old) byte ≡
            taken_as taken (state self.new)) }
    {
        let Some(name) = self.names.innermost() else {
            return Ok(false);
        };
        match name.get(at) {
            Some(expected) => Ok(*expected == byte && self.go_on(Part::EndName(at + 1))),
            None => self.end_blank(byte),
        }
    }

    fn end_blank(&mut self, byte: u8) -> Result<bool, AllocError>
        ensures { IfOk result (λ taken. steps.end_blank_step (state self.old) byte ≡ taken_as taken (state self.new)) }
    {
        if byte == b'>' {
            self.close()?;
            return Ok(true);
        }
        Ok(is_blank(byte) && self.go_on(Part::EndBlank))
    }

    /// Closes the innermost element.
    fn close(&mut self) -> Result<(), AllocError>
        ensures { OnOk result (state self.new ≡ steps.closed (state self.old)) }
    {
        self.end_text()?;
        self.names.pop();
        self.tokens.push(Token::new(Said::Close, self.begun))?;
        self.part = Part::Content(Repeats::Zero);
        Ok(())
    }

    fn exclamation(&mut self, byte: u8) -> bool
        ensures { steps.exclamation_step (state self.old) byte ≡ taken_as result (state self.new) }
    {
        match byte {
            b'-' => self.go_on(Part::CommentBegin),
            b'[' => !self.names.is_empty() && self.go_on(Part::SectionBegin(0)),
            _ => false,
        }
    }

    fn comment_begin(&mut self, byte: u8) -> bool
        ensures { steps.comment_begin_step (state self.old) byte ≡ taken_as result (state self.new) }
    {
        byte == b'-' && self.go_on(Part::Comment(Repeats::Zero))
    }

    fn comment(&mut self, dashes: Repeats, rest: &'a [u8]) -> Option<usize>
        requires { 0 < length rest.now }
        ensures { Goes (steps.comment_step dashes) (state self.old) rest.now result (state self.new) }
    {
        let byte = rest[0];
        if dashes.is_two() {
            return one(byte == b'>' && self.go_on(Part::Content(Repeats::Zero)));
        }
        if byte == b'-' {
            return one(self.go_on(Part::Comment(dashes.after(true))));
        }
        self.part = Part::Comment(Repeats::Zero);
        Some(Run::Comment.len(rest))
    }

    fn section_begin(&mut self, at: usize, byte: u8) -> bool
        ensures { steps.section_begin_step at (state self.old) byte ≡ taken_as result (state self.new) }
    {
        if SECTION.get(at) != Some(&byte) {
            return false;
        }
        let next = at + 1;
        self.go_on(if next == SECTION.len() {
            Part::Section(Repeats::Zero)
        } else {
            Part::SectionBegin(next)
        })
    }

    fn section(&mut self, brackets: Repeats, rest: &'a [u8]) -> Result<Option<usize>, AllocError>
        requires { 0 < length rest.now }
        ensures { IfOk result (λ taken. Goes (steps.section_step brackets) (state self.old) rest.now taken
            (state self.new)) }
    {
        let byte = rest[0];
        if byte == b']' {
            return Ok(one(self.section_bracket(brackets)?));
        }
        if brackets.is_two() && byte == b'>' {
            return Ok(one(self.go_on(Part::Content(Repeats::Zero))));
        }
        let len = Run::Section.len(rest);
        let held = brackets.brackets();
        self.said.add(held, held.len())?;
        self.said.add(rest, len)?;
        self.part = Part::Section(Repeats::Zero);
        Ok(Some(len))
    }

    /// Reads a bracket in a section: the last two may end it.
    fn section_bracket(&mut self, brackets: Repeats) -> Result<bool, AllocError>
        ensures { IfOk result (λ taken. steps.bracket_in_section brackets (state self.old) ≡
            taken_as taken (state self.new)) }
    {
        if brackets.is_two() {
            self.said.add(b"]", 1)?;
        }
        Ok(self.go_on(Part::Section(brackets.after(true))))
    }

    fn question(&mut self, byte: u8) -> Result<bool, AllocError>
        ensures { IfOk result (λ taken. steps.question_step (state self.old) byte ≡ taken_as taken (state self.new)) }
    {
        if !is_name_start(byte) {
            return Ok(false);
        }
        self.word.clear();
        self.word.push(byte)?;
        Ok(self.go_on(Part::Target))
    }

    fn target(&mut self, byte: u8) -> Result<bool, AllocError>
        ensures { IfOk result (λ taken. steps.target_step (state self.old) byte ≡ taken_as taken (state self.new)) }
    {
        if is_name_byte(byte) {
            self.word.push(byte)?;
            return Ok(true);
        }
        if is_xml(&self.word) {
            return Ok(false);
        }
        if byte == b'?' {
            return Ok(self.go_on(Part::TargetEnd));
        }
        Ok(is_blank(byte) && self.go_on(Part::Instruction(false)))
    }

    fn target_end(&mut self, byte: u8) -> bool
        ensures { steps.last_step (state self.old) byte ≡ taken_as result (state self.new) }
    {
        byte == b'>' && self.go_on(Part::Content(Repeats::Zero))
    }

    fn instruction(&mut self, is_mark: bool, rest: &'a [u8]) -> Option<usize>
        requires { 0 < length rest.now }
        ensures { Goes (steps.instruction_step is_mark) (state self.old) rest.now result (state self.new) }
    {
        let byte = rest[0];
        if is_mark && byte == b'>' {
            return one(self.go_on(Part::Content(Repeats::Zero)));
        }
        if byte == b'?' {
            return one(self.go_on(Part::Instruction(true)));
        }
        self.part = Part::Instruction(false);
        Some(Run::Instruction.len(rest))
    }

    /// Whether what was read is a document.
    pub fn is_complete(&self) -> bool
        ensures { result ≡ steps.is_complete (state self.now) }
    {
        self.is_rooted && self.names.is_empty() && matches!(self.part, Part::Content(_))
    }

    /// What a document says that is complete.
    pub fn into_tokens(self) -> Vec<Token<'a>>
        ensures { result.items ≡ self.entry.tokens.items }
    {
        let DocumentState { tokens, .. } = self;
        tokens
    }
}

/// Whether this is `xml` in any case, which names no processing instruction.
fn is_xml(name: &[u8]) -> bool
    ensures { result ≡ is_xml_name name.now }
{
    name.eq_ignore_ascii_case(b"xml")
}
