//! Reading a tag by runs: what was read of it, and which byte may follow.
ghost use Rattle.std.specs.Prelude.{◌≡◌, ◌<◌, [], ◌∷◌, Some, true, length, slice_index, IfOk, IfSome, OnOk};
ghost use Rattle.xml_text.specs.Names as words;
ghost use Rattle.xml_text.specs.References.{referenced};
ghost use Rattle.xml_text.specs.Tags.{tag};
ghost use Rattle.xml_text.specs.declared.state.Phase.TheVariants as phases;
ghost use Rattle.xml_text.specs.inner.Runs.{taken_as, GoesOn, IsPlainValue};
ghost use Rattle.xml_text.specs.inner.TagSteps as steps;
ghost use Rattle.xml_text.specs.inner.TagSteps.{state, Goes};

use crate::attribute::{Attribute, Tag, TagKind, is_one_named};
use crate::bytes::{is_blank, is_name_byte, is_name_start, is_reference_byte, is_space};
use crate::gathered::Gathered;
use crate::quote::Quote;
use crate::reference::referenced;
use crate::run::{Run, one};
use bumpalo::Bump;
use bumpalo::collections::into_bump_slice;
use std::alloc::{AllocError, Global};

/// What was read last.
#[derive(Clone, Copy, PartialEq, Eq)]
pub enum Phase {
    /// Nothing.
    Open,
    /// `<`
    Begin,
    /// A byte of the tag's name.
    Name,
    /// A value, with its quotes.
    After,
    /// A blank where an attribute may follow.
    Blank,
    /// A byte of an attribute's name.
    Attribute,
    /// A blank after it.
    BeforeEquals,
    /// `=`, and perhaps blanks.
    AfterEquals,
    /// A part of a value, or its first quote.
    Value(Quote),
    /// `&` in a value, or a byte after it.
    Reference(Quote),
    /// `/`
    Slash,
    /// `>`
    Ended(TagKind),
}

/// What was read of a tag.
#[derive(Drop)]
pub struct TagState<'a> {
    /// Where attributes stand, and what doesn't stand in the text as it is said.
    arena: &'a Bump,
    name: Gathered<'a>,
    attributes: Vec<Attribute<'a>, &'a Bump>,
    /// The name of the attribute that isn't complete.
    attribute: Gathered<'a>,
    /// What was read of its value.
    value: Gathered<'a>,
    /// What was read after the `&` of the reference that isn't complete.
    reference: Vec<u8>,
    phase: Phase,
}

/// A value after `=` and between quotes with which a text begins, if each of its bytes stands for itself.
#[inline(always)]
fn plain_value(text: &[u8]) -> Option<&[u8]>
    ensures { IfSome result (λ value. IsPlainValue text.now value.now) }
{
    let quote = match text {
        [b'=', b'"', ..] => Quote::Double,
        [b'=', b'\'', ..] => Quote::Single,
        _ => return None,
    };
    let (_, rest) = text.split_at(2);
    let (value, end) = rest.split_at(Run::Value(quote).lead(rest));
    if end.first() == Some(&quote.byte()) {
        Some(value)
    } else {
        None
    }
}

/// What reads one byte answers whether it may stand there. What reads a run answers how many of the bytes that follow
/// it took, or `None` if the first may not stand there. After that, and if memory was refused, the state is of no use
/// any more.
impl<'a> TagState<'a> {
    /// Nothing was read.
    pub fn new(alloc: Global, arena: &'a Bump) -> Self
        ensures { state result ≡ steps.start }
    {
        TagState {
            arena,
            name: Gathered::new(alloc),
            attributes: Vec::new(arena),
            attribute: Gathered::new(alloc),
            value: Gathered::new(alloc),
            reference: Vec::new(alloc),
            phase: Phase::Open,
        }
    }

    /// Forgets what was read.
    #[inline(always)]
    fn clear(&mut self)
        ensures { state self.new ≡ steps.start }
    {
        self.name.clear();
        self.attributes.clear();
        self.attribute.clear();
        self.value.clear();
        self.reference.clear();
        self.phase = Phase::Open;
    }

    /// Reads `<`, and forgets what was read before.
    #[inline(always)]
    pub fn restart(&mut self)
        ensures { state self.new ≡ steps.with_phase steps.start Phase.Begin }
    {
        self.clear();
        self.phase = Phase::Begin;
    }

    /// Reads a run.
    #[inline(always)]
    pub fn read(&mut self, rest: &'a [u8]) -> Result<Option<usize>, AllocError>
        requires { 0 < length rest.now }
        ensures { IfOk result (λ taken. Goes steps.step (state self.old) rest.now taken (state self.new)) }
    {
        let byte = rest[0];
        match self.phase {
            Phase::Open => Ok(one(self.open(byte))),
            Phase::Begin => self.begin(rest),
            Phase::Name => self.name(rest),
            Phase::After => self.after(rest),
            Phase::Blank => self.blank(rest),
            Phase::Attribute => self.attribute(rest),
            Phase::BeforeEquals => Ok(one(self.equals(byte))),
            Phase::AfterEquals => Ok(one(self.quote(byte))),
            Phase::Value(quote) => self.value(quote, rest),
            Phase::Reference(quote) => Ok(one(self.reference(quote, byte)?)),
            Phase::Slash => Ok(one(self.slash(byte))),
            Phase::Ended(_) => Ok(None),
        }
    }

    /// Goes on to another phase.
    fn go_on(&mut self, phase: Phase) -> bool
        ensures { Some (steps.with_phase (state self.old) phase) ≡ taken_as result (state self.new) }
    {
        self.phase = phase;
        true
    }

    fn open(&mut self, byte: u8) -> bool
        ensures { steps.open_step (state self.old) byte ≡ taken_as result (state self.new) }
    {
        byte == b'<' && self.go_on(Phase::Begin)
    }

    fn begin(&mut self, rest: &'a [u8]) -> Result<Option<usize>, AllocError>
        requires { 0 < length rest.now }
        ensures { IfOk result (λ taken. Goes steps.begin_step (state self.old) rest.now taken (state self.new)) }
    {
        if !is_name_start(rest[0]) {
            return Ok(None);
        }
        Ok(Some(self.name_run(rest)?))
    }

    fn name(&mut self, rest: &'a [u8]) -> Result<Option<usize>, AllocError>
        requires { 0 < length rest.now }
        ensures { IfOk result (λ taken. Goes steps.name_step (state self.old) rest.now taken (state self.new)) }
    {
        let byte = rest[0];
        if !is_name_byte(byte) {
            return self.after(rest);
        }
        self.name.add(rest, 1)?;
        Ok(one(self.go_on(Phase::Name)))
    }

    /// Reads bytes of the tag's name, of which the first is one, and what follows them: how many bytes.
    pub fn name_run(&mut self, rest: &'a [u8]) -> Result<usize, AllocError>
        requires { 0 < length rest.now }
        ensures { IfOk result (λ n. Goes (λ s b. Some (steps.named s b)) (state self.old) rest.now (Some n)
            (state self.new)) }
    {
        let len = Run::Name.len(rest);
        self.name.add(rest, len)?;
        self.phase = Phase::Name;
        let (_, more) = rest.split_at(len);
        let others = self.rest_of_tag(more)?;
        Ok(len + others)
    }

    /// Whether a name or a value was read last.
    #[inline(always)]
    fn is_between(&self) -> bool
        ensures { result ≡ steps.is_between self.now.phase }
    {
        matches!(self.phase, Phase::Name | Phase::After)
    }

    /// Reads what follows a name or a value on its line: attributes whose values stand for themselves, and what ends
    /// the tag. How many bytes.
    #[inline(always)]
    #[tactic(auto, using(crate::proofs::TakenLemmas::no_more))]
    fn rest_of_tag(&mut self, rest: &'a [u8]) -> Result<usize, AllocError>
        ensures { IfOk result (λ n. GoesOn steps.step (state self.old) rest.now n (state self.new)) }
    {
        let mut place = 0;
        while place < rest.len() && self.is_between() && is_space(rest[place]) {
            self.phase = Phase::Blank;
            place += 1;
            let (_, more) = rest.split_at(place);
            place += self.begin_attribute(more)?;
        }
        let (_, more) = rest.split_at(place);
        Ok(place + self.end_of_tag(more))
    }

    /// Reads what ends a tag, if it stands there: how many bytes.
    #[inline(always)]
    #[tactic(auto, using(crate::proofs::TagEnds::tag_ends))]
    fn end_of_tag(&mut self, rest: &[u8]) -> usize
        ensures { GoesOn steps.step (state self.old) rest.now result (state self.new) }
    {
        if !self.is_between() {
            return 0;
        }
        match rest {
            [b'>', ..] => {
                self.phase = Phase::Ended(TagKind::Start);
                1
            }
            [b'/', b'>', ..] => {
                self.phase = Phase::Ended(TagKind::Empty);
                2
            }
            _ => 0,
        }
    }

    /// Reads what may follow a name or a value.
    fn after(&mut self, rest: &'a [u8]) -> Result<Option<usize>, AllocError>
        requires { 0 < length rest.now }
        ensures { IfOk result (λ taken. Goes steps.after_step (state self.old) rest.now taken (state self.new)) }
    {
        let byte = rest[0];
        if is_blank(byte) {
            return Ok(Some(self.blank_run(rest)?));
        }
        Ok(one(self.end(byte)))
    }

    /// Reads a blank, and what follows it: how many bytes.
    fn blank_run(&mut self, rest: &'a [u8]) -> Result<usize, AllocError>
        requires some { 0 < length rest.now }
        requires blank { words.is_blank (slice_index rest.now 0) ≡ true }
        ensures { IfOk result (λ n. Goes steps.after_step (state self.old) rest.now (Some n) (state self.new)) }
    {
        self.phase = Phase::Blank;
        let (_, more) = rest.split_at(1);
        let len = self.begin_attribute(more)?;
        let (_, others) = more.split_at(len);
        let further = self.rest_of_tag(others)?;
        Ok(1 + (len + further))
    }

    /// Reads what may end a tag.
    fn end(&mut self, byte: u8) -> bool
        ensures { steps.end_step (state self.old) byte ≡ taken_as result (state self.new) }
    {
        match byte {
            b'>' => self.go_on(Phase::Ended(TagKind::Start)),
            b'/' => self.go_on(Phase::Slash),
            _ => false,
        }
    }

    /// Reads an attribute after a blank, or its name, if one stands there: how many bytes.
    #[inline(always)]
    #[tactic(auto, using(crate::proofs::TakenLemmas::no_more))]
    fn begin_attribute(&mut self, rest: &'a [u8]) -> Result<usize, AllocError>
        requires { self.old.phase ≡ phases.Blank }
        ensures { IfOk result (λ n. GoesOn steps.step (state self.old) rest.now n (state self.new)) }
    {
        match rest.first() {
            Some(byte) if is_name_start(*byte) => self.attribute_begin(rest),
            _ => Ok(0),
        }
    }

    fn blank(&mut self, rest: &'a [u8]) -> Result<Option<usize>, AllocError>
        requires { 0 < length rest.now }
        ensures { IfOk result (λ taken. Goes steps.blank_step (state self.old) rest.now taken (state self.new)) }
    {
        if !is_name_start(rest[0]) {
            return self.after(rest);
        }
        Ok(Some(self.attribute_begin(rest)?))
    }

    /// Reads an attribute whose value stands for itself, of whose name the first byte is one; or that name: how many
    /// bytes.
    #[inline(always)]
    fn attribute_begin(&mut self, rest: &'a [u8]) -> Result<usize, AllocError>
        requires { 0 < length rest.now }
        ensures { IfOk result (λ n. Goes (λ s b. Some (steps.with_attribute s b)) (state self.old) rest.now (Some n)
            (state self.new)) }
    {
        let len = Run::Name.len(rest);
        let (name, more) = rest.split_at(len);
        match plain_value(more) {
            Some(value) if !is_one_named(&self.attributes, name) => {
                self.end_attribute(name, value)?;
                Ok(len + (value.len() + 3))
            }
            _ => {
                self.attribute.begin(rest, len);
                self.value.clear();
                self.phase = Phase::Attribute;
                Ok(len)
            }
        }
    }

    /// Reads a byte after the name of an attribute, or one more of that name.
    fn attribute(&mut self, rest: &'a [u8]) -> Result<Option<usize>, AllocError>
        requires some { 0 < length rest.now }
        requires phase { self.old.phase ≡ phases.Attribute }
        ensures { IfOk result (λ taken. Goes steps.attribute_step (state self.old) rest.now taken (state self.new)) }
    {
        let byte = rest[0];
        if is_name_byte(byte) {
            self.attribute.add(rest, 1)?;
            return Ok(one(true));
        }
        let name = self.attribute.whole(self.arena)?;
        let is_new = !is_one_named(&self.attributes, name);
        Ok(one(is_new && self.equals(byte)))
    }

    fn equals(&mut self, byte: u8) -> bool
        ensures { steps.equals_step (state self.old) byte ≡ taken_as result (state self.new) }
    {
        if byte == b'=' {
            return self.go_on(Phase::AfterEquals);
        }
        is_blank(byte) && self.go_on(Phase::BeforeEquals)
    }

    fn quote(&mut self, byte: u8) -> bool
        ensures { steps.quote_step (state self.old) byte ≡ taken_as result (state self.new) }
    {
        match byte {
            b'"' => self.go_on(Phase::Value(Quote::Double)),
            b'\'' => self.go_on(Phase::Value(Quote::Single)),
            _ => is_blank(byte) && self.go_on(Phase::AfterEquals),
        }
    }

    #[inline(always)]
    fn value(&mut self, quote: Quote, rest: &'a [u8]) -> Result<Option<usize>, AllocError>
        requires some { 0 < length rest.now }
        requires phase { self.old.phase ≡ phases.Value quote }
        ensures { IfOk result (λ taken. Goes (steps.value_step quote) (state self.old) rest.now taken
            (state self.new)) }
    {
        let byte = rest[0];
        if byte == quote.byte() {
            self.end_value()?;
            return Ok(Some(1));
        }
        match byte {
            b'<' => Ok(None),
            b'&' => {
                self.reference.clear();
                Ok(one(self.go_on(Phase::Reference(quote))))
            }
            b'\t' | b'\n' | b'\r' => {
                self.value.add(b" ", 1)?;
                Ok(Some(1))
            }
            _ => self.value_run(quote, rest),
        }
    }

    /// Ends a value, and its attribute.
    fn end_value(&mut self) -> Result<(), AllocError>
        ensures { OnOk result (state self.new ≡ steps.closed (state self.old)) }
    {
        let name = self.attribute.finish(self.arena)?;
        let value = self.value.finish(self.arena)?;
        self.end_attribute(name, value)
    }

    /// Ends an attribute with this name and this value.
    #[inline(always)]
    fn end_attribute(&mut self, name: &'a [u8], value: &'a [u8]) -> Result<(), AllocError>
        ensures { OnOk result (state self.new ≡ steps.with_attribute_of (state self.old) name.now value.now) }
    {
        self.attributes.push(Attribute::new(name, value))?;
        self.attribute.clear();
        self.value.clear();
        self.phase = Phase::After;
        Ok(())
    }

    /// Reads bytes of a value that stand for themselves, of which the first is one.
    #[inline(always)]
    fn value_run(&mut self, quote: Quote, rest: &'a [u8]) -> Result<Option<usize>, AllocError>
        requires some { 0 < length rest.now }
        requires phase { self.old.phase ≡ phases.Value quote }
        ensures { IfOk result (λ taken. Goes (λ s b. Some (steps.with_value s (b ∷ []))) (state self.old) rest.now
            taken (state self.new)) }
    {
        let len = Run::Value(quote).len(rest);
        self.value.add(rest, len)?;
        Ok(Some(len))
    }

    fn reference(&mut self, quote: Quote, byte: u8) -> Result<bool, AllocError>
        ensures { IfOk result (λ taken. steps.reference_step quote (state self.old) byte ≡
            taken_as taken (state self.new)) }
    {
        if byte == b';' {
            return self.resolve(quote);
        }
        if !is_reference_byte(byte) {
            return Ok(false);
        }
        self.reference.push(byte)?;
        Ok(true)
    }

    /// Puts the character in place of a reference that is complete.
    fn resolve(&mut self, quote: Quote) -> Result<bool, AllocError>
        ensures { let s = state self.old in IfOk result
            (λ taken. steps.resolved quote s (referenced s.reference) ≡ taken_as taken (state self.new)) }
    {
        let Some(character) = referenced(&self.reference) else {
            return Ok(false);
        };
        let mut room = [0; 4];
        let utf8 = character.encode_utf8(&mut room);
        self.value.join(utf8.as_bytes())?;
        Ok(self.go_on(Phase::Value(quote)))
    }

    fn slash(&mut self, byte: u8) -> bool
        ensures { steps.slash_step (state self.old) byte ≡ taken_as result (state self.new) }
    {
        byte == b'>' && self.go_on(Phase::Ended(TagKind::Empty))
    }

    /// How the tag ended, once it is complete.
    #[inline]
    pub fn kind(&self) -> Option<TagKind>
        ensures { result ≡ steps.kind_of self.now.phase }
    {
        match self.phase {
            Phase::Ended(kind) => Some(kind),
            _ => None,
        }
    }

    /// Takes the tag, which is complete. Its attributes get no more room than they need.
    #[inline(always)]
    pub fn take(&mut self, kind: TagKind) -> Result<Tag<'a>, AllocError>
        ensures tag { IfOk result (λ t. tag t ≡ steps.tag_of (state self.old) kind) }
        ensures new { OnOk result (state self.new ≡ steps.start) }
    {
        let name = self.name.finish(self.arena)?;
        let mut attributes = Vec::with_capacity(self.arena, self.attributes.len())?;
        attributes.append(&mut self.attributes)?;
        self.clear();
        Ok(Tag {
            name,
            attributes: into_bump_slice(attributes),
            kind,
        })
    }
}
