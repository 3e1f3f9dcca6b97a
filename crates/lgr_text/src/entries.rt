//! Entries and their variants (RFC 7940, section 5).
ghost use Rattle.std.specs.Prelude.{◌≡◌, codes, map, option_map};
ghost use Rattle.lgr_text.specs.Attributes as terms;
ghost use Rattle.lgr_text.specs.Elements.{Content, each_element};
ghost use Rattle.lgr_text.specs.Entries as entries;
ghost use Rattle.lgr_text.specs.Records as records;
ghost use Rattle.lgr_text.specs.inner.Reading.{AreOf, Reads, node};

use crate::element::{Element, Elements};
use crate::fault::ReadError;
use crate::names::NameKind;
use crate::records::{Entry, Source, Variant};
use crate::values::{point_of, span_between};
use label_patterns::Span;
use ruleset_text::{Name, is_one_of};
use std::alloc::Global;

/// The entries that elements say.
pub fn read_entries(alloc: Global, elements: Elements<'_>) -> Result<Vec<Entry>, ReadError>
    ensures { (c : Content) → AreOf elements.entry c →
        Reads (λ v. map records.entry v.items) (each_element entries.entry_of c) result }
{
    let mut entries = Vec::new(alloc);
    let mut elements = elements;
    while let Some(element) = elements.next()? {
        entries.push(read_entry(alloc, &element)?)?;
    }
    Ok(entries)
}

fn read_variants(alloc: Global, elements: Elements<'_>) -> Result<Vec<Variant>, ReadError>
    ensures { (c : Content) → AreOf elements.entry c →
        Reads (λ v. map records.variant v.items) (each_element entries.variant_of c) result }
{
    let mut variants = Vec::new(alloc);
    let mut elements = elements;
    while let Some(element) = elements.next()? {
        variants.push(read_variant(alloc, &element)?)?;
    }
    Ok(variants)
}

fn read_entry(alloc: Global, element: &Element<'_>) -> Result<Entry, ReadError>
    ensures { (c : Content) → AreOf element.now.within c →
        Reads records.entry (entries.entry_of (node element.now c)) result }
{
    if element.is_named(b"char") {
        read_char(alloc, element)
    } else {
        read_range(alloc, element)
    }
}

fn read_char(alloc: Global, element: &Element<'_>) -> Result<Entry, ReadError>
    ensures { (c : Content) → AreOf element.now.within c →
        Reads records.entry (entries.char_of (node element.now c)) result }
{
    element.check(b"cp when not-when tag comment ref")?;
    let variants = read_variants(alloc, element.within)?;
    element.char_with(alloc, variants)
}

fn read_range(alloc: Global, element: &Element<'_>) -> Result<Entry, ReadError>
    ensures { (c : Content) → AreOf element.now.within c →
        Reads records.entry (entries.range_of (node element.now c)) result }
{
    if !element.is_named(b"range") {
        return Err(element.wrong());
    }
    element.check_plain(b"first-cp last-cp when not-when tag comment ref")?;
    element.range(alloc)
}

fn read_variant(alloc: Global, element: &Element<'_>) -> Result<Variant, ReadError>
    ensures { (c : Content) → AreOf element.now.within c →
        Reads records.variant (entries.variant_of (node element.now c)) result }
{
    if !element.is_named(b"var") {
        return Err(element.wrong());
    }
    element.check_plain(b"cp type when not-when comment ref")?;
    element.variant(alloc)
}

impl<'a> Element<'a> {
    /// The variant that the attributes give.
    fn variant(&self, alloc: Global) -> Result<Variant, ReadError>
        ensures { Reads records.variant (entries.variant_by self.now.attributes.now) result }
    {
        let points = self.points(alloc)?;
        let type_name = self.type_name(alloc)?;
        let condition = self.condition(alloc, b"when", b"not-when")?;
        Ok(Variant {
            points,
            type_name,
            condition,
            line: self.line,
        })
    }

    /// The entry of a `char` that the attributes give, with these variants.
    fn char_with(&self, alloc: Global, variants: Vec<Variant>) -> Result<Entry, ReadError>
        ensures { Reads records.entry (entries.char_with self.now.attributes.now
            (map records.variant variants.items)) result }
    {
        let points = self.sequence(alloc)?;
        self.entry(alloc, Source::Sequence(points), variants)
    }

    /// The entry of a `range` that the attributes give.
    fn range(&self, alloc: Global) -> Result<Entry, ReadError>
        ensures { Reads records.entry (entries.range_by self.now.attributes.now) result }
    {
        let span = self.span()?;
        self.entry(alloc, Source::Range(span), Vec::new(alloc))
    }

    /// The entry that the attributes give, with this source and these variants.
    fn entry(
        &self,
        alloc: Global,
        source: Source,
        variants: Vec<Variant>,
    ) -> Result<Entry, ReadError>
        ensures { Reads records.entry (entries.entry_with self.now.attributes.now (records.source source)
            (map records.variant variants.items)) result }
    {
        let condition = self.condition(alloc, b"when", b"not-when")?;
        let tags = self.tags(alloc)?;
        if !may_be_tagged(&source, &tags) {
            return Err(self.wrong());
        }
        Ok(Entry {
            source,
            condition,
            tags,
            variants,
            line: self.line,
        })
    }

    /// The range from its first code point to its last.
    fn span(&self) -> Result<Span, ReadError>
        ensures { Reads (λ span. span) (entries.span_by self.now.attributes.now) result }
    {
        let first = self.point(b"first-cp");
        let last = self.point(b"last-cp");
        span_between(first, last).ok_or(self.wrong())
    }

    /// The code point that an attribute is.
    fn point(&self, name: &[u8]) -> Option<u32>
        ensures { result ≡ entries.point_by (terms.value self.now.attributes.now name.now) }
    {
        match self.value(name) {
            Some(text) => point_of(text),
            None => None,
        }
    }

    /// Its type, if it has one.
    fn type_name(&self, alloc: Global) -> Result<Option<Name>, ReadError>
        ensures { Reads (λ t. t) (entries.type_by (terms.value self.now.attributes.now (codes "type"))) result }
    {
        match self.value(b"type") {
            Some(text) => Ok(Some(self.name_in(alloc, NameKind::Type, text)?)),
            None => Ok(None),
        }
    }

    /// Its tags.
    fn tags(&self, alloc: Global) -> Result<Vec<Name>, ReadError>
        ensures { Reads (λ v. v.items) (entries.tags_by (terms.value self.now.attributes.now (codes "tag"))) result }
    {
        let Some(text) = self.value(b"tag") else {
            return Ok(Vec::new(alloc));
        };
        let Some(tags) = NameKind::Token.names_of(alloc, text)? else {
            return Err(self.wrong());
        };
        if !are_distinct(&tags) {
            return Err(self.wrong());
        }
        Ok(tags)
    }
}

/// Whether no name comes twice.
fn are_distinct(names: &[Name]) -> bool
    ensures { result ≡ entries.are_distinct names.now }
{
    match names {
        [] => true,
        [name, others @ ..] => !is_one_of(others, name.as_slice()) && are_distinct(others),
    }
}

/// Whether these tags may be given to a source: only single code points have tags.
fn may_be_tagged(source: &Source, tags: &[Name]) -> bool
    ensures { result ≡ entries.may_be_tagged (records.source source.now) tags.now }
{
    tags.is_empty()
        || match source {
            Source::Sequence(points) => points.len() == 1,
            Source::Range(_) => true,
        }
}
