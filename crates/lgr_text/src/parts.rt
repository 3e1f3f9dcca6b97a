//! Rules and their parts (RFC 7940, sections 6.3 and 6.4).
ghost use Rattle.std.specs.Prelude.{◌≡◌, codes, map};
ghost use Rattle.lgr_text.specs.Attributes as terms;
ghost use Rattle.lgr_text.specs.Elements.{Content, each_element, if_plain};
ghost use Rattle.lgr_text.specs.Orders as orders;
ghost use Rattle.lgr_text.specs.Parts as parts;
ghost use Rattle.lgr_text.specs.Records as records;
ghost use Rattle.lgr_text.specs.inner.Reading.{AreOf, Reads, node};

use crate::classes::{ClassPlace, read_class};
use crate::element::{Element, Elements};
use crate::fault::ReadError;
use crate::names::NameKind;
use crate::orders::{Item, Order};
use crate::records::PartTree;
use crate::rule_elements::{PlainElement, RuleElement};
use crate::values::count_of;
use std::alloc::Global;

/// The rule that an element directly below `rules` says, of at most so many levels of elements in it.
pub fn read_rule(alloc: Global, element: &Element<'_>, levels: usize) -> Result<PartTree, ReadError>
    ensures { (c : Content) → AreOf element.now.within c →
        Reads records.part (parts.rule_of levels (node element.now c)) result }
{
    element.check(b"name comment ref")?;
    let items = read_items(alloc, element.within, levels)?;
    element.in_order(alloc, Order::OfRule, items)
}

/// The parts that elements say.
#[cycle(parts)]
fn read_items(alloc: Global, elements: Elements<'_>, levels: usize) -> Result<Vec<Item>, ReadError>
    ensures { (c : Content) → AreOf elements.entry c →
        Reads (λ v. map orders.item v.items) (each_element (parts.item_of levels) c) result }
{
    let mut items = Vec::new(alloc);
    let mut elements = elements;
    while let Some(element) = elements.next()? {
        items.push(read_item(alloc, &element, levels)?)?;
    }
    Ok(items)
}

/// The part that an element says, with its count.
#[cycle(parts)]
fn read_item(alloc: Global, element: &Element<'_>, levels: usize) -> Result<Item, ReadError>
    ensures { (c : Content) → AreOf element.now.within c →
        Reads orders.item (parts.item_of levels (node element.now c)) result }
{
    let part = read_part(alloc, element, levels)?;
    Ok(Item {
        role: RuleElement::of(element).role(),
        part: element.counted(alloc, part)?,
    })
}

/// The part that an element says, without its count.
#[cycle(parts)]
fn read_part(alloc: Global, element: &Element<'_>, levels: usize) -> Result<PartTree, ReadError>
    ensures { (c : Content) → AreOf element.now.within c →
        Reads records.part (parts.part_of levels (node element.now c)) result }
{
    if levels == 0 {
        return Err(element.wrong());
    }
    match RuleElement::of(element) {
        RuleElement::ClassOrSet => {
            let class = read_class(alloc, element, levels, ClassPlace::InRule)?;
            Ok(PartTree::Of(class))
        }
        RuleElement::Plain(plain) => read_plain(alloc, element, plain),
        RuleElement::Holder(holder) => {
            element.check(holder.names())?;
            let items = read_items(alloc, element.within, levels - 1)?;
            element.in_order(alloc, holder.order(), items)
        }
    }
}

/// The part that an element says in which nothing stands.
fn read_plain(
    alloc: Global,
    element: &Element<'_>,
    plain: PlainElement,
) -> Result<PartTree, ReadError>
    ensures { (c : Content) → AreOf element.now.within c →
        Reads records.part (if_plain (parts.plain_names plain) (node element.now c)
        (parts.plain_part plain element.now.attributes.now)) result }
{
    element.check_plain(plain.names())?;
    element.plain_part(alloc, plain)
}

impl<'a> Element<'a> {
    /// The part that its attributes say.
    fn plain_part(&self, alloc: Global, plain: PlainElement) -> Result<PartTree, ReadError>
        ensures { Reads records.part (parts.plain_part plain self.now.attributes.now) result }
    {
        match plain {
            PlainElement::Char => Ok(PartTree::Literal(self.sequence(alloc)?)),
            PlainElement::Any => Ok(PartTree::Any),
            PlainElement::RuleByName => {
                let name = self.needed(b"by-ref")?;
                let rule = self.reference(alloc, NameKind::Identifier, name)?;
                Ok(PartTree::OfRule(rule))
            }
            PlainElement::Start => Ok(PartTree::Start),
            PlainElement::End => Ok(PartTree::End),
            PlainElement::Anchor => Ok(PartTree::Anchor),
        }
    }

    /// The part as often as its count says, or once.
    fn counted(&self, alloc: Global, part: PartTree) -> Result<PartTree, ReadError>
        ensures { Reads records.part (parts.counted (terms.value self.now.attributes.now (codes "count"))
            (records.part part)) result }
    {
        let Some(text) = self.value(b"count") else {
            return Ok(part);
        };
        match count_of(text) {
            Some(count) => Ok(PartTree::Times(count, Box::new(alloc, part)?)),
            None => Err(self.wrong()),
        }
    }
}
