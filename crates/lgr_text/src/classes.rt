//! Classes and set operators (RFC 7940, section 6.2).
ghost use Rattle.std.specs.Prelude.{◌≡◌, map, option_copied, option_map};
ghost use Rattle.lgr_text.specs.Attributes as terms;
ghost use Rattle.lgr_text.specs.Classes as classes;
ghost use Rattle.lgr_text.specs.Elements.{Content, each_element};
ghost use Rattle.lgr_text.specs.Records as records;
ghost use Rattle.lgr_text.specs.Values as values;
ghost use Rattle.lgr_text.specs.declared.classes.ClassPlace.TheVariants.{InSet as IsInSet};
ghost use Rattle.lgr_text.specs.declared.names.NameKind.TheVariants.{Identifier};
ghost use Rattle.lgr_text.specs.inner.Reading.{AreOf, Reads, node};

use crate::element::{Element, Elements, is_blank_text};
use crate::fault::ReadError;
use crate::joins::SetOperation;
use crate::names::NameKind;
use crate::records::ClassTree;
use crate::values::spans_of;
use std::alloc::Global;

/// A class, or a set operator.
#[derive(Clone, Copy, PartialEq, Eq)]
pub enum ClassElement {
    Class,
    /// It makes one set of others.
    Joined(SetOperation),
    Complement,
}

/// Where a class stands.
#[derive(Clone, Copy, PartialEq, Eq)]
pub enum ClassPlace {
    /// Directly below `rules`, where it has a name.
    OfRules,
    /// In a rule, where it may have a count.
    InRule,
    /// In a set operator.
    InSet,
}

/// The class that an element says, of at most so many levels of elements.
#[cycle(classes)]
pub fn read_class(
    alloc: Global,
    element: &Element<'_>,
    levels: usize,
    place: ClassPlace,
) -> Result<ClassTree, ReadError>
    ensures { (c : Content) → AreOf element.now.within c →
        Reads records.class (classes.class_of levels place (node element.now c)) result }
{
    if levels == 0 {
        return Err(element.wrong());
    }
    match ClassElement::of(element) {
        None => Err(element.wrong()),
        Some(ClassElement::Class) => simple_class(alloc, element, place),
        Some(ClassElement::Joined(operation)) => {
            let sets = sets_in(alloc, element, levels - 1, place)?;
            element.joined(alloc, operation, sets)
        }
        Some(ClassElement::Complement) => {
            let sets = sets_in(alloc, element, levels - 1, place)?;
            element.complement(alloc, sets)
        }
    }
}

/// The sets in a set operator.
#[cycle(classes)]
fn sets_in(
    alloc: Global,
    element: &Element<'_>,
    levels: usize,
    place: ClassPlace,
) -> Result<Vec<ClassTree>, ReadError>
    ensures { (c : Content) → AreOf element.now.within c →
        Reads (λ v. map records.class v.items) (classes.sets_in (each_element (classes.class_of levels IsInSet)) place
        (node element.now c)) result }
{
    element.check(place.set_names())?;
    read_sets(alloc, element.within, levels)
}

/// The sets that elements say.
#[cycle(classes)]
fn read_sets(
    alloc: Global,
    elements: Elements<'_>,
    levels: usize,
) -> Result<Vec<ClassTree>, ReadError>
    ensures { (c : Content) → AreOf elements.entry c →
        Reads (λ v. map records.class v.items) (each_element (classes.class_of levels IsInSet) c) result }
{
    let mut sets = Vec::new(alloc);
    let mut elements = elements;
    while let Some(element) = elements.next()? {
        sets.push(read_class(alloc, &element, levels, ClassPlace::InSet)?)?;
    }
    Ok(sets)
}

/// The class of a `class`, by the name of another or by itself.
fn simple_class(
    alloc: Global,
    element: &Element<'_>,
    place: ClassPlace,
) -> Result<ClassTree, ReadError>
    ensures { (c : Content) → AreOf element.now.within c →
        Reads records.class (classes.simple_class place (node element.now c)
        (classes.referring place element.now.attributes.now)) result }
{
    match place.referring(element) {
        Some(name) => {
            element.check_plain(place.reference_names())?;
            element.class_named(alloc, name)
        }
        None => {
            element.check(place.class_names())?;
            let text = element.text()?;
            element.class_in(alloc, text)
        }
    }
}

impl<'a> Element<'a> {
    /// The class of this name.
    fn class_named(&self, alloc: Global, name: &[u8]) -> Result<ClassTree, ReadError>
        ensures { Reads records.class (option_map records.OfClass (values.name_of Identifier name.now)) result }
    {
        let class = self.reference(alloc, NameKind::Identifier, name)?;
        Ok(ClassTree::OfClass(class))
    }

    /// The class of a tag, of a property or of code points.
    fn class_in(&self, alloc: Global, text: &[u8]) -> Result<ClassTree, ReadError>
        ensures { Reads records.class (classes.class_in self.now.attributes.now text.now) result }
    {
        match (self.value(b"from-tag"), self.value(b"property")) {
            (None, None) => match spans_of(alloc, text)? {
                Some(spans) => Ok(ClassTree::Listed(spans)),
                None => Err(self.wrong()),
            },
            (Some(tag), None) if is_blank_text(text) => {
                Ok(ClassTree::OfTag(self.reference(alloc, NameKind::Token, tag)?))
            }
            (None, Some(property)) if is_blank_text(text) => {
                Ok(ClassTree::OfProperty(self.reference(alloc, NameKind::Token, property)?))
            }
            _ => Err(self.wrong()),
        }
    }

    /// What an operation makes of sets; more than two nest to the right.
    fn joined(
        &self,
        alloc: Global,
        operation: SetOperation,
        mut sets: Vec<ClassTree>,
    ) -> Result<ClassTree, ReadError>
        ensures { Reads records.class (classes.joined operation (map records.class sets.items)) result }
    {
        if !operation.takes(sets.len()) {
            return Err(self.wrong());
        }
        let Some(mut class) = sets.pop() else {
            return Err(self.wrong());
        };
        while let Some(set) = sets.pop() {
            class = ClassTree::Joined(operation, Box::new(alloc, set)?, Box::new(alloc, class)?);
        }
        Ok(class)
    }

    /// What isn't in the one set.
    fn complement(&self, alloc: Global, mut sets: Vec<ClassTree>) -> Result<ClassTree, ReadError>
        ensures { Reads records.class (classes.complement (map records.class sets.items)) result }
    {
        match sets.pop() {
            Some(set) if sets.is_empty() => Ok(ClassTree::Complement(Box::new(alloc, set)?)),
            _ => Err(self.wrong()),
        }
    }
}

impl ClassElement {
    /// The class or the set operator that an element is.
    fn of(element: &Element<'_>) -> Option<Self>
        ensures { result ≡ classes.class_element element.now.name.now }
    {
        if element.is_named(b"class") {
            return Some(ClassElement::Class);
        }
        if element.is_named(b"union") {
            return Some(ClassElement::Joined(SetOperation::Union));
        }
        if element.is_named(b"intersection") {
            return Some(ClassElement::Joined(SetOperation::Intersection));
        }
        if element.is_named(b"difference") {
            return Some(ClassElement::Joined(SetOperation::Difference));
        }
        if element.is_named(b"symmetric-difference") {
            return Some(ClassElement::Joined(SetOperation::SymmetricDifference));
        }
        if element.is_named(b"complement") {
            return Some(ClassElement::Complement);
        }
        None
    }
}

impl ClassPlace {
    /// The name of the class that a class refers to.
    fn referring<'a>(self, element: &Element<'a>) -> Option<&'a [u8]>
        ensures { option_copied result ≡ classes.referring self element.now.attributes.now }
    {
        match self {
            ClassPlace::OfRules => None,
            ClassPlace::InRule | ClassPlace::InSet => element.value(b"by-ref"),
        }
    }

    /// The attributes of a class that says by itself what it is.
    fn class_names(self) -> &'static [u8]
        ensures { result.now ≡ classes.class_names self }
    {
        match self {
            ClassPlace::OfRules => b"name from-tag property comment ref",
            ClassPlace::InRule => b"count from-tag property comment ref",
            ClassPlace::InSet => b"from-tag property comment ref",
        }
    }

    /// The attributes of a class that refers to another.
    fn reference_names(self) -> &'static [u8]
        ensures { result.now ≡ classes.reference_names self }
    {
        match self {
            ClassPlace::InRule => b"by-ref count comment",
            ClassPlace::OfRules | ClassPlace::InSet => b"by-ref comment",
        }
    }

    /// The attributes of a set operator.
    fn set_names(self) -> &'static [u8]
        ensures { result.now ≡ classes.set_names self }
    {
        match self {
            ClassPlace::OfRules => b"name comment ref",
            ClassPlace::InRule => b"count comment ref",
            ClassPlace::InSet => b"comment ref",
        }
    }
}

impl SetOperation {
    /// Whether it is of so many sets.
    fn takes(self, count: usize) -> bool
        ensures { result ≡ classes.takes self count }
    {
        match self {
            SetOperation::Union => count >= 2,
            SetOperation::Intersection
            | SetOperation::Difference
            | SetOperation::SymmetricDifference => count == 2,
        }
    }
}
