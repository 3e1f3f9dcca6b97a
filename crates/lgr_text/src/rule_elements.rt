//! The elements that stand in a rule (RFC 7940, sections 6.3 and 6.4).
ghost use Rattle.std.specs.Prelude.{◌≡◌, codes};
ghost use Rattle.lgr_text.specs.Attributes.{value};
ghost use Rattle.lgr_text.specs.Parts as parts;

use crate::element::Element;
use crate::orders::{Order, Role};

/// An element in a rule.
#[derive(Clone, Copy, PartialEq, Eq)]
pub enum RuleElement {
    /// A class or a set operator.
    ClassOrSet,
    Plain(PlainElement),
    Holder(HolderElement),
}

/// An element in which nothing stands.
#[derive(Clone, Copy, PartialEq, Eq)]
pub enum PlainElement {
    Char,
    Any,
    /// A rule that has a name elsewhere.
    RuleByName,
    Start,
    End,
    Anchor,
}

/// An element in which parts of a rule stand.
#[derive(Clone, Copy, PartialEq, Eq)]
pub enum HolderElement {
    Rule,
    Choice,
    LookBehind,
    LookAhead,
}

impl RuleElement {
    /// What an element in a rule is.
    pub fn of(element: &Element<'_>) -> Self
        ensures { result ≡ parts.rule_element element.now.name.now element.now.attributes.now }
    {
        if element.is_named(b"char") {
            return RuleElement::Plain(PlainElement::Char);
        }
        if element.is_named(b"any") {
            return RuleElement::Plain(PlainElement::Any);
        }
        if element.is_named(b"rule") {
            return RuleElement::of_rule(element);
        }
        if element.is_named(b"choice") {
            return RuleElement::Holder(HolderElement::Choice);
        }
        if element.is_named(b"start") {
            return RuleElement::Plain(PlainElement::Start);
        }
        if element.is_named(b"end") {
            return RuleElement::Plain(PlainElement::End);
        }
        if element.is_named(b"anchor") {
            return RuleElement::Plain(PlainElement::Anchor);
        }
        if element.is_named(b"look-behind") {
            return RuleElement::Holder(HolderElement::LookBehind);
        }
        if element.is_named(b"look-ahead") {
            return RuleElement::Holder(HolderElement::LookAhead);
        }
        RuleElement::ClassOrSet
    }

    /// A rule by the name of another, or by what is in it.
    fn of_rule(element: &Element<'_>) -> Self
        ensures { result ≡ parts.rule_by (value element.now.attributes.now (codes "by-ref")) }
    {
        match element.value(b"by-ref") {
            Some(_) => RuleElement::Plain(PlainElement::RuleByName),
            None => RuleElement::Holder(HolderElement::Rule),
        }
    }

    pub fn role(self) -> Role
        ensures { result ≡ parts.role_of self }
    {
        match self {
            RuleElement::ClassOrSet => Role::Matcher,
            RuleElement::Plain(plain) => plain.role(),
            RuleElement::Holder(holder) => holder.role(),
        }
    }
}

impl PlainElement {
    fn role(self) -> Role
        ensures { result ≡ parts.plain_role self }
    {
        match self {
            PlainElement::Char | PlainElement::Any | PlainElement::RuleByName => Role::Matcher,
            PlainElement::Start => Role::Start,
            PlainElement::End => Role::End,
            PlainElement::Anchor => Role::Anchor,
        }
    }

    /// Its attributes.
    pub fn names(self) -> &'static [u8]
        ensures { result.now ≡ parts.plain_names self }
    {
        match self {
            PlainElement::Char => b"cp count comment ref",
            PlainElement::Any => b"count comment ref",
            PlainElement::RuleByName => b"by-ref count comment ref",
            PlainElement::Start | PlainElement::End | PlainElement::Anchor => b"comment ref",
        }
    }
}

impl HolderElement {
    fn role(self) -> Role
        ensures { result ≡ parts.holder_role self }
    {
        match self {
            HolderElement::Rule | HolderElement::Choice => Role::Matcher,
            HolderElement::LookBehind => Role::LookBehind,
            HolderElement::LookAhead => Role::LookAhead,
        }
    }

    /// In which order parts stand in it.
    pub fn order(self) -> Order
        ensures { result ≡ parts.order_in self }
    {
        match self {
            HolderElement::Rule => Order::OfRule,
            HolderElement::Choice => Order::OfChoice,
            HolderElement::LookBehind | HolderElement::LookAhead => Order::OfLook,
        }
    }

    /// Its attributes.
    pub fn names(self) -> &'static [u8]
        ensures { result.now ≡ parts.holder_names self }
    {
        match self {
            HolderElement::Rule | HolderElement::Choice => b"count comment ref",
            HolderElement::LookBehind | HolderElement::LookAhead => b"comment ref",
        }
    }
}
