//! In which order the parts of a rule stand (RFC 7940, sections 6.3 and 6.4).
ghost use Rattle.std.specs.Prelude.{◌≡◌, ◌∷◌, map, IfOk};
ghost use Rattle.std.specs.List.{list_all};
ghost use Rattle.lgr_text.specs.Orders as orders;
ghost use Rattle.lgr_text.specs.Records as records;
ghost use Rattle.lgr_text.specs.declared.orders.Role.TheVariants.{Anchor, LookBehind};
ghost use Rattle.lgr_text.specs.inner.Reading.{Reads};

use crate::element::Element;
use crate::fault::ReadError;
use crate::records::PartTree;
use std::alloc::{AllocError, Global};

/// What a part of a rule is there.
#[derive(Clone, Copy, PartialEq, Eq)]
pub enum Role {
    /// It matches a part of a label.
    Matcher,
    /// The start of a label.
    Start,
    /// The end of a label.
    End,
    Anchor,
    LookBehind,
    LookAhead,
}

/// A part of a rule, and what it is there.
#[derive(Drop)]
pub struct Item {
    pub role: Role,
    pub part: PartTree,
}

/// Which parts may stand in which order.
#[derive(Clone, Copy, PartialEq, Eq)]
pub enum Order {
    /// What is in a rule: it is about a part of a label, or about the place for which the anchor stands.
    OfRule,
    /// What looks behind or ahead.
    OfLook,
    /// What is in a choice.
    OfChoice,
}

impl<'a> Element<'a> {
    /// What the parts in it say; more than two nest to the right.
    pub fn in_order(
        &self,
        alloc: Global,
        order: Order,
        mut items: Vec<Item>,
    ) -> Result<PartTree, ReadError>
        ensures { Reads records.part (orders.in_order order (map orders.item items.items)) result }
    {
        let roles = roles_of(alloc, &items)?;
        if !order.admits(&roles) {
            return Err(self.wrong());
        }
        let Some(last) = items.pop() else {
            return Err(self.wrong());
        };
        let mut part = last.part;
        while let Some(item) = items.pop() {
            part = order.together(alloc, item.part, part)?;
        }
        Ok(part)
    }
}

fn roles_of(alloc: Global, items: &[Item]) -> Result<Vec<Role>, AllocError>
    ensures { IfOk result (λ roles. roles.items ≡ map (λ i. i.role) (map orders.item items.now)) }
{
    let mut roles = Vec::new(alloc);
    for item in items {
        roles.push(item.role)?;
    }
    Ok(roles)
}

impl Order {
    /// Whether parts may stand so.
    fn admits(self, roles: &[Role]) -> bool
        ensures { result ≡ orders.admits self roles.now }
    {
        match self {
            Order::OfRule => are_operators(roles) || are_about_place(roles),
            Order::OfLook => are_operators(roles),
            Order::OfChoice => roles.len() >= 2 && are_alternatives(roles),
        }
    }

    /// Two parts as one.
    fn together(
        self,
        alloc: Global,
        first: PartTree,
        second: PartTree,
    ) -> Result<PartTree, AllocError>
        ensures { IfOk result (λ p. records.part p ≡
            orders.together self (records.part first) (records.part second)) }
    {
        let (first, second) = (Box::new(alloc, first)?, Box::new(alloc, second)?);
        Ok(match self {
            Order::OfRule | Order::OfLook => PartTree::Then(first, second),
            Order::OfChoice => PartTree::Choice(first, second),
        })
    }
}

/// Whether these match one after the other; the first may be the start of a label, and the last its end.
fn are_operators(roles: &[Role]) -> bool
    ensures { result ≡ orders.are_operators roles.now }
{
    match roles {
        [] => false,
        [first, others @ ..] => match first {
            Role::Start => are_up_to_end(others),
            Role::Matcher | Role::End | Role::Anchor | Role::LookBehind | Role::LookAhead => {
                are_up_to_end(roles)
            }
        },
    }
}

/// Whether these match one after the other; the last may be the end of a label.
fn are_up_to_end(roles: &[Role]) -> bool
    ensures { result ≡ orders.are_up_to_end roles.now }
{
    match roles {
        [] => true,
        [first, others @ ..] => match first {
            Role::Matcher => are_up_to_end(others),
            Role::End => others.is_empty(),
            Role::Start | Role::Anchor | Role::LookBehind | Role::LookAhead => false,
        },
    }
}

/// Whether these are the anchor, and what looks behind or ahead of it.
fn are_about_place(roles: &[Role]) -> bool
    ensures { result ≡ orders.are_about_place roles.now }
{
    match roles {
        [] => false,
        [first, others @ ..] => match first {
            Role::LookBehind => is_anchor_next(others),
            Role::Anchor => is_look_ahead_at_most(others),
            Role::Matcher | Role::Start | Role::End | Role::LookAhead => false,
        },
    }
}

/// Whether these may follow what looks behind.
fn is_anchor_next(roles: &[Role]) -> bool
    ensures { result ≡ orders.are_about_place (LookBehind ∷ roles.now) }
{
    match roles {
        [] => false,
        [first, others @ ..] => match first {
            Role::Anchor => is_look_ahead_at_most(others),
            Role::Matcher | Role::Start | Role::End | Role::LookBehind | Role::LookAhead => false,
        },
    }
}

/// Whether these may follow the anchor.
fn is_look_ahead_at_most(roles: &[Role]) -> bool
    ensures alone { result ≡ orders.are_about_place (Anchor ∷ roles.now) }
    ensures behind { result ≡ orders.are_about_place (LookBehind ∷ Anchor ∷ roles.now) }
{
    match roles {
        [] => true,
        [first, others @ ..] => match first {
            Role::LookAhead => others.is_empty(),
            Role::Matcher | Role::Start | Role::End | Role::Anchor | Role::LookBehind => false,
        },
    }
}

/// Whether each of these may be chosen.
fn are_alternatives(roles: &[Role]) -> bool
    ensures { result ≡ list_all orders.is_alternative roles.now }
{
    roles.iter().all(|role| role.is_alternative())
}

impl Role {
    fn is_alternative(self) -> bool
        ensures { result ≡ orders.is_alternative self }
    {
        match self {
            Role::Matcher | Role::Start | Role::End => true,
            Role::Anchor | Role::LookBehind | Role::LookAhead => false,
        }
    }
}
