//! The names of the elements that are open.
ghost use Rattle.std.specs.Prelude.{◌≡◌, ◌∷◌, [], List, ℕ, length, MatchOption, OnOk};
ghost use Rattle.xml_text.specs.inner.DocumentSteps.{has_none, names_with, without_first};

use crate::attribute::TagKind;
use std::alloc::{AllocError, Global};
use std::collections::VecDeque;
use std::marker::Model;

/// The names of the elements that are open, the innermost first.
#[derive(Drop)]
pub struct Names<'a> {
    names: VecDeque<&'a [u8]>,
}

impl<'a> Model for Names<'a> {
    ghost use Rattle.std.specs.Prelude.{List, ℕ, map};

    ghost Value = { List (List ℕ) };

    ghost view = { λ n. map (λ name. name.now) n.names.items };
}

impl<'a> Names<'a> {
    /// No element is open.
    pub fn new(alloc: Global) -> Self
        ensures { result ≡ [] }
    {
        Names {
            names: VecDeque::new(alloc),
        }
    }

    /// How many elements are open.
    pub fn len(&self) -> usize
        ensures { result ≡ length self.now }
    {
        self.names.len()
    }

    /// Whether none is open.
    pub fn is_empty(&self) -> bool
        ensures { result ≡ has_none self.now }
    {
        self.names.is_empty()
    }

    /// The name of the innermost element.
    pub fn innermost(&self) -> Option<&'a [u8]>
        ensures { MatchOption result (self.now ≡ []) (λ name. (outer : List (List ℕ)) × (self.now ≡ name.now ∷ outer)) }
    {
        match self.names.front() {
            Some(name) => Some(*name),
            None => None,
        }
    }

    /// Opens the element of a tag, unless it is empty.
    pub fn open(&mut self, kind: TagKind, name: &'a [u8]) -> Result<(), AllocError>
        ensures { OnOk result (self.new ≡ names_with name.now self.old kind) }
    {
        match kind {
            TagKind::Start => self.push(name),
            TagKind::Empty => Ok(()),
        }
    }

    /// Opens an element.
    fn push(&mut self, name: &'a [u8]) -> Result<(), AllocError>
        ensures { OnOk result (self.new ≡ name.now ∷ self.old) }
    {
        self.names.push_front(name)?;
        Ok(())
    }

    /// Closes the innermost element.
    pub fn pop(&mut self)
        ensures { self.new ≡ without_first self.old }
    {
        self.names.pop_front();
    }
}
