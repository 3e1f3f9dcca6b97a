//! Passages of a text that are read part by part.
ghost use Rattle.std.specs.Prelude.{◌≡◌, ◌==◌, ◌≤◌, ◌++◌, [], length, take, IfOk, OnOk};

use bumpalo::Bump;
use std::alloc::{AllocError, Global};
use std::marker::Model;

/// What was read of a passage.
#[derive(Drop)]
pub struct Gathered<'a> {
    /// A copy of what was read before the last part, where they don't stand side by side.
    joined: Vec<u8>,
    /// A text that begins with the last part.
    text: &'a [u8],
    /// How many bytes of it that part has.
    len: usize,
}

impl<'a> Model for Gathered<'a> {
    ghost use Rattle.std.specs.Prelude.{List, ℕ, ◌++◌, take};

    ghost Value = { List ℕ };

    ghost view = { λ g. g.joined.items ++ take g.len g.text.now };
}

impl<'a> Gathered<'a> {
    /// Nothing was read.
    pub fn new(alloc: Global) -> Self
        ensures { result ≡ [] }
    {
        Gathered {
            joined: Vec::new(alloc),
            text: b"",
            len: 0,
        }
    }

    /// Forgets what was read.
    #[inline(always)]
    pub fn clear(&mut self)
        ensures { self.new ≡ [] }
    {
        self.joined.clear();
        self.len = 0;
    }

    /// The first bytes of a text were read, and nothing else.
    #[inline(always)]
    pub fn begin(&mut self, text: &'a [u8], len: usize)
        ensures { self.new ≡ take len text.now }
    {
        self.joined.clear();
        self.text = text;
        self.len = len;
    }

    /// Whether nothing was read.
    #[inline(always)]
    pub fn is_empty(&self) -> bool
        ensures { result ≡ (length self.now == 0) }
    {
        self.joined.is_empty() && front(self.text, self.len).is_empty()
    }

    /// Adds the first bytes of a text, which are borrowed if nothing was read or they stand after what was.
    #[inline(always)]
    pub fn add(&mut self, text: &'a [u8], len: usize) -> Result<(), AllocError>
        requires { len ≤ length text.now }
        ensures { OnOk result (self.new ≡ self.old ++ take len text.now) }
    {
        if self.len == 0 {
            self.text = text;
            self.len = len;
            return Ok(());
        }
        self.add_more(text, len)
    }

    /// Adds the first bytes of a text, which are borrowed if they stand after what was read.
    fn add_more(&mut self, text: &'a [u8], len: usize) -> Result<(), AllocError>
        requires { len ≤ length text.now }
        ensures { OnOk result (self.new ≡ self.old ++ take len text.now) }
    {
        let (part, _) = text.split_at(len);
        let (before, after) = self.text.split_at(self.len.min(self.text.len()));
        if front(after, len) == part {
            self.len = before.len() + len;
            return Ok(());
        }
        self.joined.extend_from_slice(before)?;
        self.text = text;
        self.len = len;
        Ok(())
    }

    /// Adds a copy of bytes.
    pub fn join(&mut self, bytes: &[u8]) -> Result<(), AllocError>
        ensures { OnOk result (self.new ≡ self.old ++ bytes.now) }
    {
        self.joined.extend_from_slice(front(self.text, self.len))?;
        self.len = 0;
        self.joined.extend_from_slice(bytes)
    }

    /// What was read, which is copied into the arena unless it stands in a text as it is.
    #[inline(always)]
    pub fn whole(&mut self, arena: &'a Bump) -> Result<&'a [u8], AllocError>
        ensures whole { IfOk result (λ read. read.now ≡ self.old) }
        ensures same { OnOk result (self.new ≡ self.old) }
    {
        if self.joined.is_empty() {
            return Ok(front(self.text, self.len));
        }
        self.copied(arena)
    }

    /// What was read, copied into the arena.
    fn copied(&mut self, arena: &'a Bump) -> Result<&'a [u8], AllocError>
        ensures copy { IfOk result (λ read. read.now ≡ self.old) }
        ensures same { OnOk result (self.new ≡ self.old) }
    {
        self.joined.extend_from_slice(front(self.text, self.len))?;
        let copy = arena.try_alloc_slice_copy(&self.joined)?;
        self.begin(copy, copy.len());
        Ok(copy)
    }

    /// The passage, which is complete. Nothing was read of the next one.
    #[inline(always)]
    pub fn finish(&mut self, arena: &'a Bump) -> Result<&'a [u8], AllocError>
        ensures passage { IfOk result (λ read. read.now ≡ self.old) }
        ensures new { OnOk result (self.new ≡ []) }
    {
        let passage = self.whole(arena)?;
        self.clear();
        Ok(passage)
    }
}

/// The first bytes of a text, or all of it if it has fewer.
#[inline(always)]
fn front(text: &[u8], len: usize) -> &[u8]
    ensures { result.now ≡ take len text.now }
{
    match text.get(..len) {
        Some(bytes) => bytes,
        None => text,
    }
}
