//! Whether tokens are elements within elements, all with one prefix, and not too many in one.
ghost use Rattle.std.specs.Prelude.{◌≡◌, ◌≤◌, map};
ghost use Rattle.lgr_text.specs.Sizes as sizes;
ghost use Rattle.lgr_text.specs.Sizes.{exceeds, max_elements};
ghost use Rattle.lgr_text.specs.inner.Nesting as nesting;
ghost use Rattle.lgr_text.specs.inner.Nesting.{nests};
ghost use Rattle.lgr_text.specs.inner.Reading.{Checks, IsWithinLimit};

use crate::element::Elements;
use crate::fault::ReadError;
use xml_text::Said;

impl<'a> Elements<'a> {
    /// That the tokens are of elements with the prefix, each of which ends, and of texts.
    pub fn check_nesting(&self) -> Result<(), ReadError>
        ensures { Checks (nests self.now.prefix.now 0 (map (λ t. t.said) self.now.tokens.now)) result }
    {
        let mut open: usize = 0;
        for token in self.tokens {
            match token.said() {
                Said::Open(name, _) => {
                    if !has_prefix(name, self.prefix) {
                        return Err(ReadError::Wrong(token.line()));
                    }
                    open += 1;
                }
                Said::Text(_) => {}
                Said::Close => {
                    if open == 0 {
                        return Err(ReadError::Wrong(token.line()));
                    }
                    open -= 1;
                }
            }
        }
        if open == 0 {
            Ok(())
        } else {
            Err(ReadError::Wrong(1))
        }
    }
}

/// How many elements may stand in an entry, a class, a rule or an action. What they say may nest as deep, and a table
/// takes no rule of more than 4,096 atoms.
const MAX_ELEMENTS: usize = 8192;

impl<'a> Elements<'a> {
    /// That none of these has too many elements in it, where the tokens are those of a document.
    pub fn check_sizes(&self) -> Result<(), ReadError>
        ensures { IsWithinLimit (exceeds 0 0 (map (λ t. t.said) self.now.tokens.now)) result }
    {
        let mut open: usize = 0;
        let mut count: usize = 0;
        for token in self.tokens {
            match token.said() {
                Said::Open(_, _) => {
                    count = counted_with(open, count);
                    if count > MAX_ELEMENTS {
                        return Err(ReadError::Limit(token.line()));
                    }
                    open += 1;
                }
                Said::Text(_) => {}
                Said::Close => open = open.saturating_sub(1),
            }
        }
        Ok(())
    }
}

/// How many stand in it with one more, by how many are open around this one.
fn counted_with(around: usize, count: usize) -> usize
    requires { count ≤ max_elements }
    ensures { result ≡ sizes.counted_with around count }
{
    if around < 3 { 0 } else { count + 1 }
}

/// Whether a name begins with the prefix.
fn has_prefix(name: &[u8], prefix: &[u8]) -> bool
    ensures { result ≡ nesting.has_prefix prefix.now name.now }
{
    name.strip_prefix(prefix).is_some()
}
