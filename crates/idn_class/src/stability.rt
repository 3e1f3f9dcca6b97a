//! Stability: whether normalization and case folding change a character (RFC 5892, section 2.2).
ghost use Rattle.std.specs.Prelude.{◌≡◌, IfOk};
ghost use Rattle.caseless.specs.Caseless.{default_case_fold};
ghost use Rattle.idn_class.specs.Class.{is_unstable};

use caseless::Caseless;
use std::alloc::{AllocError, Global};
use unicode_normalization::slice::extend_nfkc;

/// Whether normalization and case folding change a character (RFC 5892, section 2.2).
pub(crate) fn is_unstable(alloc: Global, c: char) -> Result<bool, AllocError>
    ensures { IfOk result (λ unstable. unstable ≡ is_unstable c) }
{
    let mut composed = Vec::new(alloc);
    extend_nfkc(&mut composed, &[c])?;
    let folded = fold(alloc, &composed)?;
    let mut again = Vec::new(alloc);
    extend_nfkc(&mut again, &folded)?;
    Ok(again.as_slice() != [c].as_slice())
}

/// The default case folding of a text.
fn fold(alloc: Global, text: &[char]) -> Result<Vec<char>, AllocError>
    ensures { IfOk result (λ folded. folded.items ≡ default_case_fold text.now) }
{
    // A code point folds to three at most. `collect` and `extend` take memory ahead of need, and go on where that is
    // refused.
    let mut folded = Vec::with_capacity(alloc, text.len().saturating_mul(3))?;
    folded.extend(text.iter().copied().default_case_fold())?;
    Ok(folded)
}
