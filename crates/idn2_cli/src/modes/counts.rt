//! How much of a block is listed, how much more may be, and which of its lines is the next.

ghost use Rattle.std.specs.Prelude.{◌≡◌, ℕ, List, IfOk, IsOk};
ghost use Rattle.idn2_cli.specs.inner.Blocks.{disposition_by};
ghost use Rattle.idn2_cli.specs.inner.LineAnswers.{reaches};
ghost use Rattle.idn2_cli.specs.inner.Progress.{GoesOnWithoutMemory, GoesTo, IsUnderWay, first_counts, progress_of};

use crate::modes::variant_judge::VariantJudge;
use idn2_options::Options;
use std::alloc::{AllocError, Global};
use variant_list::{Cursor, Outcome};

/// A line of a block.
#[derive(Clone, Copy)]
pub(crate) enum Line {
    /// That of the variant at which the cursor stands.
    Variant,
    /// The trailer of a block that stops at the label at which the cursor stands.
    Stop,
    /// The trailer of a block whose listing has ended.
    End,
}

/// How much of a block is listed, and how much more may be.
#[derive(Clone, Copy)]
pub(crate) struct Counts {
    /// How many variants may be listed, if that is bounded.
    limit: Option<u64>,
    /// How many more labels may be tested.
    tries: u64,
    /// How many more steps may be taken, if that is bounded.
    steps: Option<u64>,
    /// How many variants are listed so far.
    pub count: u64,
}

impl Counts {
    /// Nothing is listed yet.
    pub(crate) fn new(options: &Options) -> Counts
        ensures { result ≡ first_counts options.now }
    {
        Counts {
            limit: options.limit,
            tries: options.tries,
            steps: options.steps,
            count: 0,
        }
    }

    /// Goes on to the next line. It isn't called again after the last one, or after an error.
    ///
    /// Always inline: it has one call, in the loop over a block's lines.
    #[inline(always)]
    pub(crate) fn advance(
        &mut self,
        alloc: Global,
        cursor: &mut Cursor<'_>,
        judge: &mut VariantJudge<'_, '_>,
    ) -> Result<Line, AllocError>
        requires under_way { IsUnderWay (progress_of cursor.old judge.old self.old) }
        ensures goes { IfOk result (λ line.
            GoesTo line (progress_of cursor.old judge.old self.old) (progress_of cursor.new judge.new self.new)) }
        ensures no_memory { GoesOnWithoutMemory (progress_of cursor.old judge.old self.old) → IsOk result }
        ensures same_dispositions { (v : List ℕ) →
            disposition_by judge.new.dispositions v ≡ disposition_by judge.old.dispositions v }
    {
        if is_reached(self.limit, self.count) {
            return Ok(Line::Stop);
        }
        match cursor.seek(alloc, judge, &mut self.tries, &mut self.steps)? {
            Outcome::Found => {
                self.count += 1;
                Ok(Line::Variant)
            }
            Outcome::OutOfTries | Outcome::OutOfSteps => Ok(Line::Stop),
            Outcome::Ended => Ok(Line::End),
        }
    }
}

/// Whether so many variants are as many as may be listed.
pub(crate) fn is_reached(limit: Option<u64>, count: u64) -> bool
    ensures { result ≡ reaches limit count }
{
    match limit {
        Some(limit) => limit == count,
        None => false,
    }
}
