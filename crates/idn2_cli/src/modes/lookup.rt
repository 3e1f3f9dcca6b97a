//! Lookup: a name is answered by the name that a query has.

ghost use Rattle.std.specs.Prelude.{◌≡◌, ◌≢◌, ◌≤◌, length, take, Err, IfOk};
ghost use Rattle.idn_label.specs.Answers.{Gives};
ghost use Rattle.idn_label.specs.Lookup.{lookup_answer};
ghost use Rattle.idn_label.specs.Memory.{LooksUpWithoutMemory};
ghost use Rattle.idn2_answers.specs.Answers.{one_answer};
ghost use Rattle.idn2_answers.specs.Said.{LookedUp};
ghost use Rattle.idn2_cli.specs.inner.LineAnswers.{with_feed, query_answer};

use crate::modes::answering::{Answering, Kind, Served, answered, refused, reply};
use crate::modes::asked::Asked;
use crate::modes::buffers::Buffers;
use idn_label::{LookupBuffers, lookup_utf8};
use idn_text::{Refusal, Sink};
use idn2_output::Console;
use std::alloc::Global;

/// Lookup (UTS 46 section 4.2).
#[derive(Clone, Copy)]
pub(crate) struct Lookup {
    /// Whether ASCII code points other than letters, digits and hyphens are refused.
    pub std3: bool,
}

impl Answering for Lookup {
    ghost answer_of = { λ mode name. one_answer LookedUp (lookup_answer name mode.std3) };

    ghost needs_none = { λ mode name. LooksUpWithoutMemory mode.std3 name };

    fn answer<W: Sink, E: Sink>(
        &self,
        alloc: Global,
        asked: &Asked<'_>,
        buffers: &mut Buffers,
        console: &mut Console<'_, '_, W, E>,
    ) -> Served {
        match fill_line(
            alloc,
            asked.text,
            self.std3,
            &mut buffers.lookup,
            &mut buffers.answer_line,
        ) {
            Ok(len) => {
                let line = &buffers.answer_line[..len];
                answered(reply(asked, Kind::LookedUp, line, console))
            }
            Err(refusal) => refused(refusal),
        }
    }
}

/// Writes into `line` what a name is in a query and a line feed, and returns the length of that. Where the name is
/// refused, what is left says nothing.
fn fill_line(
    alloc: Global,
    name: &[u8],
    std3: bool,
    buffers: &mut LookupBuffers,
    line: &mut [u8],
) -> Result<usize, Refusal>
    requires { length line.old ≡ 255 }
    ensures answer { Gives (λ len. take len line.new) result (with_feed (query_answer name.now std3)) }
    ensures short { IfOk result (λ len. len ≤ 255) }
    ensures no_memory { LooksUpWithoutMemory std3 name.now → result ≢ Err Refusal.Memory }
    ensures length { length line.new ≡ 255 }
{
    if name.is_empty() {
        return Err(Refusal::Empty);
    }
    let len = lookup_utf8(alloc, name, std3, buffers, line)?;
    line[len] = b'\n';
    Ok(len + 1)
}
