//! Decoding: a name is answered with U-labels in place of its A-labels.

ghost use Rattle.std.specs.Prelude.{◌≡◌, ◌≢◌, ◌≤◌, length, take, Err, IfOk};
ghost use Rattle.idn_label.specs.Answers.{Gives};
ghost use Rattle.idn_label.specs.Decode.{decode_answer};
ghost use Rattle.idn_label.specs.Steps.{in_utf8};
ghost use Rattle.idn2_answers.specs.Answers.{one_answer};
ghost use Rattle.idn2_cli.specs.Memory.{DecodesLineWithoutMemory};
ghost use Rattle.idn2_answers.specs.Said.{Decoded};
ghost use Rattle.idn2_cli.specs.inner.LineAnswers.{with_feed, decoded_answer};

use crate::modes::answering::{Answering, Kind, Served, answered, refused, reply};
use crate::modes::asked::Asked;
use crate::modes::buffers::{Buffers, MAX_ANSWER_LEN};
use idn_class::Properties;
use idn_label::{DecodedLabel, decode_utf8};
use idn_text::{MAX_LINE_LEN, Refusal, Sink};
use idn2_output::Console;
use std::alloc::Global;

/// Decoding (RFC 5891 section 5.3).
#[derive(Clone, Copy)]
pub(crate) struct Decode {
    pub properties: Properties,
}

impl Answering for Decode {
    ghost answer_of = { λ mode name. one_answer Decoded (in_utf8 (decode_answer mode.properties name)) };

    ghost needs_none = { λ _ name. DecodesLineWithoutMemory name };

    // Always inline: it is called once for each line.
    #[inline(always)]
    fn answer<W: Sink, E: Sink>(
        &self,
        alloc: Global,
        asked: &Asked<'_>,
        buffers: &mut Buffers,
        console: &mut Console<'_, '_, W, E>,
    ) -> Served {
        match fill_line(
            alloc,
            asked.text,
            &mut buffers.u_label,
            &mut buffers.answer,
            self.properties,
        ) {
            Ok(len) => {
                let line = &buffers.answer[..len];
                answered(reply(asked, Kind::Decoded, line, console))
            }
            Err(refusal) => refused(refusal),
        }
    }
}

/// Writes into `line` a name with U-labels in place of its A-labels and a line feed, and returns the length of that.
/// Where the name is refused, what is left says nothing. `u_label` is room for what an A-label stands for.
// Always inline: it is called once for each line.
#[inline(always)]
fn fill_line(
    alloc: Global,
    name: &[u8],
    u_label: &mut DecodedLabel,
    line: &mut [u8],
    properties: Properties,
) -> Result<usize, Refusal>
    requires short { length name.now ≤ MAX_LINE_LEN }
    requires room { length line.old ≡ MAX_ANSWER_LEN }
    ensures answer { Gives (λ len. take len line.new) result (with_feed (decoded_answer properties name.now)) }
    ensures short { IfOk result (λ len. len ≤ MAX_ANSWER_LEN) }
    ensures length { length line.new ≡ MAX_ANSWER_LEN }
    ensures no_memory { DecodesLineWithoutMemory name.now → result ≢ Err Refusal.Memory }
{
    if name.is_empty() {
        return Err(Refusal::Empty);
    }
    let len = decode_utf8(alloc, name, u_label, line, properties)?;
    line[len] = b'\n';
    Ok(len + 1)
}
