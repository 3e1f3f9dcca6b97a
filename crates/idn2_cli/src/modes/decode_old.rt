//! The labels of a zone: each is answered by its line in a file of registered labels.

ghost use Rattle.std.specs.Prelude.{◌≡◌, ◌≤◌, ◌∷◌, ◌++◌, [], chars, length, IfErr};
ghost use Rattle.answer_json.specs.Answers.{line_of};
ghost use Rattle.idn_label.specs.Memory.{StandsWithoutMemory};
ghost use Rattle.idn_label.specs.OldNames.{zone_answer, zone_in_utf8};
ghost use Rattle.idn2_answers.specs.Answers.{zone_line, zone_said};
ghost use Rattle.idn2_answers.specs.Said.{said_line};
ghost use Rattle.idn2_output.specs.OutputLines.{Output};
ghost use Rattle.idn2_output.specs.Writing.{Emits};
ghost use Rattle.idn2_cli.specs.inner.Asked.{object_to, said_to};
ghost use Rattle.idn2_output.specs.declared.stop.Stop.TheVariants as stop;

use crate::modes::answering::{Answering, Served, answered, refused};
use crate::modes::asked::Asked;
use crate::modes::buffers::Buffers;
use answer_json::Input;
use arrayvec::ArrayVec;
use idn_class::Properties;
use idn_label::{MARK, MAX_U_LABEL_LEN, Standing, zone_label_utf8};
use idn_text::{Refusal, Sink};
use idn2_options::Form;
use idn2_output::{Console, Object, Stop, append};
use std::alloc::Global;

/// What the names of a zone stand for, also labels that may not be registered any more.
#[derive(Clone, Copy)]
pub(crate) struct DecodeOld {
    pub properties: Properties,
}

impl Answering for DecodeOld {
    ghost answer_of = { λ mode label. zone_line (zone_in_utf8 (zone_answer mode.properties label)) };

    ghost needs_none = { λ _ line. StandsWithoutMemory (chars line) };

    fn answer<W: Sink, E: Sink>(
        &self,
        alloc: Global,
        asked: &Asked<'_>,
        buffers: &mut Buffers,
        console: &mut Console<'_, '_, W, E>,
    ) -> Served {
        if asked.text.is_empty() {
            return refused(Refusal::Empty);
        }
        let found = zone_label_utf8(
            alloc,
            asked.text,
            &mut buffers.label,
            &mut buffers.u_label,
            &mut buffers.answer,
            self.properties,
        );
        match found {
            Ok((len, standing)) => {
                let label = &buffers.answer[..len];
                answered(reply_label(asked, label, standing, console))
            }
            Err(refusal) => refused(refusal),
        }
    }
}

/// Answers a line by a label of at most 252 octets, and by how it stands. It takes no memory.
fn reply_label<W: Sink, E: Sink>(
    asked: &Asked<'_>,
    label: &[u8],
    standing: Standing,
    console: &mut Console<'_, '_, W, E>,
) -> Result<(), Stop>
    requires short { length label.now ≤ MAX_U_LABEL_LEN }
    ensures written { Emits console.old console.new
        (said_to asked.now (zone_said standing label.now) ∷ []) result }
    ensures why { IfErr result (λ why. why ≡ stop.Output) }
{
    match asked.form {
        Form::Plain => console.output(registered_line(label, standing).as_slice()),
        Form::Json => reply_object(*asked, label, standing, console),
    }
}

/// The line of a label of at most 252 octets in a file of registered labels: an old one has a mark.
fn registered_line(label: &[u8], standing: Standing) -> ArrayVec<u8, 264>
    requires short { length label.now ≤ MAX_U_LABEL_LEN }
    ensures { result.items ≡ said_line (zone_said standing label.now) ++ 10 ∷ [] }
{
    let mut line = ArrayVec::new();
    append(&mut line, label);
    match standing {
        Standing::Registrable => {}
        Standing::Old => append(&mut line, MARK),
    }
    append(&mut line, b"\n");
    line
}

/// Answers a line by the object of a label of at most 252 octets, and of how it stands.
///
/// Not inlined: a line that is answered by a text needs no stack space for an object.
#[inline(never)]
fn reply_object<W: Sink, E: Sink>(
    asked: Asked<'_>,
    label: &[u8],
    standing: Standing,
    console: &mut Console<'_, '_, W, E>,
) -> Result<(), Stop>
    requires short { length label.now ≤ MAX_U_LABEL_LEN }
    ensures written { Emits console.old console.new
        (Output (line_of (object_to asked.entry (zone_said standing label.now))) ∷ []) result }
    ensures why { IfErr result (λ why. why ≡ stop.Output) }
{
    let input = Input::of(asked.text);
    match standing {
        Standing::Registrable => console.object(&Object::Decoded(asked.number, input, label)),
        Standing::Old => console.object(&Object::OldLabel(asked.number, input, label)),
    }
}
