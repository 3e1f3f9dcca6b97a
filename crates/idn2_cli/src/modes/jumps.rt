//! The least label from a text on that may collide with a label, and what each of the two is to the other. A database
//! that has its labels in byte order finds by it which of them collide with a label.

ghost use Rattle.std.specs.Prelude.{◌≡◌, ◌≤◌, ◌∷◌, [], true, length, IfErr, Err};
ghost use Rattle.std.specs.Prelude.{None, Some};
ghost use Rattle.idn_text.specs.Points.{AreScalarValues};
ghost use Rattle.idn_label.specs.FirstFault.{IsRegistrable};
ghost use Rattle.valid_labels.specs.Validity.{IsAdmitted, IsSound};
ghost use Rattle.idn2_answers.specs.Answers.{jump_answer, least_near};
ghost use Rattle.idn2_answers.specs.Said.{Least};
ghost use Rattle.idn2_refusals.specs.Requests.{requested_label};
ghost use Rattle.idn2_output.specs.Writing.{Emits};
ghost use Rattle.idn2_cli.specs.Memory.{IsRefusedWithoutMemory};
ghost use Rattle.idn2_cli.specs.inner.Asked.{reply_to, said_to};
ghost use Rattle.idn2_cli.specs.inner.LineAnswers.{KeepsIfRefused, request_answer};
ghost use Rattle.idn2_cli.specs.inner.Searches.{IsReady, IsNearOf};
ghost use Rattle.idn2_cli.specs.inner.ServedLines.{IsServedAs, result_of};
ghost use Rattle.idn2_cli.specs.declared.modes.answering.Served.TheVariants as served;
ghost use Rattle.idn2_output.specs.declared.stop.Stop.TheVariants as stop;

use crate::modes::answering::{Served, answered, refused};
use crate::modes::asked::Asked;
use crate::modes::cached_line::CachedLine;
use crate::modes::code_points::PointAnswering;
use crate::modes::collisions::columns_of;
use crate::modes::search::{Near, Search};
use answer_json::{Input, Regards};
use idn_class::Properties;
use idn_label::check_registrable;
use idn_text::Sink;
use idn2_options::Form;
use idn2_output::{Console, Object, Stop};
use idn2_refusals::{label_of_request, parts_of};
use std::alloc::Global;
use variant_list::Cursor;

/// Answers requests by a table: each is a label, or a label, a tab and a text.
#[derive(Drop)]
pub(crate) struct Jumps<'t> {
    pub search: &'t Search<'t>,
    pub properties: Properties,
}

impl<'t> PointAnswering for Jumps<'t> {
    ghost answer_of = { λ mode line. jump_answer mode.properties mode.search.now.table.now line };

    ghost is_ready = { λ mode. IsReady mode.search.now };

    ghost needs_none = { λ mode line. IsRefusedWithoutMemory mode.properties (requested_label line) };

    fn answer_points<W: Sink, E: Sink>(
        &self,
        alloc: Global,
        asked: &Asked<'_>,
        points: &[u32],
        console: &mut Console<'_, '_, W, E>,
    ) -> Served {
        match check_registrable(alloc, label_of_request(points), self.properties) {
            Ok(()) => answer_least(alloc, self, asked, points, console),
            Err(refusal) => refused(refusal),
        }
    }
}

/// Answers a request whose label may be registered, by the least label from the text on that is near it.
fn answer_least<W: Sink, E: Sink>(
    alloc: Global,
    mode: &Jumps<'_>,
    asked: &Asked<'_>,
    points: &[u32],
    console: &mut Console<'_, '_, W, E>,
) -> Served
    requires ready { IsReady mode.now.search.now }
    requires scalar_values { AreScalarValues points.now }
    requires registrable { IsRegistrable mode.now.properties (requested_label points.now) }
    ensures written { Emits console.old console.new (reply_to asked.now
        (request_answer mode.now.properties mode.now.search.now.table.now points.now)) (result_of result) }
    ensures refused { IsServedAs
        (request_answer mode.now.properties mode.now.search.now.table.now points.now) result }
    ensures kept { KeepsIfRefused console.old console.new (result_of result) }
    ensures begun { result ≡ served.Stopped stop.Memory → console.new ≡ console.old }
{
    let (label, text) = parts_of(points);
    match mode.search.near(alloc, label) {
        Ok(near) => answered(write_least(alloc, mode, asked, near, text, console)),
        Err(refusal) => refused(refusal),
    }
}

/// Answers by the least near label that is no less than a text, or by none.
fn write_least<W: Sink, E: Sink>(
    alloc: Global,
    mode: &Jumps<'_>,
    asked: &Asked<'_>,
    near: Near<'_>,
    text: &[u32],
    console: &mut Console<'_, '_, W, E>,
) -> Result<(), Stop>
    requires near { IsNearOf near.decisions.table.now near.decisions.label.now near }
    requires sound { IsSound near.decisions.table.now }
    requires registrable { IsRegistrable mode.now.properties near.decisions.label.now }
    requires admitted { IsAdmitted near.decisions.table.now near.decisions.label.now }
    ensures begun { result ≡ Err stop.Memory → console.new ≡ console.old }
    ensures written { Emits console.old console.new (said_to asked.now (Least
        (least_near mode.now.properties near.entry.decisions.table.now near.entry.decisions.label.now text.now)) ∷ [])
        result }
{
    let Near { net, mut decisions } = near;
    let mut cursor = Cursor::new(alloc, &net, text)?;
    let Some(_shared) = cursor.jump(text) else {
        return write_none(asked, console);
    };
    let label = cursor.last();
    let regards = decisions.regards(alloc, label, mode.properties)?;
    write_label(asked, label, regards, console)
}

/// Writes a label of at most 63 code points, and what each of it and the label asked about is to the other.
fn write_label<W: Sink, E: Sink>(
    asked: &Asked<'_>,
    label: &[u32],
    regards: Regards,
    console: &mut Console<'_, '_, W, E>,
) -> Result<(), Stop>
    requires short { length label.now ≤ 63 }
    requires scalar_values { AreScalarValues label.now }
    ensures written { Emits console.old console.new
        (said_to asked.now (Least (Some (label.now, regards))) ∷ []) result }
    ensures why { IfErr result (λ why. why ≡ stop.Output) }
{
    let mut line = CachedLine::new();
    line.begin(label);
    match asked.form {
        Form::Plain => {
            line.append(columns_of(regards).as_slice());
            line.append(b"\n");
            console.output(line.as_slice())
        }
        Form::Json => {
            let input = Input::of(asked.text);
            console.object(&Object::Least(asked.number, input, line.as_slice(), regards))
        }
    }
}

/// Writes that there is no label.
fn write_none<W: Sink, E: Sink>(
    asked: &Asked<'_>,
    console: &mut Console<'_, '_, W, E>,
) -> Result<(), Stop>
    ensures written { Emits console.old console.new
        (said_to asked.now (Least None) ∷ []) result }
    ensures why { IfErr result (λ why. why ≡ stop.Output) }
{
    match asked.form {
        Form::Plain => console.output(b"#end\n"),
        Form::Json => {
            let input = Input::of(asked.text);
            console.object(&Object::NoLeast(asked.number, input))
        }
    }
}
