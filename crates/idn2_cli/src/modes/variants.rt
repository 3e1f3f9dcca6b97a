//! The variants of a label under a table.

ghost use Rattle.std.specs.Prelude.{◌≡◌, None, true};
ghost use Rattle.idn_text.specs.Points.{AreScalarValues};
ghost use Rattle.idn_label.specs.FirstFault.{IsRegistrable};
ghost use Rattle.valid_labels.specs.Validity.{IsSound};
ghost use Rattle.idn2_answers.specs.Answers.{listing_answer, variants_answer};
ghost use Rattle.idn2_output.specs.Writing.{Emits, StopsForMemory};
ghost use Rattle.idn2_options.specs.Settings.{IsWithinLimits, keeping};
ghost use Rattle.idn2_cli.specs.Memory.{IsRefusedWithoutMemory, ListsWithoutMemory};
ghost use Rattle.idn2_cli.specs.inner.Asked.{reply_to};
ghost use Rattle.idn2_cli.specs.inner.Dispositions.{AreOfTable};
ghost use Rattle.idn2_cli.specs.inner.LineAnswers.{KeepsIfRefused};
ghost use Rattle.idn2_cli.specs.inner.Ruling.{ruling_of};
ghost use Rattle.idn2_cli.specs.inner.ServedLines.{IsServedAs, result_of};

use crate::modes::admission::{admitted_net, validity_test_by};
use crate::modes::answering::{Served, answered, refused};
use crate::modes::asked::Asked;
use crate::modes::block::write_block;
use crate::modes::code_points::PointAnswering;
use crate::modes::dispositions::Dispositions;
use crate::modes::label_dispositions::LabelDispositions;
use idn_label::check_registrable;
use idn_text::Sink;
use idn2_options::Options;
use idn2_output::{Console, Stop};
use std::alloc::Global;
use valid_labels::Segments;
use variant_table::Table;

/// The listing of variants by a table (RFC 7940 section 8). The options say after which text it begins, and where it
/// stops.
#[derive(Drop)]
pub(crate) struct Variants<'t, 'p> {
    pub table: &'t Table,
    pub ruling: &'p Option<Segments<'t>>,
    pub dispositions: &'t Dispositions,
    pub options: &'t Options,
}

impl<'t, 'p> PointAnswering for Variants<'t, 'p> {
    ghost answer_of = { λ mode label. variants_answer (keeping None mode.options.now) mode.table.now label };

    ghost is_ready = { λ mode. IsSound mode.table.now × (mode.ruling.now ≡ ruling_of mode.table.now)
        × AreOfTable mode.table.now mode.dispositions.now × IsWithinLimits mode.options.now };

    ghost needs_none = { λ mode label. IsRefusedWithoutMemory mode.options.now.properties label };

    ghost goes_on = { λ mode label. ListsWithoutMemory mode.options.now mode.table.now label };

    fn answer_points<W: Sink, E: Sink>(
        &self,
        alloc: Global,
        asked: &Asked<'_>,
        points: &[u32],
        console: &mut Console<'_, '_, W, E>,
    ) -> Served {
        let options = self.options;
        match check_registrable(alloc, points, options.properties) {
            Ok(()) => list(alloc, self, asked, points, console),
            Err(refusal) => refused(refusal),
        }
    }
}

/// Lists the variants of a label that may be registered.
fn list<W: Sink, E: Sink>(
    alloc: Global,
    mode: &Variants<'_, '_>,
    asked: &Asked<'_>,
    label: &[u32],
    console: &mut Console<'_, '_, W, E>,
) -> Served
    requires sound { IsSound mode.now.table.now }
    requires ruling { mode.now.ruling.now ≡ ruling_of mode.now.table.now }
    requires dispositions { AreOfTable mode.now.table.now mode.now.dispositions.now }
    requires limits { IsWithinLimits mode.now.options.now }
    requires scalar_values { AreScalarValues label.now }
    requires registrable { IsRegistrable mode.now.options.now.properties label.now }
    ensures written { Emits console.old console.new
        (reply_to asked.now (listing_answer (keeping None mode.now.options.now) mode.now.table.now label.now))
        (result_of result) }
    ensures refused { IsServedAs
        (listing_answer (keeping None mode.now.options.now) mode.now.table.now label.now) result }
    ensures kept { KeepsIfRefused console.old console.new (result_of result) }
    ensures begun { StopsForMemory (ListsWithoutMemory mode.now.options.now mode.now.table.now label.now)
        console.old console.new (result_of result) }
{
    let Ok(mut validity) = validity_test_by(alloc, mode.ruling) else {
        return Served::Stopped(Stop::Memory);
    };
    let actions = mode.dispositions.actions();
    let found = match admitted_net(alloc, mode.table, &mut validity, actions, label) {
        Ok(found) => found,
        Err(refusal) => return refused(refusal),
    };
    let (net, own) = (found.net, found.disposition);
    match LabelDispositions::of_label(alloc, mode.table, mode.dispositions, label, own) {
        Ok(dispositions) => answered(write_block(
            alloc,
            asked,
            mode.options,
            &net,
            validity,
            dispositions,
            console,
        )),
        Err(_) => Served::Stopped(Stop::Memory),
    }
}
