//! The registered labels that collide with a label under a table.

ghost use Rattle.std.specs.Prelude.{◌≡◌, true, Some};
ghost use Rattle.idn_text.specs.Points.{AreScalarValues};
ghost use Rattle.idn_label.specs.FirstFault.{IsRegistrable};
ghost use Rattle.registered_labels.specs.Registered.{AreRegistered};
ghost use Rattle.idn2_options.specs.Settings.{IsWithinLimits, keeping};
ghost use Rattle.idn2_answers.specs.Answers.{listing_answer, variants_answer};
ghost use Rattle.idn2_output.specs.Writing.{Emits};
ghost use Rattle.idn2_cli.specs.Memory.{IsRefusedWithoutMemory};
ghost use Rattle.idn2_cli.specs.inner.Asked.{reply_to};
ghost use Rattle.idn2_cli.specs.inner.LineAnswers.{KeepsIfRefused};
ghost use Rattle.idn2_cli.specs.inner.Searches.{IsReady};
ghost use Rattle.idn2_cli.specs.inner.ServedLines.{IsServedAs, result_of};
ghost use Rattle.idn2_cli.specs.declared.modes.answering.Served.TheVariants as served;
ghost use Rattle.idn2_output.specs.declared.stop.Stop.TheVariants as stop;

use crate::modes::answering::{Served, answered, refused};
use crate::modes::asked::Asked;
use crate::modes::code_points::PointAnswering;
use crate::modes::collisions::write_collisions;
use crate::modes::search::Search;
use idn_label::check_registrable;
use idn_text::Sink;
use idn2_options::Options;
use idn2_output::Console;
use registered_labels::RegisteredLabels;
use std::alloc::Global;

/// The search of labels among registered ones. The options say after which text a block begins, and where it stops.
#[derive(Drop)]
pub(crate) struct Among<'t, 'r> {
    pub search: &'t Search<'t>,
    pub options: &'t Options,
    pub registered: &'t RegisteredLabels<'r>,
}

impl<'t, 'r> PointAnswering for Among<'t, 'r> {
    ghost answer_of = { λ mode label. variants_answer (keeping (Some mode.registered.now) mode.options.now)
        mode.search.now.table.now label };

    ghost is_ready = { λ mode. IsReady mode.search.now × IsWithinLimits mode.options.now
        × AreRegistered mode.options.now.properties mode.registered.now };

    ghost needs_none = { λ mode label. IsRefusedWithoutMemory mode.options.now.properties label };

    fn answer_points<W: Sink, E: Sink>(
        &self,
        alloc: Global,
        asked: &Asked<'_>,
        points: &[u32],
        console: &mut Console<'_, '_, W, E>,
    ) -> Served {
        let options = self.options;
        match check_registrable(alloc, points, options.properties) {
            Ok(()) => answer_label(alloc, self, asked, points, console),
            Err(refusal) => refused(refusal),
        }
    }
}

/// Answers a label that may be registered.
fn answer_label<W: Sink, E: Sink>(
    alloc: Global,
    mode: &Among<'_, '_>,
    asked: &Asked<'_>,
    label: &[u32],
    console: &mut Console<'_, '_, W, E>,
) -> Served
    requires ready { IsReady mode.now.search.now }
    requires limits { IsWithinLimits mode.now.options.now }
    requires registered { AreRegistered mode.now.options.now.properties mode.now.registered.now }
    requires scalar_values { AreScalarValues label.now }
    requires registrable { IsRegistrable mode.now.options.now.properties label.now }
    ensures written { Emits console.old console.new
        (reply_to asked.now (listing_answer (keeping (Some mode.now.registered.now) mode.now.options.now)
        mode.now.search.now.table.now label.now)) (result_of result) }
    ensures refused { IsServedAs (listing_answer (keeping (Some mode.now.registered.now) mode.now.options.now)
        mode.now.search.now.table.now label.now) result }
    ensures kept { KeepsIfRefused console.old console.new (result_of result) }
    ensures begun { result ≡ served.Stopped stop.Memory → console.new ≡ console.old }
{
    match mode.search.near(alloc, label) {
        Ok(near) => answered(write_collisions(
            alloc,
            asked,
            mode.options,
            near,
            mode.registered,
            console,
        )),
        Err(refusal) => refused(refusal),
    }
}
