//! The block of a label: a line for each of its variants, and a trailer.

ghost use Rattle.std.specs.Prelude.{◌≡◌, ◌≤◌, ℕ, ◌∷◌, [], ◌++◌, List, length, codes, decimal, All, None, Some};
ghost use Rattle.std.specs.Prelude.{◌≢◌, Err, IfErr};
ghost use Rattle.idn_text.specs.Points.{AreScalarValues};
ghost use Rattle.idn_class.specs.declared.properties.Properties.{Properties};
ghost use Rattle.idn_label.specs.ALabel.{a_label_of};
ghost use Rattle.idn_label.specs.FirstFault.{IsRegistrable};
ghost use Rattle.valid_labels.specs.Validity.{IsSound};
ghost use Rattle.idn2_options.specs.Settings.{IsWithinLimits};
ghost use Rattle.idn2_output.specs.OutputLines.{Output};
ghost use Rattle.idn2_output.specs.Writing.{Emits, StopsForMemory};
ghost use Rattle.idn2_answers.specs.Dispositions.{shown};
ghost use Rattle.idn2_answers.specs.Listings.{variant_by};
ghost use Rattle.idn2_answers.specs.Said.{BlockEnd, Listed, disposition_columns, variant_line};
ghost use Rattle.idn2_cli.specs.Memory.{TestsWithoutMemory};
ghost use Rattle.idn2_cli.specs.inner.Asked.{lines_to, said_to};
ghost use Rattle.idn2_cli.specs.inner.Blocks.{block_output, field_in};
ghost use Rattle.idn2_cli.specs.inner.CachedLines.{IsBegun};
ghost use Rattle.idn2_cli.specs.inner.Progress.{GoesOnWithoutMemory, IsUnderWay, first_counts, lines_ahead, progress_of};
ghost use Rattle.idn2_cli.specs.inner.Ruling.{KeepsOf, filter_for, ruling_in, ruling_of};
ghost use Rattle.idn2_output.specs.declared.stop.Stop.TheVariants as stop;

use crate::modes::asked::Asked;
use crate::modes::cached_line::CachedLine;
use crate::modes::counts::{Counts, Line};
use crate::modes::label_dispositions::LabelDispositions;
use crate::modes::variant_judge::VariantJudge;
use answer_json::{Disposition, Input};
use arrayvec::{ArrayString, ArrayVec};
use idn_class::CachedPrefixes;
use idn_label::{ALabel, CachedALabel};
use idn_text::Sink;
use idn2_options::{Form, Options};
use idn2_output::{Console, Object, Stop, append};
use itoa::Buffer;
use std::alloc::Global;
use valid_labels::ValidityTest;
use variant_list::{Cursor, Net};

/// Writes the block of a variant graph's label: its variants up to the stop, and the trailer. They are tested for being
/// valid, too, where there is a test.
pub(crate) fn write_block<W: Sink, E: Sink>(
    alloc: Global,
    asked: &Asked<'_>,
    options: &Options,
    net: &Net,
    validity: Option<ValidityTest<'_>>,
    dispositions: LabelDispositions<'_>,
    console: &mut Console<'_, '_, W, E>,
) -> Result<(), Stop>
    requires limits { IsWithinLimits options.now }
    requires spelled { All AreScalarValues net.now.spelled }
    requires new { (v : List ℕ) → KeepsOf v validity }
    requires sound { IsSound dispositions.table }
    requires ruling { ruling_in validity ≡ ruling_of dispositions.table }
    ensures written { Emits console.old console.new
        (block_output asked.now validity.entry dispositions.entry options.now net.now.spelled) result }
    ensures begun { StopsForMemory
        (TestsWithoutMemory (filter_for options.now.properties validity.entry dispositions.entry) options.now
        net.now.spelled)
        console.old console.new result }
{
    let mut cursor = Cursor::new(alloc, net, &options.after)?;
    let mut judge = VariantJudge {
        beginnings: CachedPrefixes::new(),
        test: CachedALabel::new(),
        line: CachedLine::new(),
        validity,
        dispositions,
        told: None,
        properties: options.properties,
    };
    write_lines(alloc, asked, options, &mut cursor, &mut judge, console)
}

/// Writes the lines of a block of which none is listed yet.
///
/// Always inline: it has one call.
#[inline(always)]
fn write_lines<W: Sink, E: Sink>(
    alloc: Global,
    asked: &Asked<'_>,
    options: &Options,
    cursor: &mut Cursor<'_>,
    judge: &mut VariantJudge<'_, '_>,
    console: &mut Console<'_, '_, W, E>,
) -> Result<(), Stop>
    requires under_way { IsUnderWay (progress_of cursor.old judge.old (first_counts options.now)) }
    ensures written { Emits console.old console.new (lines_to asked.now (lines_ahead
        (variant_by (field_in options.now judge.old.dispositions))
        (progress_of cursor.old judge.old (first_counts options.now)))) result }
    ensures no_memory { GoesOnWithoutMemory (progress_of cursor.old judge.old (first_counts options.now)) →
        result ≢ Err stop.Memory }
{
    let wanted = options.tells_causes();
    let mut counts = Counts::new(options);
    'lines: loop {
        let line = counts.advance(alloc, cursor, judge)?;
        let label = cursor.last();
        match line {
            Line::Variant => {
                let told = shown(wanted, judge.told);
                let a_label = judge.test.a_label();
                write_variant(asked, label, a_label, told, &mut judge.line, console)?;
            }
            Line::Stop => return write_stop(asked, counts.count, label, &mut judge.line, console),
            Line::End => return write_end(asked, counts.count, console),
        }
    }
}

/// The disposition that is told: an unclear variant is told as blocked, unless causes are told.
fn shown(wanted: bool, disposition: Option<Disposition>) -> Option<Disposition>
    ensures { result ≡ shown wanted disposition }
{
    match disposition {
        Some(Disposition::Unclear) if !wanted => Some(Disposition::Blocked),
        _ => disposition,
    }
}

/// Writes a variant, its A-label and its disposition.
///
/// Always inline: each kind of block calls it once, for each of its lines.
#[inline(always)]
pub(crate) fn write_variant<W: Sink, E: Sink>(
    asked: &Asked<'_>,
    label: &[u32],
    a_label: &ALabel,
    disposition: Option<Disposition>,
    line: &mut CachedLine,
    console: &mut Console<'_, '_, W, E>,
) -> Result<(), Stop>
    requires registrable { (properties : Properties) × IsRegistrable properties label.now }
    requires a_label { a_label.now.bytes ≡ a_label_of label.now }
    requires begun { IsBegun label.now line.old }
    ensures begun { IsBegun label.now line.new }
    ensures written { Emits console.old console.new
        (said_to asked.now (Listed disposition label.now) ∷ []) result }
    ensures why { IfErr result (λ why. why ≡ stop.Output) }
{
    match asked.form {
        Form::Plain => write_variant_line(label, a_label, disposition, line, console),
        Form::Json => {
            line.begin(label);
            let (u_label, a_label) = (line.as_slice(), a_label.as_str().as_bytes());
            console.object(&Object::Variant(asked.number, u_label, a_label, disposition))
        }
    }
}

/// Writes a variant and its A-label as a line, with what its disposition says after them.
#[inline(always)]
fn write_variant_line<W: Sink, E: Sink>(
    label: &[u32],
    a_label: &ALabel,
    disposition: Option<Disposition>,
    line: &mut CachedLine,
    console: &mut Console<'_, '_, W, E>,
) -> Result<(), Stop>
    requires registrable { (properties : Properties) × IsRegistrable properties label.now }
    requires a_label { a_label.now.bytes ≡ a_label_of label.now }
    requires begun { IsBegun label.now line.old }
    ensures begun { IsBegun label.now line.new }
    ensures written { Emits console.old console.new
        (Output (variant_line disposition label.now ++ 10 ∷ []) ∷ []) result }
    ensures why { IfErr result (λ why. why ≡ stop.Output) }
{
    line.begin(label);
    line.append(b"\t");
    line.append(a_label.as_str().as_bytes());
    // Most tables have no dispositions, so no field.
    let field = field_of(disposition);
    if !field.is_empty() {
        line.append(field.as_bytes());
    }
    line.append(b"\n");
    console.output(line.as_slice())
}

/// What a disposition says on a variant's line, each field with the tab before it; nothing where there is none.
#[inline]
fn field_of(disposition: Option<Disposition>) -> &'static str
    ensures field { result.now ≡ disposition_columns disposition }
    ensures short { length result.now ≤ 16 }
{
    match disposition {
        None => "",
        Some(Disposition::Allocatable) => "\tallocatable",
        Some(Disposition::Blocked) => "\tblocked",
        Some(Disposition::Unclear) => "\tblocked\tunclear",
    }
}

/// Writes the end of a listing that stops at a label of at most 63 code points. `cached` gives the UTF-8 of the label.
pub(crate) fn write_stop<W: Sink, E: Sink>(
    asked: &Asked<'_>,
    count: u64,
    last: &[u32],
    cached: &mut CachedLine,
    console: &mut Console<'_, '_, W, E>,
) -> Result<(), Stop>
    requires short { length last.now ≤ 63 }
    requires scalar_values { AreScalarValues last.now }
    requires begun { IsBegun last.now cached.old }
    ensures written { Emits console.old console.new
        (said_to asked.now (BlockEnd count (Some last.now)) ∷ []) result }
    ensures why { IfErr result (λ why. why ≡ stop.Output) }
{
    cached.begin(last);
    let label = cached.as_slice();
    match asked.form {
        Form::Plain => {
            let line = stop_line(count, label);
            console.output(line.as_slice())
        }
        Form::Json => {
            let input = Input::of(asked.text);
            console.object(&Object::BlockEnd(asked.number, input, count, Some(label)))
        }
    }
}

/// The line of a stop at a label, whose UTF-8 is given.
fn stop_line(count: u64, last: &[u8]) -> ArrayVec<u8, 320>
    requires { length last.now ≤ 252 }
    ensures { result.items ≡ codes "#stop " ++ (decimal count ++ 32 ∷ last.now) ++ 10 ∷ [] }
{
    let mut digits = Buffer::new();
    let mut line = ArrayVec::new();
    append(&mut line, b"#stop ");
    append(&mut line, digits.format(count).as_bytes());
    append(&mut line, b" ");
    append(&mut line, last);
    append(&mut line, b"\n");
    line
}

/// Writes the end of a listing that ends.
pub(crate) fn write_end<W: Sink, E: Sink>(
    asked: &Asked<'_>,
    count: u64,
    console: &mut Console<'_, '_, W, E>,
) -> Result<(), Stop>
    ensures written { Emits console.old console.new
        (said_to asked.now (BlockEnd count None) ∷ []) result }
    ensures why { IfErr result (λ why. why ≡ stop.Output) }
{
    match asked.form {
        Form::Plain => {
            let line = end_line(count);
            console.output(line.as_str().as_bytes())
        }
        Form::Json => {
            let input = Input::of(asked.text);
            console.object(&Object::BlockEnd(asked.number, input, count, None))
        }
    }
}

/// The line of an end.
fn end_line(count: u64) -> ArrayString<48>
    ensures { result.bytes ≡ codes "#end " ++ decimal count ++ 10 ∷ [] }
{
    let mut line = ArrayString::<48>::new();
    let mut digits = Buffer::new();
    line.push_str("#end ");
    line.push_str(digits.format(count));
    line.push_str("\n");
    line
}
