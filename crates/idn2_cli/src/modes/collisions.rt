//! The block of a label that is asked among registered ones: those that collide with it.

ghost use Rattle.std.specs.Prelude.{◌≡◌, ◌≤◌, ◌<◌, ◌++◌, ◌∷◌, [], ℕ, List, Err, IfErr, IfOk, IfSome, Option};
ghost use Rattle.std.specs.Prelude.{filter, length, option_map};
ghost use Rattle.idn_text.specs.Points.{AreScalarValues, utf8_of};
ghost use Rattle.idn_class.specs.declared.properties.Properties.{Properties};
ghost use Rattle.registered_labels.specs.Collisions.{collisions_ahead};
ghost use Rattle.registered_labels.specs.Registered.{AreRegistered};
ghost use Rattle.idn2_options.specs.Settings.{IsWithinLimits};
ghost use Rattle.idn2_answers.specs.Collisions.{IsGood, collision_block, is_found, is_itself_left_out};
ghost use Rattle.idn2_answers.specs.Said.{BlockEnd, NamedEnd, regard_columns, said_line, trailer_line};
ghost use Rattle.idn2_output.specs.Writing.{Emits};
ghost use Rattle.idn2_cli.specs.inner.Asked.{lines_to, said_to};
ghost use Rattle.idn2_cli.specs.inner.Decided.{Decides};
ghost use Rattle.idn2_cli.specs.inner.FoundLabels.{AreWithin, collision_line_by, ending, found_block};
ghost use Rattle.idn2_cli.specs.inner.FoundLabels.{lines_from, said_of, stop_at, told_block};
ghost use Rattle.idn2_cli.specs.inner.Searches.{IsNearOf};
ghost use Rattle.idn2_output.specs.declared.stop.Stop.TheVariants as stop;

use crate::modes::asked::Asked;
use crate::modes::block::{write_end, write_stop};
use crate::modes::cached_line::CachedLine;
use crate::modes::counts::is_reached;
use crate::modes::decided::{Decisions, is_either};
use crate::modes::search::Near;
use answer_json::{Input, Regards};
use arrayvec::ArrayVec;
use idn_label::{MAX_U_LABEL_LEN, encode_label};
use idn_text::{MAX_LINE_LEN, Sink, put_points};
use idn2_options::{Form, Options};
use idn2_output::{Console, Object, Stop, append};
use itoa::Buffer;
use registered_labels::{Collisions, RegisteredLabels};
use std::alloc::{AllocError, Global};

/// A registered label that collides with a label, by its number, and what each of the two is to the other.
#[derive(Clone, Copy)]
pub(crate) struct Collision {
    pub number: usize,
    pub regards: Regards,
}

/// Writes the block of a label: the registered labels that collide with it. All of them are found before the first
/// is written, so that no block breaks off for want of memory.
pub(crate) fn write_collisions<W: Sink, E: Sink>(
    alloc: Global,
    asked: &Asked<'_>,
    options: &Options,
    near: Near<'_>,
    registered: &RegisteredLabels<'_>,
    console: &mut Console<'_, '_, W, E>,
) -> Result<(), Stop>
    requires limits { IsWithinLimits options.now }
    requires near { IsNearOf near.decisions.table.now near.decisions.label.now near }
    requires good { IsGood options.now near.decisions.table.now near.decisions.label.now }
    requires all { AreRegistered options.now.properties registered.now }
    ensures written { Emits console.old console.new (lines_to asked.now
        (collision_block options.now near.entry.decisions.table.now registered.now near.entry.decisions.label.now))
        result }
    ensures begun { result ≡ Err stop.Memory → console.new ≡ console.old }
{
    let Near { net, mut decisions } = near;
    let label = decisions.label();
    let mut walk = Collisions::new(alloc, &net, registered, &options.after)?;
    let found = find_collisions(alloc, options, &mut walk, &mut decisions)?;
    write_found(asked, options, label, registered, &found, console)
}

/// The registered labels that collide with the label of the decisions, in label order, up to the limit-th: of those
/// that a walk comes to.
fn find_collisions(
    alloc: Global,
    options: &Options,
    walk: &mut Collisions<'_, '_>,
    decisions: &mut Decisions<'_>,
) -> Result<Vec<Collision>, AllocError>
    requires limits { IsWithinLimits options.now }
    requires decides { Decides decisions.old }
    requires good { IsGood options.now decisions.old.table.now decisions.old.label.now }
    requires all { AreRegistered options.now.properties walk.old.registered }
    ensures within { IfOk result (λ found. AreWithin walk.old.registered found.items) }
    ensures block { IfOk result (λ found. found_block options.now.limit walk.old.registered found.items ≡
        lines_from (collision_line_by options.now decisions.old.table.now decisions.old.label.now) options.now.limit 0
        (filter (is_found options.now decisions.old.table.now decisions.old.label.now) (collisions_ahead walk.old))) }
{
    let asked = decisions.label();
    let mut found = Vec::new(alloc);
    'near: while let Some(number) = walk.advance() {
        let label = walk.label();
        if is_itself_left_out(options, asked, label) {
            continue;
        }
        let regards = decisions.regards(alloc, label, options.properties)?;
        if !is_either(regards) {
            continue;
        }
        found.push(Collision { number, regards })?;
        if is_reached(options.limit, found.len() as u64) {
            return Ok(found);
        }
    }
    Ok(found)
}

/// Whether a registered label is the one that is asked about, and that is left out.
fn is_itself_left_out(options: &Options, asked: &[u32], label: &[u32]) -> bool
    ensures { result ≡ is_itself_left_out options.now asked.now label.now }
{
    options.others && label == asked
}

/// Writes the block of the labels that were found: most have none, and then only its end.
fn write_found<W: Sink, E: Sink>(
    asked: &Asked<'_>,
    options: &Options,
    label: &[u32],
    registered: &RegisteredLabels<'_>,
    found: &[Collision],
    console: &mut Console<'_, '_, W, E>,
) -> Result<(), Stop>
    requires short { length label.now ≤ 63 }
    requires scalar_values { AreScalarValues label.now }
    requires all { (properties : Properties) × AreRegistered properties registered.now }
    requires within { AreWithin registered.now found.now }
    ensures written { Emits console.old console.new
        (lines_to asked.now (told_block options.now label.now registered.now found.now)) result }
    ensures why { IfErr result (λ why. why ≡ stop.Output) }
{
    if found.is_empty() {
        return write_ending(asked, options, label, registered, found, console);
    }
    write_lines(asked, options, label, registered, found, console)
}

/// Writes the lines of a block, and its end. Not inlined, so that what finds them needs no stack space for it.
#[inline(never)]
fn write_lines<W: Sink, E: Sink>(
    asked: &Asked<'_>,
    options: &Options,
    label: &[u32],
    registered: &RegisteredLabels<'_>,
    found: &[Collision],
    console: &mut Console<'_, '_, W, E>,
) -> Result<(), Stop>
    requires short { length label.now ≤ 63 }
    requires scalar_values { AreScalarValues label.now }
    requires all { (properties : Properties) × AreRegistered properties registered.now }
    requires within { AreWithin registered.now found.now }
    ensures written { Emits console.old console.new
        (lines_to asked.now (told_block options.now label.now registered.now found.now)) result }
    ensures why { IfErr result (λ why. why ≡ stop.Output) }
{
    let mut points = ArrayVec::new();
    'lines: for collision in found {
        write_collision(asked, registered, collision, &mut points, console)?;
    }
    write_ending(asked, options, label, registered, found, console)
}

/// Writes the end of a block; if the label itself is left out, after the label that was asked about, or nothing if the
/// block has no label.
fn write_ending<W: Sink, E: Sink>(
    asked: &Asked<'_>,
    options: &Options,
    label: &[u32],
    registered: &RegisteredLabels<'_>,
    found: &[Collision],
    console: &mut Console<'_, '_, W, E>,
) -> Result<(), Stop>
    requires short { length label.now ≤ 63 }
    requires scalar_values { AreScalarValues label.now }
    requires all { (properties : Properties) × AreRegistered properties registered.now }
    requires within { AreWithin registered.now found.now }
    ensures written { Emits console.old console.new
        (lines_to asked.now (ending options.now label.now registered.now found.now)) result }
    ensures why { IfErr result (λ why. why ≡ stop.Output) }
{
    if !options.others {
        return write_end_of(asked, options.limit, registered, found, console);
    }
    if found.is_empty() {
        return Ok(());
    }
    write_named_end(asked, options.limit, label, registered, found, console)
}

/// Writes a registered label, its A-label, and what each of it and the label asked about is to the other. `points` is
/// room for the label, made once for a block since it is cleared when it is made.
fn write_collision<W: Sink, E: Sink>(
    asked: &Asked<'_>,
    registered: &RegisteredLabels<'_>,
    collision: &Collision,
    points: &mut ArrayVec<u32, MAX_LINE_LEN>,
    console: &mut Console<'_, '_, W, E>,
) -> Result<(), Stop>
    requires all { (properties : Properties) × AreRegistered properties registered.now }
    requires within { collision.now.number < length registered.now }
    ensures written { Emits console.old console.new
        (said_to asked.now (said_of registered.now collision.now) ∷ []) result }
    ensures why { IfErr result (λ why. why ≡ stop.Output) }
{
    registered.decode(collision.number, points);
    let a_label = encode_label(points.as_slice());
    let u_label = registered.line(collision.number);
    let a_label = a_label.as_str().as_bytes();
    let regards = collision.regards;
    match asked.form {
        Form::Plain => {
            let line = collision_line(u_label, a_label, regards);
            console.output(line.as_slice())
        }
        Form::Json => console.object(&Object::Collision(asked.number, u_label, a_label, regards)),
    }
}

/// The line of a registered label, whose UTF-8 and A-label are given.
fn collision_line(u_label: &[u8], a_label: &[u8], regards: Regards) -> ArrayVec<u8, 352>
    requires u_label { length u_label.now ≤ 252 }
    requires a_label { length a_label.now ≤ 63 }
    ensures { result.items ≡ u_label.now ++ 9 ∷ (a_label.now ++ regard_columns regards) ++ 10 ∷ [] }
{
    let mut line = ArrayVec::new();
    append(&mut line, u_label);
    append(&mut line, b"\t");
    append(&mut line, a_label);
    append(&mut line, columns_of(regards).as_slice());
    append(&mut line, b"\n");
    line
}

/// What a label is to another one, and back, each after a tab.
pub(crate) fn columns_of(regards: Regards) -> ArrayVec<u8, 32>
    ensures columns { result.items ≡ regard_columns regards }
    ensures short { length result.items ≤ 24 }
{
    let mut columns = ArrayVec::new();
    append(&mut columns, b"\t");
    append(&mut columns, regards.there.text().as_bytes());
    append(&mut columns, b"\t");
    append(&mut columns, regards.back.text().as_bytes());
    columns
}

/// Writes the end of a block: at the limit that it stops at the last label, and else that there is no other.
fn write_end_of<W: Sink, E: Sink>(
    asked: &Asked<'_>,
    limit: Option<u64>,
    registered: &RegisteredLabels<'_>,
    found: &[Collision],
    console: &mut Console<'_, '_, W, E>,
) -> Result<(), Stop>
    requires all { (properties : Properties) × AreRegistered properties registered.now }
    requires within { AreWithin registered.now found.now }
    ensures written { Emits console.old console.new
        (said_to asked.now (BlockEnd (length found.now) (stop_at limit registered.now found.now)) ∷ []) result }
    ensures why { IfErr result (λ why. why ≡ stop.Output) }
{
    let count = found.len() as u64;
    match found.last() {
        Some(last) if is_reached(limit, count) => {
            let mut points = ArrayVec::<u32, MAX_LINE_LEN>::new();
            registered.decode(last.number, &mut points);
            let mut line = CachedLine::new();
            write_stop(asked, count, points.as_slice(), &mut line, console)
        }
        _ => write_end(asked, count, console),
    }
}

/// Writes the end of a block that has a label, after the label that was asked about.
fn write_named_end<W: Sink, E: Sink>(
    asked: &Asked<'_>,
    limit: Option<u64>,
    label: &[u32],
    registered: &RegisteredLabels<'_>,
    found: &[Collision],
    console: &mut Console<'_, '_, W, E>,
) -> Result<(), Stop>
    requires short { length label.now ≤ 63 }
    requires scalar_values { AreScalarValues label.now }
    requires all { (properties : Properties) × AreRegistered properties registered.now }
    requires within { AreWithin registered.now found.now }
    ensures written { Emits console.old console.new (said_to asked.now
        (NamedEnd label.now (length found.now) (stop_at limit registered.now found.now)) ∷ []) result }
    ensures why { IfErr result (λ why. why ≡ stop.Output) }
{
    let labels = found.len() as u64;
    let stop = stop_of(limit, registered, found);
    match asked.form {
        Form::Plain => console.output(named_line(labels, stop, label).as_slice()),
        Form::Json => {
            let input = Input::of(asked.text);
            console.object(&Object::BlockEnd(asked.number, input, labels, stop))
        }
    }
}

/// The label at which a block stops in UTF-8, if as many as may be listed were found.
fn stop_of<'r>(
    limit: Option<u64>,
    registered: &'r RegisteredLabels<'_>,
    found: &[Collision],
) -> Option<&'r [u8]>
    requires all { (properties : Properties) × AreRegistered properties registered.now }
    requires within { AreWithin registered.now found.now }
    ensures stop { option_map (λ text. text.now) result
        ≡ option_map utf8_of (stop_at limit registered.now found.now) }
    ensures short { IfSome result (λ text. length text.now ≤ 252) }
{
    let count = found.len();
    match found.last() {
        Some(last) if is_reached(limit, count as u64) => Some(registered.line(last.number)),
        _ => None,
    }
}

/// The line of the end of a block after the label that was asked about; of a stop the UTF-8 is given.
fn named_line(count: u64, stop: Option<&[u8]>, label: &[u32]) -> ArrayVec<u8, 640>
    requires stop { IfSome stop (λ last. length last.now ≤ 252) }
    requires short { length label.now ≤ 63 }
    requires scalar_values { AreScalarValues label.now }
    ensures { (last : Option (List ℕ)) → option_map (λ text. text.now) stop.entry ≡ option_map utf8_of last →
        result.items ≡ said_line (NamedEnd label.now count last) ++ 10 ∷ [] }
{
    let mut utf8 = [0; MAX_U_LABEL_LEN];
    let len = put_points(label, &mut utf8, 0);
    let mut line = trailer_of(count, stop);
    append(&mut line, b" ");
    append(&mut line, &utf8[..len]);
    append(&mut line, b"\n");
    line
}

/// The trailer of a block, without its line feed; of a stop the UTF-8 is given.
fn trailer_of(count: u64, stop: Option<&[u8]>) -> ArrayVec<u8, 640>
    requires stop { IfSome stop (λ last. length last.now ≤ 252) }
    ensures line { (last : Option (List ℕ)) → option_map (λ text. text.now) stop.entry ≡ option_map utf8_of last →
        result.items ≡ trailer_line count last }
    ensures short { length result.items ≤ 320 }
{
    let mut digits = Buffer::new();
    let mut line = ArrayVec::new();
    let Some(last) = stop else {
        append(&mut line, b"#end ");
        append(&mut line, digits.format(count).as_bytes());
        return line;
    };
    append(&mut line, b"#stop ");
    append(&mut line, digits.format(count).as_bytes());
    append(&mut line, b" ");
    append(&mut line, last);
    line
}
