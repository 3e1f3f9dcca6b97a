//! The check of a table: the pairs that it lacks, those that differ in their conditions, and its idle types.

ghost use Rattle.std.specs.Prelude.{◌≡◌, ◌≤◌, ◌==◌, ◌+◌, ◌++◌, ◌∷◌, [], not, length, map, All, IfOk, IfErr};
ghost use Rattle.variant_table.specs.Gaps.{pairs_of};
ghost use Rattle.variant_table.specs.WellFormed.{IsSequence};
ghost use Rattle.idn2_cli.specs.inner.PairSequences.{HoldSequences};
ghost use Rattle.idn2_answers.specs.Said.{Counted, Found, Idle, finding_text, idle_line, pair_line, table_line};
ghost use Rattle.idn2_output.specs.OutputLines.{Output, outputs};
ghost use Rattle.idn2_answers.specs.Transcript.{check_findings, has_found, status_if};
ghost use Rattle.idn2_output.specs.Writing.{Emits};
ghost use Rattle.idn2_output.specs.declared.stop.Stop.TheVariants as stop;

use answer_json::PairFinding;
use arrayvec::{ArrayString, ArrayVec};
use idn_text::Sink;
use idn2_options::Form;
use idn2_output::{Console, Object, Status, Stop, append};
use itoa::Buffer;
use ruleset_text::Name;
use std::alloc::Global;
use variant_table::{Table, write_sequence};

/// Writes a line for each gap of the table, one for each pair of variants whose conditions one way aren't those of the
/// other way, one for each of its types that no action names, and one with the number of the gaps; and gives the status
/// of the run.
pub(crate) fn check_table<W: Sink, E: Sink>(
    alloc: Global,
    form: Form,
    table: &Table,
    console: &mut Console<'_, '_, W, E>,
) -> Result<Status, Stop>
    ensures written { Emits console.old console.new (outputs (finding_text form) (check_findings table.now)) result }
    ensures status { IfOk result (λ status. status ≡ status_if (has_found table.now)) }
{
    let gaps = table.gaps(alloc)?;
    let differences = table.differences(alloc)?;
    let types = table.idle_types(alloc)?;
    let entries = table.len();
    let missing = gaps.as_slice();
    let differing = differences.as_slice();
    let idle = types.as_slice();
    write_pairs(form, PairFinding::Missing, missing, console)?;
    write_pairs(form, PairFinding::Differs, differing, console)?;
    write_last(form, idle, entries, missing.len(), console)?;
    Ok(status_of_findings(missing.len(), differing.len(), idle.len()))
}

/// The status of a check that found so many gaps, differences and idle types.
fn status_of_findings(gaps: usize, differences: usize, idle: usize) -> Status
    ensures { result ≡ status_if (not (gaps + differences + idle == 0)) }
{
    if gaps == 0 && differences == 0 && idle == 0 {
        Status::Clean
    } else {
        Status::Refused
    }
}

/// Writes what was found of each pair.
fn write_pairs<W: Sink, E: Sink>(
    form: Form,
    finding: PairFinding,
    pairs: &[(Vec<u32>, Vec<u32>)],
    console: &mut Console<'_, '_, W, E>,
) -> Result<(), Stop>
    requires { HoldSequences pairs.now }
    ensures written { Emits console.old console.new
        (outputs (finding_text form) (map (Found finding) (pairs_of pairs.now))) result }
    ensures why { IfErr result (λ why. why ≡ stop.Output) }
{
    'pairs: for pair in pairs {
        write_pair(form, finding, &pair.0, &pair.1, console)?;
    }
    Ok(())
}

/// Writes what was found of two sequences of 1 to 8 scalar values.
fn write_pair<W: Sink, E: Sink>(
    form: Form,
    finding: PairFinding,
    first: &[u32],
    second: &[u32],
    console: &mut Console<'_, '_, W, E>,
) -> Result<(), Stop>
    requires first { IsSequence first.now }
    requires second { IsSequence second.now }
    ensures written { Emits console.old console.new
        (Output (finding_text form (Found finding (first.now, second.now))) ∷ []) result }
    ensures why { IfErr result (λ why. why ≡ stop.Output) }
{
    match form {
        Form::Plain => {
            let line = line_of_pair(finding, first, second);
            console.output(line.as_slice())
        }
        Form::Json => {
            let mut source = ArrayVec::new();
            let mut other = ArrayVec::new();
            write_sequence(first, &mut source);
            write_sequence(second, &mut other);
            console.object(&Object::Pair(finding, source.as_slice(), other.as_slice()))
        }
    }
}

/// The line of what was found of two sequences of 1 to 8 scalar values.
fn line_of_pair(finding: PairFinding, first: &[u32], second: &[u32]) -> ArrayVec<u8, 160>
    requires first { IsSequence first.now }
    requires second { IsSequence second.now }
    ensures { result.items ≡ pair_line finding (first.now, second.now) ++ 10 ∷ [] }
{
    let mut line = ArrayVec::new();
    let mut sequence = ArrayVec::new();
    append(&mut line, finding.word().as_bytes());
    line.push(b' ');
    write_sequence(first, &mut sequence);
    append(&mut line, sequence.as_slice());
    line.push(b'|');
    write_sequence(second, &mut sequence);
    append(&mut line, sequence.as_slice());
    line.push(b'\n');
    line
}

/// Writes the idle types, and how many entries and how many gaps the table has.
fn write_last<W: Sink, E: Sink>(
    form: Form,
    idle: &[Name],
    entries: usize,
    gaps: usize,
    console: &mut Console<'_, '_, W, E>,
) -> Result<(), Stop>
    requires { All (λ name. length name ≤ 32) idle.now }
    ensures written { Emits console.old console.new
        (outputs (finding_text form) (map Idle idle.now ++ Counted entries gaps ∷ [])) result }
    ensures why { IfErr result (λ why. why ≡ stop.Output) }
{
    write_idle_types(form, idle, console)?;
    write_counts(form, entries, gaps, console)?;
    Ok(())
}

/// Writes these types, which no action names.
fn write_idle_types<W: Sink, E: Sink>(
    form: Form,
    names: &[Name],
    console: &mut Console<'_, '_, W, E>,
) -> Result<(), Stop>
    requires { All (λ name. length name ≤ 32) names.now }
    ensures written { Emits console.old console.new (outputs (finding_text form) (map Idle names.now)) result }
    ensures why { IfErr result (λ why. why ≡ stop.Output) }
{
    'names: for name in names {
        write_idle_type(form, name.as_slice(), console)?;
    }
    Ok(())
}

/// Writes a type that no action names.
fn write_idle_type<W: Sink, E: Sink>(
    form: Form,
    name: &[u8],
    console: &mut Console<'_, '_, W, E>,
) -> Result<(), Stop>
    requires { length name.now ≤ 32 }
    ensures written { Emits console.old console.new (Output (finding_text form (Idle name.now)) ∷ []) result }
    ensures why { IfErr result (λ why. why ≡ stop.Output) }
{
    match form {
        Form::Plain => {
            let line = line_of_idle_type(name);
            console.output(line.as_slice())
        }
        Form::Json => console.object(&Object::Idle(name)),
    }
}

/// The line of a type of at most 32 octets that no action names.
fn line_of_idle_type(name: &[u8]) -> ArrayVec<u8, 48>
    requires { length name.now ≤ 32 }
    ensures { result.items ≡ idle_line name.now ++ 10 ∷ [] }
{
    let mut line = ArrayVec::new();
    append(&mut line, b"idle ");
    append(&mut line, name);
    append(&mut line, b"\n");
    line
}

/// Writes how many entries and how many gaps the table has.
fn write_counts<W: Sink, E: Sink>(
    form: Form,
    entries: usize,
    gaps: usize,
    console: &mut Console<'_, '_, W, E>,
) -> Result<(), Stop>
    ensures written { Emits console.old console.new (Output (finding_text form (Counted entries gaps)) ∷ []) result }
    ensures why { IfErr result (λ why. why ≡ stop.Output) }
{
    match form {
        Form::Plain => {
            let line = line_of_counts(entries, gaps);
            console.output(line.as_str().as_bytes())
        }
        Form::Json => console.object(&Object::Checked(entries as u64, gaps as u64)),
    }
}

/// The last line of a check.
fn line_of_counts(entries: usize, gaps: usize) -> ArrayString<64>
    ensures { result.bytes ≡ table_line entries gaps ++ 10 ∷ [] }
{
    let mut line = ArrayString::new();
    let mut digits = Buffer::new();
    line.push_str("#table ");
    line.push_str(digits.format(entries));
    line.push_str(" ");
    line.push_str(digits.format(gaps));
    line.push_str("\n");
    line
}
