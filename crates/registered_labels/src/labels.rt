//! Registered labels in memory.
ghost use Rattle.std.specs.Prelude.{◌≡◌, ◌≢◌, ◌<◌, ◌≤◌, ℕ, List, length, take, chars, slice_get, slice_range};
ghost use Rattle.std.specs.Prelude.{option_map, false, true, Some, [], IfOk, IfErr, IfSome, IfNone, IsOk};
ghost use Rattle.idn_text.specs.Lines.{body_of};
ghost use Rattle.std.specs.Ordering.{is_lt};
ghost use Rattle.std.specs.List.{list_all};
ghost use Rattle.idn_label.specs.Steps.{is_ldh_point};
ghost use Rattle.idn_text.specs.Points.{AreScalarValues, utf8_of};
ghost use Rattle.variant_list.specs.Labels.{label_cmp};
ghost use Rattle.registered_labels.specs.declared.labels.RegisteredFileFault.TheVariants as faults;
ghost use Rattle.idn_class.specs.declared.properties.Properties.{Properties};
ghost use Rattle.registered_labels.specs.Registered.{AreRegistered, IsBetween, IsFirstFrom};
ghost use Rattle.registered_labels.specs.inner.Readings.{IsLineEnd, IsReadAs};

use crate::order::order_of;
use arrayvec::ArrayVec;
use idn_class::{MAX_LABEL_LEN, Properties};
use idn_label::{before_mark, ldh_end, test_old_utf8, test_utf8};
use idn_text::{MAX_LINE_LEN, Refusal, decode_points, put_points, without_carriage_return};
use memchr::memchr;
use std::alloc::{AllocError, AllocFailed, Global};
use std::marker::Model;

/// The most bytes of a label in UTF-8.
const MAX_KEY_LEN: usize = 4 * MAX_LABEL_LEN;

/// How many times as long as the step before each step of a search is. Few steps are made to labels that are far, and
/// what is left between two of them is halved.
const STEP_GROWTH: usize = 16;

/// The most bytes of a text, so that 32 bits tell each place in it.
const MAX_TEXT_LEN: usize = 0xFFFF_FFFF;

/// Why a text is not read as registered labels. Lines are numbered from 1.
#[derive(Clone, Copy, Debug, PartialEq, Eq)]
pub enum RegisteredFileFault {
    /// The first line that is wrong: it is no label that may be registered, nor an old one with the mark; it is not
    /// greater than the one before it; or it ends after byte 4,294,967,295 of the text.
    Refused { line: u64, refusal: Refusal },
    /// Memory was refused.
    Memory,
}

impl<T: Drop> From<AllocFailed<T>> for RegisteredFileFault {
    ghost from_gives = { λ _ fault. fault ≡ faults.Memory };

    fn from(_: AllocFailed<T>) -> RegisteredFileFault {
        RegisteredFileFault::Memory
    }
}

/// Where a label stands in a text: the place of its first byte, and the place after its last.
#[derive(Clone, Copy, PartialEq, Eq)]
struct Span {
    start: u32,
    end: u32,
}

/// Registered labels as they stand in a text, in label order, each once. Contracts see the labels.
#[derive(Drop)]
pub struct RegisteredLabels<'a> {
    text: &'a [u8],
    spans: Vec<Span>,
    /// By which they may be registered.
    properties: Properties,
}

impl<'a> Model for RegisteredLabels<'a> {
    ghost use Rattle.std.specs.Prelude.{ℕ, List};
    ghost use Rattle.registered_labels.specs.inner.Spans.{labels_at, AreLabelsIn};

    ghost Value = { List (List ℕ) };

    ghost view = { λ r. labels_at r.text.now r.spans.items };

    ghost invariant = { λ r. AreLabelsIn r.properties r.text.now r.spans.items };
}

impl<'a> RegisteredLabels<'a> {
    ghost use Rattle.registered_labels.specs.Texts.{IsTextOf, IsFaultOf};

    /// The labels of a text, one on each line, each greater than the one before; or the first fault of the text. On the
    /// line of an old label a tab and `old` stand after it. An empty text takes no memory.
    pub fn read(
        alloc: Global,
        text: &'a [u8],
        properties: Properties,
    ) -> Result<RegisteredLabels<'a>, RegisteredFileFault>
        ensures labels { IfOk result (IsTextOf properties text.now) }
        ensures fault { IfErr result (IsFaultOf properties text.now) }
        ensures no_memory { text.now ≡ [] → IsOk result }
    {
        let mut spans = Vec::new(alloc);
        let mut room = [0; MAX_LINE_LEN];
        // No byte: that is below all labels.
        let mut last = &text[..0];
        // The text from the last label on.
        let mut from_last = text;
        let mut at = 0;
        let mut number: u64 = 0;
        while at < text.len() {
            number += 1;
            let line = line_end(text, at);
            let end = line.end;
            let len = match read_label(alloc, &text[at..end], line.is_ldh, &mut room, properties) {
                Ok(len) => len,
                Err(refusal) => return Err(refused(number, refusal)),
            };
            // The byte order of UTF-8 is label order.
            let label = &text[at..at + len];
            if !order_of(from_last, last.len(), &text[at..], len).is_lt() {
                return Err(refused(number, Refusal::OutOfOrder));
            }
            if end > MAX_TEXT_LEN {
                return Err(refused(number, Refusal::FileTooLong));
            }
            spans.push(Span {
                start: at as u32,
                end: (at + len) as u32,
            })?;
            last = label;
            from_last = &text[at..];
            at = end + 1;
        }
        Ok(RegisteredLabels {
            text,
            spans,
            properties,
        })
    }

    /// How many labels there are.
    pub fn len(&self) -> usize
        ensures count { result ≡ length self.now }
        ensures registered { (properties : Properties) × AreRegistered properties self.now }
    {
        self.spans.len()
    }

    /// The label of this number in UTF-8.
    pub fn line(&self, index: usize) -> &[u8]
        requires { index < length self.now }
        ensures { option_map utf8_of (slice_get self.now index) ≡ Some result.now }
    {
        let (text, len) = self.text_from(index);
        &text[..len]
    }

    /// The text from the label of this number on, and how many of its bytes are the label's.
    #[inline]
    fn text_from(&self, index: usize) -> (&[u8], usize)
        requires { index < length self.now }
        ensures within { result.1 ≤ length result.0.now }
        ensures label { option_map utf8_of (slice_get self.now index) ≡ Some (take result.1 result.0.now) }
    {
        let span = self.spans[index];
        let (start, end) = (span.start as usize, span.end as usize);
        (&self.text[start..], end - start)
    }

    /// Leaves the code points of the label of this number in `points`.
    pub fn decode(&self, index: usize, points: &mut ArrayVec<u32, MAX_LINE_LEN>)
        requires { index < length self.now }
        ensures { slice_get self.now index ≡ Some points.new.items }
    {
        // Only for the proof: where a field is read, the invariant of its type is known.
        let _ = &self.text;
        let Ok(()) = decode_points(self.line(index), points) else {
            unreachable!()
        };
    }

    /// Whether the UTF-8 of the label of this number is below a key, the first `len` bytes of `key`.
    #[inline]
    fn is_below(&self, index: usize, key: &[u8], len: usize) -> bool
        requires index { index < length self.now }
        requires len { len ≤ length key.now }
        ensures { option_map (λ v. is_lt (label_cmp (utf8_of v) (take len key.now))) (slice_get self.now index) ≡
            Some result }
    {
        let (text, label_len) = self.text_from(index);
        order_of(text, label_len, key, len).is_lt()
    }

    /// Two numbers between which the first label from number `from` on is that is no less than the label of which the
    /// first `len` bytes of `key` are the UTF-8. It looks at one label after each step.
    fn enclose(&self, from: usize, key: &[u8], len: usize) -> (usize, usize)
        requires from { from ≤ length self.now }
        requires len { len ≤ length key.now }
        ensures { (label : List ℕ) → utf8_of label ≡ take len key.now →
            IsBetween self.now from label result.0 result.1 }
    {
        let mut low = from;
        let mut step = 1;
        while step <= self.len() - low {
            let place = low + step - 1;
            if !self.is_below(place, key, len) {
                return (low, place);
            }
            low = place + 1;
            step = step.saturating_mul(STEP_GROWTH);
        }
        (low, self.len())
    }

    /// The number of the first label from number `from` on that is no less than this label, or how many labels there
    /// are if all are less. It looks at few labels if that one is near.
    pub fn first_from(&self, from: usize, label: &[u32]) -> usize
        requires from { from ≤ length self.now }
        requires short { length label.now ≤ 63 }
        requires scalar_values { AreScalarValues label.now }
        ensures { IsFirstFrom self.now from label.now result }
    {
        // Only for the proof: the contract of `len` says that the labels are in label order.
        let _count = self.len();
        let mut key = [0; MAX_KEY_LEN];
        let len = put_points(label, &mut key, 0);
        let (mut low, mut high) = self.enclose(from, &key, len);
        while low < high {
            let middle = low + (high - low) / 2;
            if self.is_below(middle, &key, len) {
                low = middle + 1;
            } else {
                high = middle;
            }
        }
        low
    }
}

ghost use Rattle.idn_label.specs.OldNames.{before_mark, has_mark};
ghost use Rattle.registered_labels.specs.Texts.{line_refusal, fault_of};

/// The end of a line, and whether it is known to have only lower-case letters, digits and hyphens of ASCII.
#[derive(Clone, Copy)]
struct LineEnd {
    end: usize,
    is_ldh: bool,
}

/// The place of the first line feed of a text from a place on, or the text's end if there is none. Where the letters,
/// digits and hyphens of most lines end, the line does, so these octets are looked at once.
#[inline]
fn line_end(text: &[u8], at: usize) -> LineEnd
    requires { at < length text.now }
    ensures end { IsLineEnd text.now at result.end }
    ensures ldh { result.is_ldh ≡ true → list_all is_ldh_point (slice_range text.now at result.end) ≡ true }
{
    let ldh = ldh_end(text, at);
    let end = feed_from(text, ldh);
    LineEnd {
        end,
        is_ldh: ldh == end,
    }
}

/// The place of the first line feed of a text from a place on, or the text's end if there is none.
#[inline]
fn feed_from(text: &[u8], at: usize) -> usize
    requires { at ≤ length text.now }
    ensures { IsLineEnd text.now at result }
{
    if at < text.len() && text[at] == b'\n' {
        return at;
    }
    match memchr(b'\n', &text[at..]) {
        Some(place) => at + place,
        None => text.len(),
    }
}

/// Tests a line as a label that may be registered, or as an old one if it ends in the mark, and returns how many of its
/// bytes are the label: one carriage return at its end doesn't count. Of some lines it is known that they are
/// lower-case letters, digits and hyphens of ASCII.
/// `room` is room for the work.
fn read_label(
    alloc: Global,
    line: &[u8],
    is_ldh: bool,
    room: &mut [u32; MAX_LINE_LEN],
    properties: Properties,
) -> Result<usize, Refusal>
    requires { is_ldh ≡ true → list_all is_ldh_point line.now ≡ true }
    ensures read { IfOk result (λ len. IsReadAs properties line.now len (chars (take len line.now))) }
    ensures refused { IfErr result (λ refusal. refusal ≢ Refusal.Memory →
        line_refusal properties (body_of line.now) ≡ Some refusal) }
{
    if line.len() > MAX_LINE_LEN {
        return Err(Refusal::LineTooLong);
    }
    let body = without_carriage_return(line);
    match marked_label(body, is_ldh) {
        Some(label) => match test_old_utf8(label, room) {
            Ok(()) => Ok(label.len()),
            Err(refusal) => Err(refusal),
        },
        None => match test_utf8(alloc, body, is_ldh, room, properties) {
            Ok(()) => Ok(body.len()),
            Err(refusal) => Err(refusal),
        },
    }
}

/// What stands before the mark of an old label, if a body ends in it. Of some bodies it is known that they are
/// lower-case letters, digits and hyphens of ASCII, so that they don't.
#[inline]
fn marked_label(body: &[u8], is_ldh: bool) -> Option<&[u8]>
    requires { is_ldh ≡ true → list_all is_ldh_point body.now ≡ true }
    ensures marked { IfSome result (λ label. (has_mark body.now ≡ true) × (label.now ≡ before_mark body.now)) }
    ensures other { IfNone result (has_mark body.now ≡ false) }
{
    if is_ldh { None } else { before_mark(body) }
}

/// The fault of a line that is refused. Lack of memory is no fault of a line.
fn refused(line: u64, refusal: Refusal) -> RegisteredFileFault
    ensures { result ≡ fault_of line refusal }
{
    match refusal {
        Refusal::Memory => RegisteredFileFault::Memory,
        _ => RegisteredFileFault::Refused { line, refusal },
    }
}
