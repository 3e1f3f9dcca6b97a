//! Names of which UTS 46 keeps or maps each code point, and of which NFC changes nothing, by the facts of each. Most
//! names past ASCII are such: their octets are read once, and their lookup takes neither memory nor a normalization.
ghost use Rattle.std.specs.Prelude.{◌≡◌, ◌≤◌, ◌++◌, Bool, [], ◌∷◌, map, flat_map};
ghost use Rattle.std.specs.Prelude.{chars, length, false, true, Some, OnSome, IfSome, IsTrue, IsUtf8, All};
ghost use Rattle.idna.specs.declared.options.Hyphens.TheVariants.{Allow};
ghost use Rattle.idna.specs.declared.options.DnsLength.TheVariants.{Ignore};
ghost use Rattle.idna.specs.Labels.{labels_of, join_labels};
ghost use Rattle.idna.specs.Uts46.{map_char, to_ascii, verify_dns_length};
ghost use Rattle.idna.specs.Validity.{begins_with_mark};
ghost use Rattle.idn_class.specs.Facts.{AreFactsOf};
ghost use Rattle.idn_label.specs.ALabel.{a_label_of};
ghost use Rattle.idn_label.specs.inner.SimpleNames.{AreAppended, Cover, IsTested};
ghost use Rattle.idn_label.specs.Lookup.{deny_list};

use crate::a_label::ALabelEncoder;
use crate::bidi::passes_bidi_rule;
use crate::full_stops::label_end;
use crate::query::buffers::{LookupBuffers, Mapped, Query};
use crate::query::lengths::{has_label_length, may_end};
use crate::unit::{has_ace_prefix, is_all_ascii};
use idn_class::{Fact, Facts, MAX_LABEL_LEN};
use idn_text::character_at;
use ucd_idna_map::{IdnaStatus, idna_mapping};
use unicode_normalization::IsNormalized;
use unicode_normalization::slice::is_nfc_quick;

/// Leaves in `buffers.query` what ToASCII (UTS 46 section 4.2) gives of a name in UTF-8, where that has the lengths
/// that the DNS allows. `None` says nothing of the name, and all of UTS 46 then gives the answer: the name is no UTF-8,
/// a code point needs more tests, NFC may change the name, a label begins with `xn--`, or the Bidi rule or a length is
/// not met.
// Not inlined: it is long, and most names do not come here.
#[inline(never)]
pub(crate) fn simple_query(name: &[u8], buffers: &mut LookupBuffers) -> Option<()>
    ensures answer { OnSome result ((std3 : Bool) →
        to_ascii (deny_list std3) Allow Ignore name.now ≡ Some buffers.new.query.items) }
    ensures lengths { OnSome result (verify_dns_length buffers.new.query.items true ≡ true) }
{
    let LookupBuffers {
        mapped,
        encoder,
        query,
    } = buffers;
    let facts = map_name(name, mapped)?;
    if facts.contains(Fact::MayCompose) {
        let IsNormalized::Yes = is_nfc_quick(mapped) else {
            return None;
        };
    }
    write_a_labels(mapped, facts, encoder, query)?;
    Some(())
}

/// Leaves in `mapped` what UTS 46 maps a name in UTF-8 to, if all of that passes and there is space. Returns its facts.
#[inline]
fn map_name(name: &[u8], mapped: &mut Mapped) -> Option<Facts>
    ensures utf8 { OnSome result (IsUtf8 name.now) }
    ensures mapped { IfSome result (λ facts.
        AreAppended [] mapped.new.items (flat_map map_char (chars name.now)) facts) }
{
    mapped.clear();
    let mut facts = Facts::none();
    let mut at = 0;
    while at < name.len() {
        let (c, next) = character_at(name, at)?;
        facts = facts.joined(push_mapped(c, mapped)?);
        at = next;
    }
    Some(facts)
}

/// Appends what UTS 46 maps a code point to, if all of that passes and there is space. Returns the facts of what is
/// appended.
#[inline]
fn push_mapped(c: char, mapped: &mut Mapped) -> Option<Facts>
    ensures { IfSome result (λ facts. AreAppended mapped.old.items mapped.new.items (map_char c) facts) }
{
    let facts = Facts::of(c as u32);
    if !facts.contains(Fact::NotKept) {
        return push_kept(c, facts, mapped);
    }
    match IdnaStatus::for_char(c) {
        IdnaStatus::Mapped => push_mapping(idna_mapping(c), mapped),
        _ => None,
    }
}

/// Appends code points, if each passes and there is space. Returns their facts.
fn push_mapping(points: &[char], mapped: &mut Mapped) -> Option<Facts>
    ensures { IfSome result (λ facts. AreAppended mapped.old.items mapped.new.items points.now facts) }
{
    let mut facts = Facts::none();
    for c in points {
        facts = facts.joined(push_kept(*c, Facts::of(*c as u32), mapped)?);
    }
    Some(facts)
}

/// Appends a code point, if it passes and there is space. Most are simple; of the others of ASCII the full stop passes.
#[inline]
fn push_kept(c: char, facts: Facts, mapped: &mut Mapped) -> Option<Facts>
    requires { AreFactsOf facts (c ∷ []) }
    ensures { IfSome result (λ facts. AreAppended mapped.old.items mapped.new.items (c ∷ []) facts) }
{
    if !facts.is_empty() && c != '.' {
        if c.is_ascii() || facts.contains(Fact::NotKept) || facts.contains(Fact::Contextj) {
            return None;
        }
    }
    mapped.try_push(c).ok()?;
    Some(facts)
}

/// Leaves in `query` the A-labels of the labels of a name, if each passes, and they and the whole have the lengths that
/// the DNS allows. `facts` are those of the name.
#[inline]
fn write_a_labels(
    name: &[char],
    facts: Facts,
    encoder: &mut ALabelEncoder,
    query: &mut Query,
) -> Option<()>
    requires { AreFactsOf facts name.now }
    ensures tested { OnSome result (All (IsTested facts) (labels_of name.now)) }
    ensures short { OnSome result (All (λ label. length (a_label_of label) ≤ 63) (labels_of name.now)) }
    ensures written { OnSome result (query.new.items ≡ join_labels (map a_label_of (labels_of name.now))) }
    ensures lengths { OnSome result (verify_dns_length query.new.items true ≡ true) }
{
    query.clear();
    let mut start = 0;
    'labels: loop {
        let end = label_end(name, start);
        let begin = query.len();
        if !label_passes(&name[start..end], facts) {
            return None;
        }
        push_a_label(&name[start..end], encoder, query)?;
        if end == name.len() {
            return if may_end(begin, query.len()) {
                Some(())
            } else {
                None
            };
        }
        if !has_label_length(begin, query.len()) {
            return None;
        }
        query.try_push(b'.').ok()?;
        start = end + 1;
    }
}

/// Whether a label in NFC of which each code point passes is valid and not too long. One that begins with `xn--`, in
/// ASCII or not, would have to be decoded first.
#[inline]
fn label_passes(label: &[char], facts: Facts) -> bool
    requires { Cover facts label.now }
    ensures { IsTrue result → IsTested facts label.now }
{
    if label.len() > MAX_LABEL_LEN || has_ace_prefix(label) || begins_with_mark(label, facts) {
        return false;
    }
    !facts.contains(Fact::RightToLeft) || passes_bidi_rule(label)
}

fn begins_with_mark(label: &[char], facts: Facts) -> bool
    requires { Cover facts label.now }
    ensures { result ≡ false → begins_with_mark label.now ≡ false }
{
    let [first, ..] = label else {
        return false;
    };
    facts.contains(Fact::Mark) && Facts::of(*first as u32).contains(Fact::Mark)
}

/// Appends the A-label of a label, if that has at most 63 octets and there is space.
#[inline]
fn push_a_label(label: &[char], encoder: &mut ALabelEncoder, query: &mut Query) -> Option<()>
    requires { length label.now ≤ 63 }
    ensures { OnSome result (query.new.items ≡ query.old.items ++ a_label_of label.now) }
{
    if !is_all_ascii(label) {
        return query.try_extend_from_slice(encoder.encode(label)?).ok();
    }
    for c in label {
        query.try_push(*c as u8).ok()?;
    }
    Some(())
}
