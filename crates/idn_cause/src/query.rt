//! Which length the DNS does not allow of a name that is looked up (RFC 1035, section 2.3.4).
ghost use Rattle.std.specs.Prelude.{◌≡◌, ◌≢◌, length, IfOk};
ghost use Rattle.std.specs.Int.{is_in_range};
ghost use Rattle.std.specs.Option.{option_map};
ghost use Rattle.std.specs.Result.{IsOk};
ghost use Rattle.idna.specs.declared.options.Hyphens.TheVariants.{Allow};
ghost use Rattle.idna.specs.declared.options.DnsLength.TheVariants.{Ignore};
ghost use Rattle.idna.specs.Labels.{labels_of};
ghost use Rattle.idna.specs.Uts46.{to_ascii};
ghost use Rattle.idn_label.specs.Lookup.{deny_list};
ghost use Rattle.idn_cause.specs.NameLabels.{first_failing_label};
ghost use Rattle.idn_cause.specs.NameCauses.{has_label_length, length_cause, length_cause_of, query_cause};
ghost use Rattle.idn_cause.specs.NameCauses.{without_root};

use idn_class::MAX_LABEL_LEN;
use idn_label::{MAX_NAME_LEN, code_point_at, deny_list, label_end};
use idn_text::Refusal;
use idna::{Errors, domain_to_ascii_cow};
use std::alloc::{AllocError, Global};

/// A length that the DNS does not allow.
#[derive(Clone, Copy, PartialEq, Eq)]
pub enum LengthCause {
    /// The number of the first label of such a length, counted from 0, and its octets.
    LabelOctets(usize, usize),
    /// The octets of the name, more than 253.
    NameOctets(usize),
}

/// What gives a name in UTF-8 this fault at its lookup. `None` where no cause is told for the fault: ToASCII has one
/// error for all that it refuses.
#[cold]
#[tactic(auto, unfolding(crate::specs::NameCauses::query_cause))]
pub fn query_cause(
    alloc: Global,
    name: &[u8],
    std3: bool,
    refusal: Refusal,
) -> Result<Option<LengthCause>, AllocError>
    ensures cause { IfOk result (λ cause. cause ≡ query_cause name.now std3 refusal) }
    ensures no_memory { refusal ≢ Refusal.LookupLength → IsOk result }
{
    match refusal {
        Refusal::LookupLength => length_cause_of(alloc, name, std3),
        _ => Ok(None),
    }
}

/// The first length that the DNS does not allow in what ToASCII makes of a name in UTF-8. `None` where ToASCII refuses
/// the name.
fn length_cause_of(
    alloc: Global,
    name: &[u8],
    std3: bool,
) -> Result<Option<LengthCause>, AllocError>
    ensures { IfOk result (λ cause. cause ≡ length_cause_of (to_ascii (deny_list std3) Allow Ignore name.now)) }
{
    match domain_to_ascii_cow(alloc, name, deny_list(std3)) {
        Ok(ascii) => Ok(length_cause(ascii.as_str().as_bytes())),
        Err(Errors::Invalid) => Ok(None),
        Err(Errors::OutOfMemory) => Err(AllocError),
    }
}

/// The first label of a wrong length, else the octets of the name, if they are too many.
fn length_cause(ascii: &[u8]) -> Option<LengthCause>
    ensures { result ≡ length_cause ascii.now }
{
    let name = without_root(ascii);
    if let Some((number, octets)) = wrong_label(name) {
        return Some(LengthCause::LabelOctets(number, octets));
    }
    if name.len() > MAX_NAME_LEN {
        return Some(LengthCause::NameOctets(name.len()));
    }
    None
}

/// A name without the full stop at its end.
fn without_root(name: &[u8]) -> &[u8]
    ensures { result.now ≡ without_root name.now }
{
    let last = name.len().saturating_sub(1);
    if code_point_at(name, last) == '.' as u32 {
        &name[..last]
    } else {
        name
    }
}

/// The number of the first label of a wrong length, and its octets.
fn wrong_label(name: &[u8]) -> Option<(usize, usize)>
    ensures { result ≡ option_map (λ found. (found.0, length found.1))
        (first_failing_label has_label_length 0 (labels_of name.now)) }
{
    let mut start = 0;
    let mut number = 0;
    'labels: loop {
        let end = label_end(name, start);
        if !has_label_length(end - start) {
            return Some((number, end - start));
        }
        if end == name.len() {
            return None;
        }
        start = end + 1;
        number += 1;
    }
}

/// Whether a label may have so many octets.
fn has_label_length(octets: usize) -> bool
    ensures { result ≡ is_in_range 1 63 octets }
{
    1 <= octets && octets <= MAX_LABEL_LEN
}
