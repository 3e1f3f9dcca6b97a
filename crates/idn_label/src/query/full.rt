//! Lookup of any name, by all of UTS 46.
ghost use Rattle.std.specs.Prelude.{◌≡◌, ◌≢◌, Err};
ghost use Rattle.idna.specs.Display.{IsPlain};
ghost use Rattle.idna.specs.declared.options.Hyphens.TheVariants.{Allow};
ghost use Rattle.idn_label.specs.Answers.{Gives};
ghost use Rattle.idn_label.specs.Lookup.{deny_list, utf8_answer};

use crate::query::buffers::Query;
use idn_text::Refusal;
use idna::uts46::verify_dns_length;
use idna::{AsciiDenyList, Errors, domain_to_ascii_cow};
use std::alloc::Global;
use std::str;

/// Leaves in `query` what `lookup_utf8` answers.
// Not inlined: it is long, and most names do not come here.
#[inline(never)]
pub(crate) fn full_lookup(
    alloc: Global,
    name: &[u8],
    std3: bool,
    query: &mut Query,
) -> Result<(), Refusal>
    ensures answer { Gives (λ _. query.new.items) result (utf8_answer name.now std3) }
    ensures no_memory { IsPlain (deny_list std3) Allow name.now → result ≢ Err Refusal.Memory }
{
    let ascii = match domain_to_ascii_cow(alloc, name, deny_list(std3)) {
        Ok(ascii) => ascii,
        Err(Errors::Invalid) if str::from_utf8(name).is_err() => return Err(Refusal::NotUtf8),
        Err(Errors::Invalid) => return Err(Refusal::LookupInvalid),
        Err(Errors::OutOfMemory) => return Err(Refusal::Memory),
    };
    let text = ascii.as_str();
    if !verify_dns_length(text, true) {
        return Err(Refusal::LookupLength);
    }
    query.clear();
    let Ok(()) = query.try_extend_from_slice(text.as_bytes()) else {
        unreachable!()
    };
    Ok(())
}

/// The ASCII characters that lookup refuses: with `std3` all but letters, digits, hyphens and full stops (UTS 46
/// section 4.1, UseSTD3ASCIIRules).
pub fn deny_list(std3: bool) -> AsciiDenyList
    ensures { result ≡ deny_list std3 }
{
    if std3 {
        AsciiDenyList::STD3
    } else {
        AsciiDenyList::EMPTY
    }
}
