//! Lookup of a name.
ghost use Rattle.std.specs.Prelude.{◌≡◌, ◌≢◌, ◌≤◌, length, take, string_bytes, Err, IfOk};
ghost use Rattle.idn_text.specs.Points.{AreScalarValues};
ghost use Rattle.idn_label.specs.Answers.{Gives};
ghost use Rattle.idn_label.specs.Lookup.{utf8_answer, lookup_answer};
ghost use Rattle.idn_label.specs.Memory.{LooksUpWithoutMemory};

mod buffers;
mod full;
mod ldh;
mod lengths;
mod simple;

use crate::code_points::to_char;
pub use buffers::LookupBuffers;
pub use full::deny_list;
use full::full_lookup;
use idn_text::Refusal;
use ldh::ldh_query;
pub use lengths::MAX_NAME_LEN;
use lengths::MAX_QUERY_LEN;
use simple::simple_query;
use std::alloc::Global;
use std::str;

/// The name as a query sends it: the ToASCII operation of UTS 46 without transitional processing, with the checks of
/// joiners and of the Bidi rule, and with UseSTD3ASCIIRules if `std3`. A full stop at its end stays. Only tests call
/// this: a run calls `lookup_utf8`, which gives the same answer for the bytes of a line.
///
/// `LookupInvalid` where that operation refuses the name, and `LookupLength` where its answer, a full stop at the end
/// put aside, has not 1 to 253 octets or a label of it not 1 to 63. `Memory` says nothing of the name.
pub fn lookup(alloc: Global, name: &[u32], std3: bool) -> Result<String, Refusal>
    requires { AreScalarValues name.now }
    ensures { Gives string_bytes result (lookup_answer name.now std3) }
{
    let mut text = String::with_capacity(alloc, name.len())?;
    for c in name {
        text.push(to_char(*c))?;
    }
    let mut room = [0; MAX_QUERY_LEN];
    let mut buffers = LookupBuffers::new();
    let len = lookup_utf8(alloc, text.as_bytes(), std3, &mut buffers, &mut room)?;
    let Ok(query) = str::from_utf8(&room[..len]) else {
        unreachable!()
    };
    Ok(String::from_str(alloc, query)?)
}

/// Writes into `room` the octets that `lookup` answers of a name in UTF-8 (RFC 3629), and returns how many: at most
/// 254. Other bytes are refused as `NotUtf8`; where the name is refused, what is left in `room` says nothing. A name in
/// ASCII without capitals takes no memory where none of its labels begins with `xn--` and, with `std3`, it has only
/// letters, digits, hyphens and full stops. Nor does one of at most 254 octets that has only these, capitals too.
/// `buffers` are room for the work: what stood there before says nothing.
pub fn lookup_utf8(
    alloc: Global,
    name: &[u8],
    std3: bool,
    buffers: &mut LookupBuffers,
    room: &mut [u8],
) -> Result<usize, Refusal>
    requires { 254 ≤ length room.old }
    ensures answer { Gives (λ len. take len room.new) result (utf8_answer name.now std3) }
    ensures short { IfOk result (λ len. len ≤ 254) }
    ensures length { length room.new ≡ length room.old }
    ensures no_memory { LooksUpWithoutMemory std3 name.now → result ≢ Err Refusal.Memory }
{
    if let Some(answer) = ldh_query(name, room) {
        return answer;
    }
    match simple_query(name, buffers) {
        Some(()) => {}
        None => full_lookup(alloc, name, std3, &mut buffers.query)?,
    }
    let len = buffers.query.len();
    room[..len].copy_from_slice(&buffers.query);
    Ok(len)
}
