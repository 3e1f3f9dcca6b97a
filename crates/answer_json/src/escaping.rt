//! Texts as strings of JSON (RFC 8259, section 7).
ghost use Rattle.std.specs.Prelude.{◌≡◌, ◌≤◌, ◌<◌, ◌+◌, ◌*◌, ◌++◌, length, take, true};
ghost use Rattle.std.specs.Char.{digit_char};
ghost use Rattle.json.specs.Print.{escape, escape_byte};
ghost use Rattle.answer_json.specs.inner.Texts.{is_plain, is_plain_byte};

use crate::room::{MAX_OBJECT_LEN, ObjectRoom, put_byte, put_bytes};
use std::simd::Simd;
use std::simd::prelude::*;

/// How many bytes are copied and looked at at once.
const WINDOW_LEN: usize = 16;

/// Writes a text with the shortest escape of each byte that needs one: the quotation mark, the backslash, and what is
/// below the space.
#[tactic(auto, using(crate::proofs::Plain::escape_plain))]
pub(crate) fn put_escaped(out: &mut ObjectRoom, at: usize, text: &[u8]) -> usize
    requires { at + 6 * length text.now ≤ MAX_OBJECT_LEN }
    ensures escaped { take result out.new ≡ take at out.old ++ escape text.now }
    ensures end { result ≤ at + 6 * length text.now }
{
    let end = at + text.len();
    // Few texts have a byte that needs an escape.
    if copy_plain(&mut out[at..end], text) {
        end
    } else {
        put_each(out, at, text)
    }
}

/// Copies a text, and tells whether none of its bytes needs an escape. Windows of one length are copied and looked at,
/// the last of which may share bytes with the one before it.
#[inline(always)]
fn copy_plain(copy: &mut [u8], text: &[u8]) -> bool
    requires { length copy.old ≡ length text.now }
    ensures plain { result ≡ is_plain text.now }
    ensures copied { copy.new ≡ text.now }
{
    if text.len() < WINDOW_LEN {
        return copy_short(copy, text);
    }
    let last = text.len() - WINDOW_LEN;
    let mut plain = true;
    let mut at = 0;
    while at < last {
        let end = at + WINDOW_LEN;
        plain &= copy_window::<WINDOW_LEN>(&mut copy[at..end], &text[at..end]);
        at = end;
    }
    plain & copy_window::<WINDOW_LEN>(&mut copy[last..], &text[last..])
}

/// Copies a text that is shorter than a window, and tells whether none of its bytes needs an escape.
#[inline(always)]
fn copy_short(copy: &mut [u8], text: &[u8]) -> bool
    requires short { length text.now < WINDOW_LEN }
    requires same_length { length copy.old ≡ length text.now }
    ensures plain { result ≡ is_plain text.now }
    ensures copied { copy.new ≡ text.now }
{
    if text.len() >= 8 {
        copy_ends::<8>(copy, text)
    } else if text.len() >= 4 {
        copy_ends::<4>(copy, text)
    } else {
        copy_few(copy, text)
    }
}

/// Copies a text of `N` to `2 * N` bytes, by its first `N` and its last `N` bytes, and tells whether none needs an
/// escape.
#[inline(always)]
fn copy_ends<const N: usize>(copy: &mut [u8], text: &[u8]) -> bool
    requires few { N ≤ 64 }
    requires shorter { N ≤ length text.now }
    requires all { length text.now ≤ 2 * N }
    requires same_length { length copy.old ≡ length text.now }
    ensures plain { result ≡ is_plain text.now }
    ensures copied { copy.new ≡ text.now }
{
    let last = text.len() - N;
    copy_window::<N>(&mut copy[..N], &text[..N])
        & copy_window::<N>(&mut copy[last..], &text[last..])
}

/// Copies a text of `N` bytes at once, and tells whether none of them needs an escape.
#[inline(always)]
fn copy_window<const N: usize>(copy: &mut [u8], text: &[u8]) -> bool
    requires few { N ≤ 64 }
    requires window { length text.now ≡ N }
    requires same_length { length copy.old ≡ N }
    ensures plain { result ≡ is_plain text.now }
    ensures copied { copy.new ≡ text.now }
{
    let bytes = Simd::<u8, N>::from_slice(text);
    bytes.copy_to_slice(copy);
    let escaped = bytes.simd_eq(Simd::splat(b'"'))
        | bytes.simd_eq(Simd::splat(b'\\'))
        | bytes.simd_lt(Simd::splat(b' '));
    escaped.to_bitmask() == 0
}

/// Copies a text byte by byte, and tells whether none of its bytes needs an escape.
#[inline(always)]
fn copy_few(copy: &mut [u8], text: &[u8]) -> bool
    requires { length copy.old ≡ length text.now }
    ensures plain { result ≡ is_plain text.now }
    ensures copied { copy.new ≡ text.now }
{
    let mut plain = true;
    for at in 0..text.len() {
        copy[at] = text[at];
        plain &= is_plain_byte(text[at]);
    }
    plain
}

fn is_plain_byte(byte: u8) -> bool
    ensures { result ≡ is_plain_byte byte }
{
    (byte >= b' ') & (byte != b'"') & (byte != b'\\')
}

/// Writes a text with what stands for each byte.
#[cold]
#[inline(never)]
fn put_each(out: &mut ObjectRoom, at: usize, text: &[u8]) -> usize
    requires { at + 6 * length text.now ≤ MAX_OBJECT_LEN }
    ensures escaped { take result out.new ≡ take at out.old ++ escape text.now }
    ensures end { result ≤ at + 6 * length text.now }
{
    let mut end = at;
    for byte in text {
        end = put_escape(out, end, *byte);
    }
    end
}

/// Writes what stands for a byte.
#[inline]
#[tactic(auto, unfolding(json::specs::Print::escape_byte))]
fn put_escape(out: &mut ObjectRoom, at: usize, byte: u8) -> usize
    requires { at + 6 ≤ MAX_OBJECT_LEN }
    ensures bytes { take result out.new ≡ take at out.old ++ escape_byte byte }
    ensures end { result ≤ at + 6 }
{
    let letter = match byte {
        b'"' | b'\\' => byte,
        8 => b'b',
        12 => b'f',
        b'\n' => b'n',
        b'\r' => b'r',
        b'\t' => b't',
        0..32 => {
            let digits = put_bytes(out, at, b"\\u00");
            let last = put_byte(out, digits, hex_digit(byte / 16));
            return put_byte(out, last, hex_digit(byte % 16));
        }
        _ => return put_byte(out, at, byte),
    };
    let end = put_byte(out, at, b'\\');
    put_byte(out, end, letter)
}

/// The hexadecimal digit of a number, in lower case.
fn hex_digit(number: u8) -> u8
    requires { number ≤ 15 }
    ensures { result ≡ digit_char number }
{
    if number < 10 {
        b'0' + number
    } else {
        b'a' + (number - 10)
    }
}
