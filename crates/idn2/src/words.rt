//! The words of the process.

use crate::fault::Fault;
use idn2_cli::{asks_for_causes, push_escaped};
use std::alloc::{AllocError, Global};
use std::env::{self, Env};
use std::io::ErrorKind;

/// As many bytes as Linux lets a word have.
const MAX_WORD_LEN: usize = 131_072;

/// The words of the command line. A word that is not UTF-8 can't be an option, a line or a path.
pub fn words(rt: &HostRuntime) -> Result<Vec<String>, Fault> {
    let mut words = Vec::new(rt.alloc());
    match env::args(rt) {
        Ok(args) => {
            for word in args {
                words.push(word)?;
            }
            Ok(words)
        }
        Err(error) if error.kind() == ErrorKind::OutOfMemory => Err(Fault::Memory),
        Err(_) => Err(Fault::Usage(cause_of_bytes(rt).unwrap_or(None))),
    }
}

/// The first word that is not UTF-8, if causes are asked for among the words.
fn cause_of_bytes(rt: &HostRuntime) -> Result<Option<String>, AllocError> {
    let mut room = vec![in rt.alloc(); 0; MAX_WORD_LEN]?;
    let (mut words, mut cause) = (Vec::new(rt.alloc()), None);
    for number in 0..usize::MAX {
        let Ok(len) = rt.arg(number, room.as_mut_slice()) else {
            break;
        };
        let (word, is_text) = shown(rt.alloc(), &room[..len])?;
        if cause.is_none() && !is_text {
            cause = Some(format!(in rt.alloc(); "'{word}' is not UTF-8")?);
        }
        words.push(word)?;
    }
    Ok(if asks_for_causes(&words) { cause } else { None })
}

/// A word in one line, each byte of it that is not UTF-8 by its digits; and whether it has none.
fn shown(alloc: Global, word: &[u8]) -> Result<(String, bool), AllocError> {
    let (mut text, mut is_text) = (String::new(alloc), true);
    for chunk in word.utf8_chunks() {
        push_escaped(&mut text, chunk.valid())?;
        for byte in chunk.invalid() {
            write!(text, "\\x{byte:02X}")?;
            is_text = false;
        }
    }
    Ok((text, is_text))
}
