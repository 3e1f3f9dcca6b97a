//! Why words are refused, in the words of a message.
ghost use Rattle.std.specs.Prelude.{◌≡◌, IfOk, None, if◌then◌else◌, map, option_map, string_bytes};
ghost use Rattle.idn2_options.specs.Causes.{misuse_told, told_by};
ghost use Rattle.idn2_options.specs.Uses.{uses_in};
ghost use Rattle.idn2_options.specs.Words.{asks_to_show};

use crate::command_line::broken_rule::BrokenRule;
use crate::command_line::misuse::{Misuse, first_wrong, told};
use crate::command_line::uses::uses;
use clap::error::ErrorKind;
use std::alloc::{AllocError, Global};

/// Why words are refused.
#[derive(Drop)]
pub enum UsageCause {
    /// They break a rule of the program.
    Rule(BrokenRule),
    /// They use an option in a wrong way. It is told by its name, `--limit`, and one that the command line hasn't as it
    /// is written, `--foo` or `-x`.
    Misused(Misuse, String),
}

impl UsageCause {
    /// The cause as a message tells it, in one line.
    pub fn text(&self, alloc: Global) -> Result<String, AllocError> {
        match self {
            UsageCause::Rule(rule) => {
                let (option, text) = rule.parts();
                format!(in alloc; "{option}{text}")
            }
            UsageCause::Misused(misuse, option) => {
                let (before, after) = misuse.parts();
                let mut text = String::from_str(alloc, before)?;
                push_escaped(&mut text, option)?;
                text.push_str(after)?;
                Ok(text)
            }
        }
    }
}

/// Why `clap` refuses words with an error of this kind, by those that may name options. Where it shows the help or the
/// version, it refuses none.
pub(crate) fn refused_by_clap(
    alloc: Global,
    words: &[String],
    kind: ErrorKind,
) -> Result<Option<UsageCause>, AllocError>
    ensures { IfOk result (λ cause. option_map told_by cause
        ≡ (if asks_to_show kind then None else misuse_told (uses_in (map string_bytes words.now)))) }
{
    if asks_to_show(kind) {
        return Ok(None);
    }
    let uses = uses(alloc, words)?;
    match first_wrong(&uses) {
        Some((misuse, this)) => Ok(Some(UsageCause::Misused(misuse, told(alloc, this)?))),
        None => Ok(None),
    }
}

fn asks_to_show(kind: ErrorKind) -> bool
    ensures { result ≡ asks_to_show kind }
{
    matches!(kind, ErrorKind::DisplayHelp | ErrorKind::DisplayVersion)
}

/// Appends a text in one line.
pub fn push_escaped(text: &mut String, word: &str) -> Result<(), AllocError> {
    for letter in word.chars() {
        push_letter(text, letter)?;
    }
    Ok(())
}

/// Appends a character; a control character or the end of a line as an escape.
fn push_letter(text: &mut String, letter: char) -> Result<(), AllocError> {
    if letter.is_control() || letter == '\u{2028}' || letter == '\u{2029}' {
        write!(text, "{}", letter.escape_unicode())
    } else {
        text.push(letter)
    }
}
