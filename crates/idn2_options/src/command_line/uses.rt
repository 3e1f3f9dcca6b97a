//! The uses of options in words.
ghost use Rattle.std.specs.Prelude.{◌≡◌, ◌<◌, ◌^◌, ◌++◌, IfOk, OnOk, codes, drop, length, map, option_map};
ghost use Rattle.std.specs.Prelude.{string_bytes};
ghost use Rattle.std.specs.Str.{bytes_eq, chars};
ghost use Rattle.clap.specs.Lexer.{long_of, name_and_value, short_of, strip_byte};
ghost use Rattle.idn2_options.specs.Names.{explain_name};
ghost use Rattle.idn2_options.specs.Uses.{asks_for_causes, front, known_rules, names_options, rule_of, uses_by};
ghost use Rattle.idn2_options.specs.Uses.{uses_in};
ghost use Rattle.idn2_options.specs.Uses.{value_in};
ghost use Rattle.idn2_options.specs.inner.Known.{shown_by, shown_of};
ghost use Rattle.idn2_options.specs.inner.Shown.{use_of, uses_by_letters};

use crate::command_line::arguments::EXPLAIN;
use crate::command_line::known::Known;
use std::alloc::{AllocError, Global};

/// An option as a word names it.
#[derive(Clone, Copy)]
pub(crate) enum Named<'w> {
    /// By its name: `--limit`.
    Name(&'w str),
    /// By its letter: `-r`.
    Letter(char),
}

/// One use of an option.
#[derive(Clone, Copy)]
pub(crate) struct Use<'w> {
    pub(crate) option: Named<'w>,
    /// What stands after `=`.
    pub(crate) attached: Option<&'w str>,
    /// The word after its own, unless that names options.
    pub(crate) next: Option<&'w str>,
}

impl Use<'_> {
    /// What the command line knows of the option.
    pub(crate) fn known(&self) -> Option<Known>
        ensures { option_map shown_by result ≡ option_map shown_of (rule_of known_rules (use_of self.now).option) }
    {
        match self.option {
            Named::Name(name) => Known::by_name(name),
            Named::Letter(letter) => Known::by_letter(letter),
        }
    }
}

/// Whether causes are asked for among the words, which may be refused: `--explain` stands before `--`.
pub fn asks_for_causes(words: &[String]) -> bool
    ensures { result ≡ asks_for_causes (map string_bytes words.now) }
{
    front(words).iter().any(|word| is_explain(word))
}

fn is_explain(word: &str) -> bool
    ensures { result ≡ bytes_eq word.now (codes "--" ++ explain_name) }
{
    word.strip_prefix("--") == Some(EXPLAIN)
}

/// The uses of options in words that may name them.
pub(crate) fn uses<'w>(alloc: Global, words: &'w [String]) -> Result<Vec<Use<'w>>, AllocError>
    ensures { IfOk result (λ uses. map use_of uses.items ≡ uses_in (map string_bytes words.now)) }
{
    let mut uses = Vec::new(alloc);
    let mut left = words;
    while let Some((word, rest)) = left.split_first() {
        push_uses(&mut uses, word, value_in(rest))?;
        left = rest;
    }
    Ok(uses)
}

/// The words that may name options: those after the program's name, and in front of `--`.
pub(crate) fn front(words: &[String]) -> &[String]
    ensures words { map string_bytes result.now ≡ front (map string_bytes words.now) }
    ensures few { length (drop 1 words.now) < 2 ^ 64 }
{
    let words = after_name(words);
    match words.iter().position(|word| word.as_str() == "--") {
        Some(end) => &words[..end],
        None => words,
    }
}

/// The words after the program's name, which is the first.
fn after_name(words: &[String]) -> &[String]
    ensures { result.now ≡ drop 1 words.now }
{
    match words.split_first() {
        Some((_program, words)) => words,
        None => words,
    }
}

/// The first of the words, unless it names options.
fn value_in(words: &[String]) -> Option<&str>
    ensures { option_map (λ word. word.now) result ≡ value_in (map string_bytes words.now) }
{
    match words.first() {
        Some(word) if !names_options(word) => Some(word),
        _ => None,
    }
}

fn names_options(word: &str) -> bool
    ensures { result ≡ names_options word.now }
{
    name_in(word).is_some() || letters_in(word).is_some()
}

/// Appends the uses of the options that a word names, in front of what may be a value.
fn push_uses<'w>(
    uses: &mut Vec<Use<'w>>,
    word: &'w str,
    next: Option<&'w str>,
) -> Result<(), AllocError>
    ensures { OnOk result (map use_of uses.new.items ≡ map use_of uses.old.items
        ++ uses_by word.entry.now (option_map (λ text. text.now) next.entry)) }
{
    match name_in(word) {
        Some((name, attached)) => {
            let option = Named::Name(name);
            Ok(uses.push(Use {
                option,
                attached,
                next,
            })?)
        }
        None => match letters_in(word) {
            Some(letters) => push_letters(uses, letters, next),
            None => Ok(()),
        },
    }
}

fn push_letters<'w>(
    uses: &mut Vec<Use<'w>>,
    letters: &str,
    next: Option<&'w str>,
) -> Result<(), AllocError>
    ensures { OnOk result (map use_of uses.new.items ≡ map use_of uses.old.items
        ++ uses_by_letters (chars letters.now) (option_map (λ text. text.now) next.entry)) }
{
    for letter in letters.chars() {
        let option = Named::Letter(letter);
        uses.push(Use {
            option,
            attached: None,
            next,
        })?;
    }
    Ok(())
}

/// What stands between `--` and the first `=`, or the end; and what stands after the `=`.
fn name_in(word: &str) -> Option<(&str, Option<&str>)>
    ensures { option_map (λ parts. (parts.0.now, option_map (λ value. value.now) parts.1)) result ≡ long_of word.now }
{
    let rest = without_dash(without_dash(word)?)?;
    if rest.is_empty() {
        return None;
    }
    Some(name_and_value(rest))
}

/// What stands before the first `=`, or all of it; and what stands after the `=`.
fn name_and_value(text: &str) -> (&str, Option<&str>)
    ensures { (result.0.now, option_map (λ value. value.now) result.1) ≡ name_and_value text.now }
{
    match text.split_once('=') {
        Some((name, value)) => (name, Some(value)),
        None => (text, None),
    }
}

/// What follows the dash of `-abc`.
fn letters_in(word: &str) -> Option<&str>
    ensures { option_map (λ letters. letters.now) result ≡ short_of word.now }
{
    let rest = without_dash(word)?;
    if rest.is_empty() || without_dash(rest).is_some() {
        None
    } else {
        Some(rest)
    }
}

/// What follows a first dash.
fn without_dash(word: &str) -> Option<&str>
    ensures { option_map (λ rest. rest.now) result ≡ strip_byte 45 word.now }
{
    word.strip_prefix('-')
}
