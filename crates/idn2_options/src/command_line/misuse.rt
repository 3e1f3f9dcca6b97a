//! In which way the use of an option may be wrong, and the first use that is wrong.
ghost use Rattle.std.specs.Prelude.{◌≡◌, ◌++◌, [], IfOk, codes, map, option_map, string_bytes};
ghost use Rattle.std.specs.List.{list_any};
ghost use Rattle.idn2_options.specs.Uses.{are_of_one, begins_unknown, first_wrong, has_needless_value, is_unknown};
ghost use Rattle.idn2_options.specs.Uses.{known_rules, lacks_value, misuse_in, told};
ghost use Rattle.idn2_options.specs.inner.Shown.{use_of};

use crate::command_line::uses::{Named, Use};
use std::alloc::{AllocError, Global};

/// What is wrong with the use of an option.
#[derive(Clone, Copy, PartialEq, Eq)]
pub enum Misuse {
    /// There is no such option.
    Unknown,
    /// It takes a value, and has none.
    WithoutValue,
    /// It was used before.
    Repeated,
    /// It takes no value, and has one.
    WithValue,
}

impl Misuse {
    /// What a message says in front of the option, and after it.
    pub(crate) fn parts(self) -> (&'static str, &'static str) {
        match self {
            Misuse::Unknown => ("unknown option '", "'"),
            Misuse::WithoutValue => ("", " takes a value"),
            Misuse::Repeated => ("", " is given twice"),
            Misuse::WithValue => ("", " takes no value"),
        }
    }
}

/// The first of the uses that is wrong, and what is wrong with it.
pub(crate) fn first_wrong<'u, 'w>(uses: &'u [Use<'w>]) -> Option<(Misuse, &'u Use<'w>)>
    ensures { option_map (λ wrong. (wrong.0, use_of wrong.1.now)) result
        ≡ first_wrong known_rules [] (map use_of uses.now) }
{
    for (place, this) in uses.iter().enumerate() {
        if let Some(misuse) = misuse_in(&uses[..place], this, &uses[place + 1..]) {
            return Some((misuse, this));
        }
    }
    None
}

/// How a use between these uses is wrong, if it is.
fn misuse_in(before: &[Use<'_>], this: &Use<'_>, after: &[Use<'_>]) -> Option<Misuse>
    ensures { result ≡ misuse_in known_rules (map use_of before.now) (use_of this.now) (map use_of after.now) }
{
    if is_unknown(this) {
        Some(Misuse::Unknown)
    } else if has_needless_value(this) {
        Some(Misuse::WithValue)
    } else if lacks_value(this) && !begins_unknown(after) {
        Some(Misuse::WithoutValue)
    } else if is_repeated(before, this) {
        Some(Misuse::Repeated)
    } else {
        None
    }
}

fn is_unknown(this: &Use<'_>) -> bool
    ensures { result ≡ is_unknown known_rules (use_of this.now) }
{
    this.known().is_none()
}

fn begins_unknown(uses: &[Use<'_>]) -> bool
    ensures { result ≡ begins_unknown known_rules (map use_of uses.now) }
{
    match uses.first() {
        Some(this) => is_unknown(this),
        None => false,
    }
}

fn is_repeated(before: &[Use<'_>], this: &Use<'_>) -> bool
    ensures { result ≡ list_any (are_of_one known_rules (use_of this.now)) (map use_of before.now) }
{
    before.iter().any(|other| are_of_one(this, other))
}

fn lacks_value(this: &Use<'_>) -> bool
    ensures { result ≡ lacks_value known_rules (use_of this.now) }
{
    match this.known() {
        Some(known) => known.takes_value() && !(this.attached.is_some() || this.next.is_some()),
        None => false,
    }
}

fn has_needless_value(this: &Use<'_>) -> bool
    ensures { result ≡ has_needless_value known_rules (use_of this.now) }
{
    match this.known() {
        Some(known) => !known.takes_value() && this.attached.is_some(),
        None => false,
    }
}

fn are_of_one(this: &Use<'_>, other: &Use<'_>) -> bool
    ensures { result ≡ are_of_one known_rules (use_of this.now) (use_of other.now) }
{
    match (this.known(), other.known()) {
        (Some(known), Some(same)) => same.name() == known.name(),
        _ => false,
    }
}

/// The option of the use as a message tells it.
pub(crate) fn told(alloc: Global, this: &Use<'_>) -> Result<String, AllocError>
    ensures { IfOk result (λ option. string_bytes option ≡ told known_rules (use_of this.now)) }
{
    match (this.known(), this.option) {
        (Some(known), _) => long(alloc, known.name()),
        (None, Named::Name(name)) => long(alloc, name),
        (None, Named::Letter(letter)) => {
            let mut option = String::from_str(alloc, "-")?;
            option.push(letter)?;
            Ok(option)
        }
    }
}

fn long(alloc: Global, name: &str) -> Result<String, AllocError>
    ensures { IfOk result (λ option. string_bytes option ≡ codes "--" ++ name.now) }
{
    let mut option = String::from_str(alloc, "--")?;
    option.push_str(name)?;
    Ok(option)
}
