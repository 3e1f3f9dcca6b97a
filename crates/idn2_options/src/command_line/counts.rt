//! The numbers of `--limit`, `--tries` and `--steps`.
ghost use Rattle.std.specs.Prelude.{◌≡◌, ◌≤◌};
ghost use Rattle.std.specs.Char.{is_ascii_digit};
ghost use Rattle.std.specs.List.{list_all};
ghost use Rattle.idn2_options.specs.Words.{count_of, is_numeral, is_within, number_of, steps_of};

/// The greatest count.
const MAX_COUNT: u64 = 1_000_000_000;

/// The most digits of a count.
const MAX_COUNT_DIGITS: usize = 10;

/// The least number of steps: with one alone, a listing that goes on in the midst of a dead prefix would come to
/// each label of it.
const MIN_STEPS: u64 = 2;

/// The greatest number of steps.
const MAX_STEPS: u64 = 1_000_000_000_000_000_000;

/// The most digits of a number of steps.
const MAX_STEPS_DIGITS: usize = 19;

/// The number that 1 to 10 ASCII digits write, where it is in 1..=1,000,000,000. A sign or a space
/// is no digit.
pub(crate) fn count_of(text: &str) -> Option<u64>
    ensures { result ≡ count_of text.now }
{
    number_of(text, MAX_COUNT_DIGITS, 1, MAX_COUNT)
}

/// The number that 1 to 19 ASCII digits write, where it is in 2..=10^18.
pub(crate) fn steps_of(text: &str) -> Option<u64>
    ensures { result ≡ steps_of text.now }
{
    number_of(text, MAX_STEPS_DIGITS, MIN_STEPS, MAX_STEPS)
}

/// The number that so many ASCII digits at most write, at least one, where it is in `least..=greatest`.
fn number_of(text: &str, digits: usize, least: u64, greatest: u64) -> Option<u64>
    requires { digits ≤ 19 }
    ensures { result ≡ number_of digits least greatest text.now }
{
    if !is_numeral(text, digits) {
        return None;
    }
    let number = text.parse::<u64>().ok()?;
    is_within(least, greatest, number).then_some(number)
}

fn is_numeral(text: &str, digits: usize) -> bool
    ensures { result ≡ is_numeral digits text.now }
{
    1 <= text.len() && text.len() <= digits && has_only_digits(text)
}

fn has_only_digits(text: &str) -> bool
    ensures { result ≡ list_all is_ascii_digit text.now }
{
    text.as_bytes().iter().all(|byte| byte.is_ascii_digit())
}

fn is_within(least: u64, greatest: u64, number: u64) -> bool
    ensures { result ≡ is_within least greatest number }
{
    least <= number && number <= greatest
}
