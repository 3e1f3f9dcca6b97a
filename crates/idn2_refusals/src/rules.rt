//! The rules that refused labels break, as objects and messages name them: by document and section.
ghost use Rattle.std.specs.Prelude.{◌≡◌, ◌≤◌, ◌++◌, codes, length};
ghost use Rattle.idn2_refusals.specs.RuleTexts.{a_label_rule, appendix_rule, barring_rule, bidi_rule};
ghost use Rattle.idn2_refusals.specs.RuleTexts.{bidi_text, bidi_words, demand_text, named, punycode_rule, words_alone};
ghost use Rattle.idn2_refusals.specs.ToldCauses.{rule_of};
ghost use Rattle.ruleset_text.specs.Actions.{kind_word};

use idn_class::{BarringLine, BidiClass, BidiCondition};
use label_patterns::ConditionKind;
use ruleset_text::DemandKind;

/// A rule, and the words that stand before it and after it in a message.
#[derive(Clone, Copy)]
pub(crate) struct Rule<'a> {
    pub before: &'static [u8],
    pub rule: &'a [u8],
    pub after: &'static [u8],
}

impl<'a> Rule<'a> {
    /// Words of a message alone, and no rule.
    pub(crate) fn words_alone(before: &'static [u8]) -> Rule<'a>
        ensures { rule_of result ≡ words_alone before.now }
    {
        Rule {
            before,
            rule: b"",
            after: b"",
        }
    }

    /// A rule after a colon.
    pub(crate) fn named(rule: &'a [u8]) -> Rule<'a>
        ensures { rule_of result ≡ named rule.now }
    {
        Rule {
            before: b": ",
            rule,
            after: b"",
        }
    }
}

/// The line that bars a code point.
pub(crate) fn rule_of_line(line: BarringLine) -> Rule<'static>
    ensures rule { rule_of result ≡ barring_rule line }
    ensures before { length result.before.now ≤ 24 }
    ensures short { length result.rule.now ≤ 64 }
    ensures after { length result.after.now ≤ 24 }
{
    let (before, rule, after): (&[u8], &[u8], &[u8]) = match line {
        BarringLine::NoScalarValue => (b": ", b"no scalar value", b""),
        BarringLine::OutsideProfile => (b": outside the ", b"profile", b""),
        BarringLine::Exceptions => (b": ", b"RFC 5892 2.6", b" Exceptions"),
        BarringLine::Unassigned => (b": ", b"RFC 5892 2.10", b" Unassigned"),
        BarringLine::Unstable => (b": ", b"RFC 5892 2.2", b" Unstable"),
        BarringLine::IgnorableProperties => (b": ", b"RFC 5892 2.3", b" IgnorableProperties"),
        BarringLine::IgnorableBlocks => (b": ", b"RFC 5892 2.4", b" IgnorableBlocks"),
        BarringLine::OldHangulJamo => (b": ", b"RFC 5892 2.9", b" OldHangulJamo"),
        BarringLine::NoLetterDigit => (b": not ", b"RFC 5892 2.1", b" LetterDigits"),
    };
    Rule {
        before,
        rule,
        after,
    }
}

/// What stands for no label is no Punycode.
pub(crate) fn rule_of_punycode() -> Rule<'static>
    ensures { rule_of result ≡ punycode_rule }
{
    Rule {
        before: b"not ",
        rule: b"RFC 3492 6.2",
        after: b" Punycode",
    }
}

/// What begins with `xn--` is no A-label.
pub(crate) fn rule_of_a_label() -> Rule<'static>
    ensures { rule_of result ≡ a_label_rule }
{
    Rule {
        before: b", with place 4: not ",
        rule: b"RFC 5890 2.3.2.1",
        after: b" A-label",
    }
}

/// The rule of appendix A for a code point.
pub(crate) fn rule_of_appendix(point: u32) -> &'static [u8]
    ensures text { result.now ≡ appendix_rule point }
    ensures short { length result.now ≤ 64 }
{
    match point {
        0x200C => b"RFC 5892 A.1",
        0x200D => b"RFC 5892 A.2",
        0xB7 => b"RFC 5892 A.3",
        0x375 => b"RFC 5892 A.4",
        0x5F3 => b"RFC 5892 A.5",
        0x5F4 => b"RFC 5892 A.6",
        0x30FB => b"RFC 5892 A.7",
        0x660..=0x66F => b"RFC 5892 A.8",
        _ => b"RFC 5892 A.9",
    }
}

/// A condition of the Bidi rule, as an object names it.
pub(crate) fn rule_of_condition(condition: BidiCondition) -> &'static [u8]
    ensures text { result.now ≡ bidi_rule condition }
    ensures short { length result.now ≤ 64 }
{
    match condition {
        BidiCondition::First => b"RFC 5893 2 condition 1",
        BidiCondition::RtlHolds => b"RFC 5893 2 condition 2",
        BidiCondition::RtlEnds => b"RFC 5893 2 condition 3",
        BidiCondition::RtlNumbers => b"RFC 5893 2 condition 4",
        BidiCondition::LtrHolds => b"RFC 5893 2 condition 5",
        BidiCondition::LtrEnds => b"RFC 5893 2 condition 6",
    }
}

/// The same as a message names it: with a comma after the section.
pub(crate) fn words_of_condition(condition: BidiCondition) -> Rule<'static>
    ensures { rule_of result ≡ bidi_words condition }
{
    let (_, rule) = rule_of_condition(condition).split_at(b"RFC 5893 2 ".len());
    Rule {
        before: b": RFC 5893 2, ",
        rule,
        after: b"",
    }
}

/// The name of a Bidi_Class.
pub(crate) fn name_of_class(class: BidiClass) -> &'static [u8]
    ensures text { result.now ≡ bidi_text class }
    ensures short { length result.now ≤ 3 }
{
    match class {
        BidiClass::L => b"L",
        BidiClass::R => b"R",
        BidiClass::AL => b"AL",
        BidiClass::AN => b"AN",
        BidiClass::EN => b"EN",
        BidiClass::ES => b"ES",
        BidiClass::CS => b"CS",
        BidiClass::ET => b"ET",
        BidiClass::ON => b"ON",
        BidiClass::BN => b"BN",
        BidiClass::NSM => b"NSM",
        BidiClass::Other => b"-",
    }
}

/// The word for what is asked of a rule.
pub(crate) fn word_of_condition(kind: ConditionKind) -> &'static [u8]
    ensures text { result.now ≡ kind_word kind }
    ensures short { length result.now ≤ 6 }
{
    match kind {
        ConditionKind::When => b"when",
        ConditionKind::Unless => b"unless",
    }
}

/// The word for what a demand asks.
pub(crate) fn word_of_demand(kind: DemandKind) -> &'static [u8]
    ensures text { result.now ≡ demand_text kind }
    ensures short { length result.now ≤ 6 }
{
    match kind {
        DemandKind::Never => b"never",
        DemandKind::Always => b"always",
    }
}
