//! Reading an action, lexeme by lexeme.
ghost use Rattle.std.specs.Prelude.{◌≡◌, map, IfOk};
ghost use Rattle.std.specs.Option.{option_map};
ghost use Rattle.label_patterns.specs.Trees.{pattern};
ghost use Rattle.ruleset_text.specs.ActionForms as forms;
ghost use Rattle.ruleset_text.specs.ActionSteps as steps;
ghost use Rattle.ruleset_text.specs.Definitions.{whole_names};
ghost use Rattle.ruleset_text.specs.Names.{is_one_of as is_among};
ghost use Rattle.ruleset_text.specs.inner.ActionNoted.{unknown_at};
ghost use Rattle.ruleset_text.specs.inner.DefinitionSteps.{GivesAction, known};

use crate::action::{NamedAction, NamedTrigger, TriggerKind};
use crate::fault::{FaultPlace, ReadError};
use crate::named_condition::NamedCondition;
use crate::names::{Name, is_name, is_one_of, is_type, is_word};
use crate::placed::PlacedLexemes;
use crate::reading::Earlier;
use label_patterns::{ConditionKind, is_context_rule};
use std::alloc::{AllocError, Global};
use variant_dispositions::Disposition;

/// What was read of an action.
#[derive(Drop)]
enum ActionStage {
    /// Nothing.
    Begin,
    /// A disposition, and a condition or none.
    Given(Disposition, Option<NamedCondition>),
    /// `when` or `unless` after a disposition.
    Asked(Disposition, ConditionKind),
    /// `any`, `all` or `only`; or `,` after the last of these types.
    Listing(Disposition, Option<NamedCondition>, NamedTrigger),
    /// The last of these types.
    Listed(Disposition, Option<NamedCondition>, NamedTrigger),
}

/// An action, and where its line first names what isn't defined.
#[derive(Drop)]
pub struct ReadAction {
    pub action: NamedAction,
    pub unknown: Option<FaultPlace>,
}

/// The action that lexemes spell, to the end of a line of `end` bytes.
pub fn read_action(
    alloc: Global,
    earlier: Earlier<'_>,
    mut lexemes: PlacedLexemes<'_>,
    end: usize,
) -> Result<ReadAction, ReadError>
    ensures { GivesAction (known earlier.entry) lexemes.entry end result }
{
    let mut stage = ActionStage::Begin;
    let mut unknown = None;
    while let Some((place, lexeme)) = lexemes.next() {
        let at = FaultPlace::Lexeme(place, lexeme.len());
        unknown = unknown.or(stage.unknown_place(earlier, lexeme, at));
        let Some(next) = stage.step(alloc, lexeme)? else {
            return Err(ReadError::Stop(at));
        };
        stage = next;
    }
    match stage.ended() {
        Some(action) => Ok(ReadAction { action, unknown }),
        None => Err(ReadError::Stop(FaultPlace::End(end))),
    }
}

impl ActionStage {
    /// The stage after a lexeme more, if it may stand there.
    fn step(self, alloc: Global, lexeme: &[u8]) -> Result<Option<Self>, AllocError>
        ensures { IfOk result (λ next. option_map forms.stage next ≡ steps.step (forms.stage self) lexeme.now) }
    {
        match self {
            ActionStage::Begin => Ok(begun(lexeme)),
            ActionStage::Given(disposition, None) => Ok(asked(alloc, disposition, lexeme)),
            ActionStage::Given(disposition, condition) => Ok(triggered(
                alloc,
                disposition,
                condition,
                lexeme,
            )),
            ActionStage::Asked(disposition, kind) => conditioned(alloc, disposition, kind, lexeme),
            ActionStage::Listing(disposition, condition, trigger) => listed(
                alloc,
                disposition,
                condition,
                trigger,
                lexeme,
            ),
            ActionStage::Listed(disposition, condition, trigger) => Ok(listing(
                disposition,
                condition,
                trigger,
                lexeme,
            )),
        }
    }

    /// The place of a lexeme that is to be the name of a type or of a whole-label rule, if none has it.
    fn unknown_place(
        &self,
        earlier: Earlier<'_>,
        lexeme: &[u8],
        at: FaultPlace,
    ) -> Option<FaultPlace>
        ensures { result ≡ unknown_at (known earlier.entry) (forms.stage self.now) lexeme.now at }
    {
        let is_known = match self {
            ActionStage::Asked(_, _) => is_whole_rule(earlier, lexeme),
            ActionStage::Listing(_, _, _) => is_type(earlier.types, lexeme),
            _ => true,
        };
        (!is_known).then_some(at)
    }

    /// The action, if nothing is left open.
    fn ended(self) -> Option<NamedAction>
        ensures { option_map forms.action result ≡ steps.ended (forms.stage self) }
    {
        match self {
            ActionStage::Given(disposition, condition) => Some(NamedAction {
                disposition,
                condition,
                trigger: None,
            }),
            ActionStage::Listed(disposition, condition, trigger) => Some(NamedAction {
                disposition,
                condition,
                trigger: Some(trigger),
            }),
            _ => None,
        }
    }
}

/// The stage after the first lexeme.
fn begun(lexeme: &[u8]) -> Option<ActionStage>
    ensures { option_map forms.stage result ≡ steps.step steps.Begin lexeme.now }
{
    let disposition = disposition_of(lexeme)?;
    Some(ActionStage::Given(disposition, None))
}

/// The stage after a lexeme that follows a disposition.
fn asked(alloc: Global, disposition: Disposition, lexeme: &[u8]) -> Option<ActionStage>
    ensures { option_map forms.stage result ≡ steps.by_kind disposition lexeme.now (steps.kind_of lexeme.now) }
{
    match kind_of(lexeme) {
        Some(kind) => Some(ActionStage::Asked(disposition, kind)),
        None => triggered(alloc, disposition, None, lexeme),
    }
}

/// The stage after `any`, `all` or `only`.
fn triggered(
    alloc: Global,
    disposition: Disposition,
    condition: Option<NamedCondition>,
    lexeme: &[u8],
) -> Option<ActionStage>
    ensures { option_map forms.stage result ≡ steps.by_trigger disposition condition (steps.trigger_of lexeme.now) }
{
    let kind = trigger_of(lexeme)?;
    let trigger = NamedTrigger {
        kind,
        types: Vec::new(alloc),
    };
    Some(ActionStage::Listing(disposition, condition, trigger))
}

/// The stage after the name of the rule of a condition.
fn conditioned(
    alloc: Global,
    disposition: Disposition,
    kind: ConditionKind,
    lexeme: &[u8],
) -> Result<Option<ActionStage>, AllocError>
    ensures { IfOk result (λ next. option_map forms.stage next ≡ steps.step (steps.Asked disposition kind) lexeme.now) }
{
    if !is_name(lexeme) {
        return Ok(None);
    }
    let rule = Name::copied(alloc, lexeme)?;
    let condition = Some(NamedCondition { kind, rule });
    Ok(Some(ActionStage::Given(disposition, condition)))
}

/// The stage after the name of a type, if there is none like it yet.
fn listed(
    alloc: Global,
    disposition: Disposition,
    condition: Option<NamedCondition>,
    trigger: NamedTrigger,
    lexeme: &[u8],
) -> Result<Option<ActionStage>, AllocError>
    ensures { IfOk result (λ next. option_map forms.stage next ≡
        steps.step (steps.Listing disposition condition (forms.trigger trigger)) lexeme.now) }
{
    if !is_name(lexeme) || is_one_of(&trigger.types, lexeme) {
        return Ok(None);
    }
    let NamedTrigger { kind, mut types } = trigger;
    types.push(Name::copied(alloc, lexeme)?)?;
    let trigger = NamedTrigger { kind, types };
    Ok(Some(ActionStage::Listed(disposition, condition, trigger)))
}

/// The stage after a comma.
fn listing(
    disposition: Disposition,
    condition: Option<NamedCondition>,
    trigger: NamedTrigger,
    lexeme: &[u8],
) -> Option<ActionStage>
    ensures { option_map forms.stage result ≡
        steps.step (steps.Listed disposition condition (forms.trigger trigger)) lexeme.now }
{
    match lexeme {
        b"," => Some(ActionStage::Listing(disposition, condition, trigger)),
        _ => None,
    }
}

/// Whether a whole-label rule has this name.
pub fn is_whole_rule(earlier: Earlier<'_>, name: &[u8]) -> bool
    ensures { result ≡
        is_among (whole_names earlier.entry.rule_names.now (map pattern earlier.entry.rules.now)) name.now }
{
    let names = earlier.rule_names;
    let rules = earlier.rules;
    for number in 0..names.len() {
        if number >= rules.len() {
            return false;
        }
        if names[number].as_slice() == name && !is_context_rule(&rules[number]) {
            return true;
        }
    }
    false
}

/// The disposition that a word names (RFC 7940, section 7.3).
pub fn disposition_of(word: &[u8]) -> Option<Disposition>
    ensures { result ≡ steps.disposition_of word.now }
{
    if is_word(word, b"invalid") {
        return Some(Disposition::Invalid);
    }
    if is_word(word, b"blocked") {
        return Some(Disposition::Blocked);
    }
    if is_word(word, b"allocatable") {
        return Some(Disposition::Allocatable);
    }
    if is_word(word, b"activated") {
        return Some(Disposition::Activated);
    }
    if is_word(word, b"valid") {
        return Some(Disposition::Valid);
    }
    None
}

fn kind_of(word: &[u8]) -> Option<ConditionKind>
    ensures { result ≡ steps.kind_of word.now }
{
    match word {
        b"when" => Some(ConditionKind::When),
        b"unless" => Some(ConditionKind::Unless),
        _ => None,
    }
}

fn trigger_of(word: &[u8]) -> Option<TriggerKind>
    ensures { result ≡ steps.trigger_of word.now }
{
    match word {
        b"any" => Some(TriggerKind::Any),
        b"all" => Some(TriggerKind::All),
        b"only" => Some(TriggerKind::Only),
        _ => None,
    }
}
