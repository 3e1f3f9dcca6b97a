//! The first action that is triggered.
ghost use Rattle.std.specs.Prelude.{◌≡◌};
ghost use Rattle.variant_dispositions.specs.Kinds.{kinds_in};
ghost use Rattle.variant_dispositions.specs.Actions.{first_triggered, disposition};

use crate::action::{Action, TypeTrigger};
use crate::disposition::Disposition;
use crate::kinds::{ACTIVATED, ALLOCATABLE, BLOCKED, INVALID, PREDEFINED};
use crate::label_rules::LabelRules;

/// The default actions (RFC 7940, section 7.6).
const DEFAULT_ACTIONS: [Action; 5] = [
    Action {
        disposition: Disposition::Invalid,
        condition: None,
        types: Some(TypeTrigger::Any(INVALID)),
    },
    Action {
        disposition: Disposition::Blocked,
        condition: None,
        types: Some(TypeTrigger::Any(BLOCKED)),
    },
    Action {
        disposition: Disposition::Allocatable,
        condition: None,
        types: Some(TypeTrigger::Any(ALLOCATABLE)),
    },
    Action {
        disposition: Disposition::Activated,
        condition: None,
        types: Some(TypeTrigger::All(ACTIVATED)),
    },
    Action {
        disposition: Disposition::Valid,
        condition: None,
        types: None,
    },
];

/// The disposition of a label of which a reading records these kinds (RFC 7940, section 8.3): that of the first action
/// which it triggers, and else of the first default action.
pub fn disposition_of<R: LabelRules>(actions: &[Action], kinds: u64, rules: &R) -> Disposition
    ensures { result ≡ disposition (R.matched rules.now) actions.now (kinds_in kinds) }
{
    match first_triggered(actions, kinds, rules) {
        Some(disposition) => disposition,
        None => match first_triggered(&DEFAULT_ACTIONS, kinds & PREDEFINED, rules) {
            Some(disposition) => disposition,
            None => Disposition::Valid,
        },
    }
}

/// The disposition of the first of these actions that is triggered.
fn first_triggered<R: LabelRules>(actions: &[Action], kinds: u64, rules: &R) -> Option<Disposition>
    ensures { result ≡ first_triggered (R.matched rules.now) (kinds_in kinds) actions.now }
{
    for action in actions {
        if action.is_triggered(kinds, rules) {
            return Some(action.disposition);
        }
    }
    None
}
