//! The types of a ruleset that no action names.
ghost use Rattle.std.specs.Prelude.{◌≡◌, map, IfOk};
ghost use Rattle.ruleset_text.specs.ActionForms.{action as form_of};
ghost use Rattle.ruleset_text.specs.Names.{is_one_of as is_among};
ghost use Rattle.variant_table.specs.IdleTypes.{asked_types, idle_types as idle_types_of, is_asked as is_asked_by};

use ruleset_text::{Definitions, Name, NamedAction, is_one_of};
use std::alloc::{AllocError, Global};

/// The names of the types that are defined and that no action names, in the order of their lines.
pub fn idle_types(alloc: Global, definitions: &Definitions) -> Result<Vec<Name>, AllocError>
    ensures { IfOk result (λ names. names.items ≡ idle_types_of definitions.now) }
{
    let (types, actions) = (definitions.types(), definitions.actions());
    let mut idle = Vec::new(alloc);
    for name in types {
        if !is_asked(actions, name.as_slice()) {
            idle.push(Name::copied(alloc, name.as_slice())?)?;
        }
    }
    Ok(idle)
}

/// Whether some action names the type.
fn is_asked(actions: &[NamedAction], name: &[u8]) -> bool
    ensures { result ≡ is_asked_by (map form_of actions.now) name.now }
{
    actions.iter().any(|action| asks_for(action, name))
}

fn asks_for(action: &NamedAction, name: &[u8]) -> bool
    ensures { result ≡ is_among (asked_types (form_of action.now).trigger) name.now }
{
    match &action.trigger {
        Some(trigger) => is_one_of(&trigger.types, name),
        None => false,
    }
}
