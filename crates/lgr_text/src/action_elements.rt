//! Actions (RFC 7940, section 7), read from elements.
ghost use Rattle.std.specs.Prelude.{◌≡◌, codes, option_map};
ghost use Rattle.lgr_text.specs.Actions as actions;
ghost use Rattle.lgr_text.specs.Elements.{Content};
ghost use Rattle.lgr_text.specs.Records as records;
ghost use Rattle.lgr_text.specs.inner.Reading.{AreOf, Reads, node};

use crate::element::Element;
use crate::fault::ReadError;
use crate::names::NameKind;
use crate::records::{Action, Trigger};
use ruleset_text::TriggerKind;
use std::alloc::Global;

/// The action that an element says.
pub fn read_action(alloc: Global, element: &Element<'_>) -> Result<Action, ReadError>
    ensures { (c : Content) → AreOf element.now.within c →
        Reads records.action (actions.action_of (node element.now c)) result }
{
    element.check_plain(
        b"disp match not-match any-variant all-variants only-variants comment ref",
    )?;
    element.action(alloc)
}

impl<'a> Element<'a> {
    /// The action that the attributes give.
    fn action(&self, alloc: Global) -> Result<Action, ReadError>
        ensures { Reads records.action (actions.action_by self.now.attributes.now) result }
    {
        let text = self.needed(b"disp")?;
        let disposition = self.name_in(alloc, NameKind::Type, text)?;
        let condition = self.condition(alloc, b"match", b"not-match")?;
        let trigger = self.trigger(alloc)?;
        Ok(Action {
            disposition,
            condition,
            trigger,
            line: self.line,
        })
    }

    /// The types that it asks for, in one way at most.
    fn trigger(&self, alloc: Global) -> Result<Option<Trigger>, ReadError>
        ensures { Reads (option_map records.trigger) (actions.trigger_by self.now.attributes.now) result }
    {
        let any = self.value(b"any-variant");
        let all = self.value(b"all-variants");
        let only = self.value(b"only-variants");
        match (any, all, only) {
            (None, None, None) => Ok(None),
            (Some(any), None, None) => self.triggered(alloc, TriggerKind::Any, any),
            (None, Some(all), None) => self.triggered(alloc, TriggerKind::All, all),
            (None, None, Some(only)) => self.triggered(alloc, TriggerKind::Only, only),
            _ => Err(self.wrong()),
        }
    }

    fn triggered(
        &self,
        alloc: Global,
        kind: TriggerKind,
        text: &[u8],
    ) -> Result<Option<Trigger>, ReadError>
        ensures { Reads (option_map records.trigger) (actions.triggered kind text.now) result }
    {
        match NameKind::Type.names_of(alloc, text)? {
            Some(types) => Ok(Some(Trigger { kind, types })),
            None => Err(self.wrong()),
        }
    }
}
