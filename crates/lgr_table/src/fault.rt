//! Why a ruleset has no table.
ghost use Rattle.std.specs.Prelude.{◌≡◌, ℕ, Bool};
ghost use Rattle.lgr_table.specs.Faults.{IsFaultOfTable};
ghost use Rattle.lgr_table.specs.declared.fault.TableError.TheVariants.{Fault, Memory};
ghost use Rattle.lgr_table.specs.inner.FaultSteps.{IsLimitOn, TellsDisposition, TellsOfDefinition};
ghost use Rattle.lgr_text.specs.DefinitionOrder.{IsOrderFault};
ghost use Rattle.lgr_text.specs.declared.records.Ruleset as held;

use lgr_text::{OrderError, RuleError, RuleFault};
use ruleset_text::DefinitionFault;
use std::alloc::{AllocError, AllocFailed};

/// What is wrong with a ruleset of which no table is made.
#[derive(Clone, Copy, PartialEq, Eq)]
pub enum TableFault {
    /// It is no document of XML, or not one of RFC 7940.
    Syntax,
    /// An entry has the source of an earlier one.
    SameSource,
    /// A variant is one that its entry has before it, unless each has a condition and the two conditions differ.
    SameVariant,
    /// A code point whose class is none of PVALID, CONTEXTJ and CONTEXTO, where none may be left out.
    BadClass,
    /// It is one entry, variant, code point, type, class, rule, action or atom too many, or the canonical text is too
    /// long with it.
    Limit,
    /// A class, a rule or a tag is named that isn't defined, or a definition is part of itself.
    NoSuchName,
    /// A class or a rule has the name of an earlier one.
    SameName,
    /// The standard allows it, and no table says it: a variant of no code points, a reflexive variant with a condition,
    /// an anchor in a rule that an action asks for, or a property or a disposition that isn't known.
    NotSupported,
}

/// Why a ruleset has no table.
#[derive(Clone, Copy, PartialEq, Eq)]
pub enum TableError {
    /// What is wrong, and the line of the element that has it, counted from 1.
    Fault { fault: TableFault, line: usize },
    /// Memory was refused.
    Memory,
}

impl From<AllocError> for TableError {
    ghost from_gives = { λ _ e. e ≡ Memory };

    fn from(_: AllocError) -> Self {
        TableError::Memory
    }
}

impl<T: Drop> From<AllocFailed<T>> for TableError {
    ghost from_gives = { λ _ e. e ≡ Memory };

    fn from(_: AllocFailed<T>) -> Self {
        TableError::Memory
    }
}

impl TableError {
    /// Why the definitions of a file have no order.
    pub(crate) fn of_order(error: OrderError) -> Self
        ensures { (may : ℕ → Bool) (r : held.Ruleset) → IsOrderFault r.definitions.items error →
            IsFaultOfTable may r result }
    {
        match error {
            OrderError::Limit(line) => TableFault::Limit.on(line),
            OrderError::Repeated(line) => TableFault::SameName.on(line),
            OrderError::Undefined(line) => TableFault::NoSuchName.on(line),
            OrderError::Circular(line) => TableFault::NoSuchName.on(line),
            OrderError::Memory => TableError::Memory,
        }
    }

    /// Why the definition on this line is no set and no pattern.
    pub(crate) fn of_rule(error: RuleError, line: usize) -> Self
        ensures { (may : ℕ → Bool) (r : held.Ruleset) → TellsOfDefinition may r line error →
            IsFaultOfTable may r result }
    {
        match error {
            RuleError::Fault(RuleFault::Undefined) => TableFault::NoSuchName.on(line),
            RuleError::Fault(RuleFault::Misplaced) => TableFault::Syntax.on(line),
            RuleError::Fault(RuleFault::NotSupported) => TableFault::NotSupported.on(line),
            RuleError::Fault(RuleFault::Limit) => TableFault::Limit.on(line),
            RuleError::Memory => TableError::Memory,
        }
    }

    /// Why the table doesn't take the definition that stands on this line.
    pub(crate) fn of_definition(fault: DefinitionFault, line: usize) -> Self
        ensures { IsLimitOn line result }
    {
        match fault {
            DefinitionFault::Limit => TableFault::Limit.on(line),
            // Only for lack of memory: its pattern has the form of the notation (`pattern_of_rule`), its name is new, and
            // what it names is defined. Of the last two no clause says it.
            _ => TableError::Memory,
        }
    }

    /// Why the action on this line is none of a table: its disposition.
    pub(crate) fn of_action(error: RuleError, line: usize) -> Self
        ensures { TellsDisposition error line result }
    {
        match error {
            RuleError::Fault(RuleFault::NotSupported) => TableFault::NotSupported.on(line),
            // Never but for lack of memory: its rule was looked up before, and its types are defined.
            _ => TableError::Memory,
        }
    }
}

impl TableFault {
    /// The fault of the element on this line.
    pub(crate) fn on(self, line: usize) -> TableError
        ensures { result ≡ Fault self line }
    {
        TableError::Fault { fault: self, line }
    }
}
