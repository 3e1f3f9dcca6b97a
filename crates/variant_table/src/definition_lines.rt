//! The lines of a ruleset that define something.
ghost use Rattle.std.specs.Prelude.{◌≡◌, ◌<◌, ◌^◌, length, IfSome};
ghost use Rattle.variant_table.specs.LinePlaces as places;
ghost use Rattle.variant_table.specs.declared.fault.TableFault.{TableFault};
ghost use Rattle.variant_table.specs.inner.ReadingSteps.{told_in};

use crate::fault::TableFault;
use crate::version::Version;
use ruleset_text::{DefinitionFault, DefinitionLine};

/// A line by its keyword, if it begins with one. Versions 1 and 2 have none.
pub fn definition_line(version: Version, line: &[u8]) -> Option<DefinitionLine<'_>>
    ensures line { result ≡ places.definition_line version line.now }
    ensures few { IfSome result (λ defining. length defining.after < 2 ^ 63) }
{
    match version {
        Version::One | Version::Two => None,
        Version::Three => DefinitionLine::begun(line).ok(),
    }
}

/// The fault of a table whose line of this number has this fault in its definition.
pub fn fault_in(number: u64, fault: DefinitionFault) -> TableFault
    ensures { result ≡ told_in number fault }
{
    match fault {
        DefinitionFault::Syntax => TableFault::Syntax { line: number },
        DefinitionFault::Limit => TableFault::Limit { line: number },
        DefinitionFault::NoSuchName => TableFault::NoSuchName { line: number },
        DefinitionFault::BadClass => TableFault::BadClass { line: number },
        DefinitionFault::SameName => TableFault::SameName { line: number },
        DefinitionFault::Memory => TableFault::Memory,
    }
}
