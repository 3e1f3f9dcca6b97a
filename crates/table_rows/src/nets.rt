//! Variant graphs for the tests of searches.
ghost use Rattle.std.specs.Prelude.{◌≤◌, length, All, IfOk};
ghost use Rattle.idn_text.specs.Points.{AreScalarValues};

use std::alloc::Global;
use std::test::Fail;
use variant_list::Net;
use variant_table::{Notation, Table};

/// The variant graph of a label of 1 to 63 code points under the table that a text spells.
pub fn net(alloc: Global, table: &[u8], label: &[u32]) -> Result<Net, Fail>
    requires some { 1 ≤ length label.now }
    requires short { length label.now ≤ 63 }
    ensures { IfOk result (λ net. All AreScalarValues net.spelled) }
{
    let table = Table::read(alloc, Notation::Table, table)?;
    Ok(Net::build(alloc, &table, label)?)
}
