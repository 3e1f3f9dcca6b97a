//! Prints the source of the tables of code points, `src/class_table.rt` of the crate `idn_class`,
//! from the Unicode tables of the kit. Nothing rests on this program being right: `idn_class` proves
//! that the tables it holds say what its definitions say, and a wrong table is refused there.
//!
//! For a new version of Unicode run it in this folder, as `rt run > stdout`, copy `stdout` over
//! `../idn_class/src/class_table.rt`, and run the gate.
#![tactic(auto)]

mod entry;
mod facts;
mod print;
mod trie;

use crate::entry::number_of;
use crate::facts::absent_facts;
use crate::print::print_tables;
use crate::trie::Trie;

fn main(rt: HostRuntime) -> anyhow::Result<()> {
    let classes = Trie::new::<4, 8, _>(rt.alloc(), &|c| number_of(c))?;
    let facts = Trie::new::<8, 16, _>(rt.alloc(), &|c| absent_facts(c))?;
    print_tables(&rt, &classes, &facts)?;
    Ok(())
}
