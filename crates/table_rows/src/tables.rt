//! What tables are read and written as. A run writes rulesets alone.
use std::alloc::Global;
use std::process::Abort;
use std::test::Fail;
use variant_table::{Notation, Table, TableFault};

/// The table of a text is written so.
fn assert_written(rt: &impl Abort, alloc: Global, text: &[u8], wanted: &[u8]) -> Result<(), Fail> {
    let table = Table::read(alloc, Notation::Table, text)?;
    let written = table.write_table(alloc)?;
    assert_eq!(rt; written.as_slice(), wanted);
    Ok(())
}

#[test]
fn table_of_version_1(rt: HostRuntime) -> Result<(), Fail> {
    let text = b"u+0061 | 0062 : 0063-0064\r\n";
    assert_written(&rt, rt.alloc(), text, b"0061|0062:0063-0064\n")
}

#[test]
fn table_of_version_2(rt: HostRuntime) -> Result<(), Fail> {
    let text = b"%version 2\n0061..0062\n00DF|!0073-0073";
    assert_written(
        &rt,
        rt.alloc(),
        text,
        b"%version 2\n0061\n0062\n00DF|!0073-0073\n",
    )
}

#[test]
fn fault_of_a_table(rt: HostRuntime) {
    let read = Table::read(rt.alloc(), Notation::Table, b"0061\n0061|\n");
    assert_eq!(rt; read.err(), Some(TableFault::Syntax { line: 2 }));
}
