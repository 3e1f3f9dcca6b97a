//! The candidates of a variant graph, which are the labels of the plain lister, and how many edges a search looks at for each.
use crate::nets::net;
use std::alloc::Global;
use std::collections::BTreeSet;
use std::process::Abort;
use std::test::Fail;
use variant_list::Cursor;
use variant_list::plain::all_labels;
use variant_table::{Notation, Table};

/// The sharp s of German for ss, and ss for it.
const SHARP_S: &[u8] = b"0073\n0073-0073|00DF\n00DF|0073-0073\n";

/// `sss` spells sss, sß and ßs, by nine edges. One word of each of 64 rows is enough for the six places.
#[test]
fn steps_through_three_labels(rt: HostRuntime) -> Result<(), Fail> {
    let alloc = rt.alloc();
    let labels = plain_labels(alloc)?;
    let net = net(alloc, SHARP_S, &[0x73; 3])?;
    let mut cursor = Cursor::new(alloc, &net, &[])?;
    assert_steps(&rt, &mut cursor, &labels);
    assert!(rt; net.edges() == 9 && net.shortest() == 2 && cursor.row_bits() == 4096);
    Ok(())
}

/// The labels that the plain lister has.
fn plain_labels(alloc: Global) -> Result<BTreeSet<Vec<u32>>, Fail> {
    let table = Table::read(alloc, Notation::Table, SHARP_S)?;
    Ok(all_labels(alloc, &table, &[0x73; 3])?)
}

/// The candidates are these three labels, and so many edges are looked at for each, and to find that there is none.
fn assert_steps(rt: &impl Abort, cursor: &mut Cursor<'_>, labels: &BTreeSet<Vec<u32>>) {
    for (label, looks) in labels.iter().zip([9, 6, 8]) {
        assert_eq!(rt; cursor.next_candidate(), Some(label.as_slice()));
        assert_eq!(rt; cursor.edge_tests(), looks);
    }
    assert_eq!(rt; cursor.next_candidate(), None);
    assert!(rt; cursor.edge_tests() == 4 && labels.len() == 3);
}
