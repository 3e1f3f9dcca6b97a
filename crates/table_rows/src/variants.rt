//! The accepted labels of a variant graph, by a filter: how tries are counted, what is passed over, and what lack of
//! memory leaves. A run lists by `seek`.
ghost use Rattle.std.specs.Prelude.{◌≡◌};
ghost use Rattle.table_rows.specs.Filters.{begins_with, begins-once};

use crate::nets::net;
use std::alloc::{AllocError, Global};
use std::process::Abort;
use std::test::Fail;
use variant_list::{Cursor, Filter, Step};

/// Accepts the labels that begin with `c`, or has no memory for them. A prefix that begins with `a` is dead.
struct BeginsWithC {
    has_memory: bool,
}

impl Filter for BeginsWithC {
    ghost accepted = { λ _ v. begins_with 0x63 v };

    ghost dead = { λ _ w. begins_with 0x61 w };

    ghost dead_for_good = { λ _ w z dead. begins-once w z dead };

    fn accepts(&self, _alloc: Global, label: &[u32]) -> Result<bool, AllocError> {
        if !begins_with(0x63, label) {
            return Ok(false);
        }
        if self.has_memory {
            Ok(true)
        } else {
            Err(AllocError)
        }
    }

    fn hopeless(&self, label: &[u32]) -> bool {
        begins_with(0x61, label)
    }
}

/// Whether a label begins with a code point.
fn begins_with(point: u32, label: &[u32]) -> bool
    ensures { result ≡ begins_with point label.now }
{
    match label {
        [] => false,
        [first, ..] => *first == point,
    }
}

/// `ad` spells ad and ae, which share a dead prefix and take no try; b, which is not accepted; and c.
#[test]
fn tries_are_counted(rt: HostRuntime) -> Result<(), Fail> {
    let alloc = rt.alloc();
    let table = b"0061-0064|0061-0065:0062:0063\n";
    let net = net(alloc, table, &[0x61, 0x64])?;
    let mut cursor = Cursor::new(alloc, &net, &[])?;
    assert_steps(&rt, alloc, &mut cursor);
    Ok(())
}

/// What a new cursor comes to. The label for which there was no memory comes next, and the one before it stays counted.
fn assert_steps(rt: &impl Abort, alloc: Global, cursor: &mut Cursor<'_>) {
    let filter = &BeginsWithC { has_memory: true };
    let without_memory = &BeginsWithC { has_memory: false };
    let mut tries = 2;
    let step = cursor.next_variant(alloc, without_memory, &mut tries);
    assert!(rt; step.is_err() && tries == 1);
    let step = cursor.next_variant(alloc, filter, &mut tries);
    assert!(rt; matches!(step, Ok(Step::Found([0x63]))) && tries == 0);
    let step = cursor.next_variant(alloc, filter, &mut tries);
    assert!(rt; matches!(step, Ok(Step::Spent)) && tries == 0);
    tries = 1;
    let step = cursor.next_variant(alloc, filter, &mut tries);
    assert!(rt; matches!(step, Ok(Step::Ended)) && tries == 1);
}
