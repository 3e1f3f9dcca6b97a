//! How many jumps find those of the registered labels that a label spells: which they are is what runs tell. The numbers
//! were worked out by hand.
use crate::nets::net;
use idn_class::Properties;
use registered_labels::{Collisions, RegisteredLabels};
use std::process::Abort;
use std::test::Fail;

/// `aaaa` spells each label of four letters a or b. After aaab the search begins at abba, jumps from abc over abz and ac to
/// baab, and ends with the jump from c.
#[test]
fn jumps_to_each_collision(rt: HostRuntime) -> Result<(), Fail> {
    let alloc = rt.alloc();
    let net = net(alloc, b"0061|0062\n0062|0061\n", &[0x61; 4])?;
    let file = b"aa\nabba\nabc\nabz\nac\nbaab\nc\nzoo\n";
    let registered = RegisteredLabels::read(alloc, file, Properties::Profile)?;
    let after = [0x61, 0x61, 0x61, 0x62];
    let mut search = Collisions::new(alloc, &net, &registered, &after)?;
    assert_jumps(&rt, &mut search);
    Ok(())
}

/// The numbers of the registered labels that are found, and how many jumps were made by then.
fn assert_jumps(rt: &impl Abort, search: &mut Collisions<'_, '_>) {
    for wanted in [(Some(1), 1), (Some(5), 3), (None, 4)] {
        assert_eq!(rt; (search.advance(), search.jumps()), wanted);
    }
}
