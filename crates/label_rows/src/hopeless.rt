//! Beginnings after which no label can be registered, whatever follows. `idn_class/specs/WorkedRows.antt` has more.
use idn_class::{Properties, hopeless, hopeless_by, shortest_hopeless};

/// Lists, and how long their shortest dead prefix is by the profile and by Unicode (RFC 5893, section 2): Latin in
/// Hebrew; after Hebrew U+02C6, which is ON by Unicode, and U+0CBF, which is L by Unicode.
#[test]
fn by_the_profile_and_by_unicode(rt: HostRuntime) {
    let rows: [(&[u32], Option<usize>, Option<usize>); 3] = [
        (&[0x5D0, 0x5D1, 0x61, 0x5D2], Some(3), Some(3)),
        (&[0x5D0, 0x2C6], Some(2), None),
        (&[0x5D0, 0xCBF], None, Some(2)),
    ];
    for (list, by_profile, by_unicode) in rows {
        assert_eq!(rt;
            (shortest_hopeless(list, Properties::Profile), hopeless(list)),
            (by_profile, by_profile.is_some())
        );
        assert_eq!(rt;
            (
                shortest_hopeless(list, Properties::Unicode),
                hopeless_by(list, Properties::Unicode)
            ),
            (by_unicode, by_unicode.is_some())
        );
    }
}
