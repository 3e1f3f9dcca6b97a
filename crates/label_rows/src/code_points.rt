//! Classes of code points that the look-up leaves open, so that memory is taken.
use idn_class::{Class, Properties, class_of, class_of_by};

/// ǰ and İ: RFC 5892, appendix B.1, has the first as PVALID and the second as DISALLOWED.
#[test]
fn classes_that_take_memory(rt: HostRuntime) {
    for (c, class) in [(0x1F0, Class::Pvalid), (0x130, Class::Disallowed)] {
        assert_eq!(rt; class_of(rt.alloc(), c), Ok(class), "U+{c:04X}");
        assert_eq!(rt;
            class_of_by(rt.alloc(), c, Properties::Unicode),
            Ok(class),
            "U+{c:04X}"
        );
    }
}
