//! Code points and their UTF-8. tests/limits.py asks the program for all short texts on both sides of each edge.
use arrayvec::ArrayVec;
use idn_text::{NotUtf8, decode_points, write_points};

/// The last example of RFC 3629, section 7. Bytes that are no UTF-8 leave no code point of the text before.
#[test]
fn an_example_of_rfc_3629_section_7(rt: HostRuntime) {
    let mut points = ArrayVec::new();
    let decoded = decode_points(b"\xEF\xBB\xBF\xF0\xA3\x8E\xB4", &mut points);
    assert_eq!(rt; decoded, Ok(()));
    assert_eq!(rt; points.as_slice(), [0xFEFF, 0x2_33B4].as_slice());
    let refused = decode_points(b"a\xFF", &mut points);
    assert_eq!(rt; (refused, points.len()), (Err(NotUtf8), 0));

    let mut utf8 = ArrayVec::new();
    write_points(&[0xFEFF, 0x2_33B4], &mut utf8);
    assert_eq!(rt; utf8.as_slice(), b"\xEF\xBB\xBF\xF0\xA3\x8E\xB4".as_slice());
}
