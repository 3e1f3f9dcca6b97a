//! Punycode of labels: a sample with a capital, which no run encodes, and each kind of unit. The other samples of
//! RFC 3492, section 7.1, stand in conformance/label_rows.py.
use arrayvec::ArrayString;
use idn_punycode::{DecodedLabel, Encoder};

/// Sample L, after a text of three octets.
#[test]
fn a_sample_of_rfc_3492_section_7_1(rt: HostRuntime) {
    let mut text = ArrayString::<63>::new();
    text.push_str("xn-");
    let label = ['3', '年', 'B', '組', '金', '八', '先', '生'];
    let fits = Encoder::new().push_encoded(&label, &mut text).is_ok();
    assert_eq!(rt;
        (fits, text.as_str()),
        (true, "xn-3B-ww4c5e180e575a65lsy2b")
    );
}

#[test]
fn a_text_stays_where_nothing_fits(rt: HostRuntime) {
    let mut text = ArrayString::<63>::new();
    text.push_str("a text of 59 octets, which leaves no room for the five more");
    let before = text;
    let fits = Encoder::new()
        .push_encoded(&['\u{10FFFF}'], &mut text)
        .is_ok();
    assert_eq!(rt; fits, false, "{text}");
    assert_eq!(rt; text.as_str(), before.as_str());
}

/// From octets, of which capital letters are digits, too, from numbers and from characters.
#[test]
fn decoded_from_each_unit(rt: HostRuntime) {
    let mut label = DecodedLabel::new();
    assert_eq!(rt; label.decode(b"bcher-KVA").is_ok(), true);
    assert_eq!(rt;
        label.as_slice(),
        [0x62, 0xFC, 0x63, 0x68, 0x65, 0x72].as_slice()
    );
    assert_eq!(rt; label.decode(&[0x74u32, 0x64, 0x61]).is_ok(), true);
    assert_eq!(rt; label.as_slice(), [0xFC].as_slice());
    assert_eq!(rt; label.decode(&['4', 'c', 'a']).is_ok(), true);
    assert_eq!(rt; label.as_slice(), [0xE4].as_slice());
    assert_eq!(rt; label.decode(b"bcher_kva").is_ok(), false);
}
