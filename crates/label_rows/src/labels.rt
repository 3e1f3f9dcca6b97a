//! Labels and names by their code points, each call once where it succeeds, and where it tells of something else than
//! memory. A run asks by octets: conformance/label_rows.py has its rows.
use idn_class::Properties;
use idn_label::{
    decode_name, decode_name_by, encode_label, lookup, register, register_by, test_label,
    test_label_by,
};
use idn_text::Refusal;
use std::test::Fail;

/// The A-labels of `faß` and of U+1E922, a letter of Adlam, which the profile leaves out; and `xn--abc-`, which is none.
#[test]
fn registered(rt: HostRuntime) -> Result<(), Fail> {
    let a_label = register(rt.alloc(), &[0x66, 0x61, 0xDF])?;
    assert_eq!(rt; a_label.as_str(), "xn--fa-hia");
    let a_label = register_by(rt.alloc(), &[0x1_E922], Properties::Unicode)?;
    assert_eq!(rt; a_label.as_str(), "xn--9d6h");
    let registered = register(
        rt.alloc(),
        &[0x78, 0x6E, 0x2D, 0x2D, 0x61, 0x62, 0x63, 0x2D],
    );
    assert_eq!(rt; registered.err(), Some(Refusal::BadALabel));
    Ok(())
}

/// A label that passes is encoded without a test, too.
#[test]
fn tested(rt: HostRuntime) -> Result<(), Fail> {
    let label = [0x66, 0x61, 0xDF];
    let tested = test_label(rt.alloc(), &label)?;
    assert_eq!(rt; tested.as_str(), "xn--fa-hia");
    assert_eq!(rt; encode_label(&label).as_str(), "xn--fa-hia");
    let tested = test_label_by(rt.alloc(), &[0x1_E922], Properties::Unicode)?;
    assert_eq!(rt; tested.as_str(), "xn--9d6h");
    Ok(())
}

/// The names are `xn--tda`, the A-label of ü, `xn--9d6h`, and the prefix alone.
#[test]
fn decoded(rt: HostRuntime) -> Result<(), Fail> {
    let decoded = decode_name(rt.alloc(), &[0x78, 0x6E, 0x2D, 0x2D, 0x74, 0x64, 0x61])?;
    assert_eq!(rt; decoded.as_slice(), [0xFC].as_slice());
    let decoded = decode_name_by(
        rt.alloc(),
        &[0x78, 0x6E, 0x2D, 0x2D, 0x39, 0x64, 0x36, 0x68],
        Properties::Unicode,
    )?;
    assert_eq!(rt; decoded.as_slice(), [0x1_E922].as_slice());
    let decoded = decode_name(rt.alloc(), &[0x78, 0x6E, 0x2D, 0x2D]);
    assert_eq!(rt; decoded.err(), Some(Refusal::BadALabel));
    Ok(())
}

/// `Faß`, and `ü..de`, which has an empty label.
#[test]
fn looked_up(rt: HostRuntime) -> Result<(), Fail> {
    let query = lookup(rt.alloc(), &[0x46, 0x61, 0xDF], true)?;
    assert_eq!(rt; query.as_str(), "xn--fa-hia");
    let query = lookup(rt.alloc(), &[0xFC, 0x2E, 0x2E, 0x64, 0x65], false);
    assert_eq!(rt; query.err(), Some(Refusal::LookupLength));
    Ok(())
}
