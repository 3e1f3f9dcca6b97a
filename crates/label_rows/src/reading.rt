//! Readers that fail: what is told afterwards, where a run has ended. conformance/run_rows.py has the lines of many
//! inputs, and tests/hostile.py refuses each read of a run.
use idn_text::hostile::StopReader;
use idn_text::{Body, Device, DeviceFault, Line, Lines, ReadFault, Source};
use std::test::Fail;

/// The number of a line, and how many bytes it has, if it is not too long.
fn measured(line: &Option<Line>) -> Option<(u64, Option<usize>)> {
    match line {
        Some(line) => match &line.body {
            Body::Text(text) => Some((line.number, Some(text.len()))),
            Body::TooLong => Some((line.number, None)),
        },
        None => None,
    }
}

#[test]
fn lines_end_for_good(rt: HostRuntime) -> Result<(), Fail> {
    let mut lines = Lines::new(Device::new(StopReader::new(b"aa\r\n\nb", 2, 0, false)));
    let wanted = [
        Some((1, Some(2))),
        Some((2, Some(0))),
        Some((3, Some(1))),
        None,
        None,
    ];
    for want in wanted {
        let line = lines.next_line()?;
        assert_eq!(rt; measured(&line), want);
    }
    Ok(())
}

/// A reader that fails has failed for good, also where only one of its calls fails.
#[test]
fn lines_fail_for_good(rt: HostRuntime) -> Result<(), Fail> {
    let mut lines = Lines::new(Device::new(StopReader::new(b"aa\nbb", 1, 5, true)));
    assert_eq!(rt; lines.failed(), false, "before the first call");
    let line = lines.next_line()?;
    assert_eq!(rt;
        (measured(&line), lines.failed()),
        (Some((1, Some(2))), false)
    );
    for _ in 0..2 {
        assert_eq!(rt; lines.next_line().err(), Some(ReadFault));
        assert_eq!(rt; lines.failed(), true, "after a fault");
    }
    Ok(())
}

/// A read that failed before the lines were begun is no fault of theirs.
#[test]
fn lines_after_an_earlier_fault(rt: HostRuntime) -> Result<(), Fail> {
    let mut reader = Device::new(StopReader::new(b"aa\nb", 1, 1, true));
    assert_eq!(rt; reader.get(&mut [0; 4]), Err(DeviceFault));
    let mut lines = Lines::new(reader);
    let line = lines.next_line()?;
    assert_eq!(rt; measured(&line), Some((1, Some(2))));
    Ok(())
}

/// The end of input is no fault, and each call is one call of what the device stands on.
#[test]
fn gets_of_a_device(rt: HostRuntime) {
    let mut reader = Device::new(StopReader::new(b"ab", 1, 2, true));
    let mut buffer = [0; 4];
    for want in [Ok(1), Err(DeviceFault), Ok(1), Ok(0), Ok(0)] {
        let given = reader.get(&mut buffer);
        assert_eq!(rt; (given, Source::failed(&reader)), (want, want.is_err()));
    }
}
