//! What no run can show of the messages of one that ends early: a file of registered labels that is too long, and the
//! texts of the errors of streams.
use crate::options::options_of;
use idn_text::hostile::StopWriter;
use idn_text::{Device, ReadFault, Refusal, WriteFault};
use idn2_refusals::refuse_registered;
use std::test::Fail;

/// The fault of a line after so many others that they fill 4 GiB, in a run that tells causes.
#[test]
fn registered_labels_that_are_too_long(rt: HostRuntime) -> Result<(), Fail> {
    let options = options_of(rt.alloc(), "idn2|-r|--explain")?;
    let (mut room, mut answers) = ([0; 128], [0; 128]);
    let mut messages = Device::new(StopWriter::new(&mut room, 128));
    let mut output = Device::new(StopWriter::new(&mut answers, 128));
    let status = refuse_registered(
        rt.alloc(),
        &options,
        b"",
        4_294_967_296,
        &Refusal::FileTooLong,
        &mut output,
        &mut messages,
    );
    let (told, answered) = (messages.inner().taken(), output.inner().taken());
    let message = b"idn2: registered line 4294967296: 5 file too long\n";
    assert_eq!(rt;
        (room.get(..told), answered, status.code()),
        (Some(message.as_slice()), 0, 2)
    );
    Ok(())
}

#[test]
fn texts_of_errors(rt: HostRuntime) -> Result<(), Fail> {
    let text = format!(in rt.alloc(); "{}, {}", ReadFault, WriteFault { taken: 3 })?;
    assert_eq!(rt; text.as_str(), "read fault, write fault");
    Ok(())
}
