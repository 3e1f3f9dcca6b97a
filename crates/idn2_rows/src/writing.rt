//! How often a writer is called, and that one which failed is asked again: what no run shows. tests/hostile.py refuses each
//! byte of the output and of the messages of a run.
use idn_text::{Device, Refusal, Sink, WriteFault, write_text};
use idn2_refusals::report;
use std::io::{self, Error, ErrorKind, Write};

/// Takes one byte a call, and counts its calls. The call with this number, from 1, alone is an error.
#[derive(Drop)]
struct SlowWriter {
    calls: u64,
    fails_at: u64,
}

impl Write for SlowWriter {
    fn write(&mut self, text: &[u8]) -> io::Result<usize> {
        self.calls = self.calls.saturating_add(1);
        if self.calls == self.fails_at {
            return Err(Error::from(ErrorKind::Other));
        }
        Ok(text.len().min(1))
    }

    fn flush(&mut self) -> io::Result<()> {
        Ok(())
    }
}

/// A writer, of which the call with this number fails.
fn slow(fails_at: u64) -> Device<SlowWriter> {
    Device::new(SlowWriter { calls: 0, fails_at })
}

/// No call is made with nothing to write.
#[test]
fn a_call_for_each_byte(rt: HostRuntime) {
    for (text, calls) in [(&b""[..], 0), (&b"a"[..], 1), (&b"aaa\taaa\n"[..], 8)] {
        let mut writer = slow(0);
        let result = write_text(&mut writer, text);
        assert_eq!(rt; (result, writer.inner().calls), (Ok(()), calls), "{text:?}");
    }
}

/// No call follows a fault; but the fault does not stop a later text, for which the writer is asked again.
#[test]
fn a_writer_that_failed_is_asked_again(rt: HostRuntime) {
    let mut writer = slow(2);
    let result = write_text(&mut writer, b"aaa");
    assert_eq!(rt;
        (result, writer.inner().calls, Sink::failed(&writer)),
        (Err(WriteFault { taken: 1 }), 2, true)
    );
    let result = write_text(&mut writer, b"aa");
    assert_eq!(rt;
        (result, writer.inner().calls, Sink::failed(&writer)),
        (Ok(()), 4, false)
    );
}

/// The message that ends a run, to a writer that failed before: `idn2: 70 out of memory` has 23 bytes with its line feed.
#[test]
fn a_message_after_a_fault(rt: HostRuntime) {
    let mut messages = slow(1);
    let _ = messages.put(b"aa");
    let status = report(&Refusal::Memory, &mut messages).code();
    assert_eq!(rt; (status, messages.inner().calls), (4, 24));
}
