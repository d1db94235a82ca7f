//! Sources and sinks over streams that are interrupted and fail.
use edit_io::{OutFail, ReadSource, Sink, Source, WriteSink};
use std::io;
use std::io::{Error, ErrorKind, Read, Write};

// Is interrupted at its first call, gives `ab` at the second, and fails from then on.
#[derive(Drop)]
struct Flaky {
    calls: u8,
}

impl Read for Flaky {
    fn read(&mut self, buf: &mut [u8]) -> io::Result<usize> {
        self.calls = self.calls.saturating_add(1);
        match self.calls {
            1 => Err(Error::from(ErrorKind::Interrupted)),
            2 if buf.len() >= 2 => {
                buf[0] = b'a';
                buf[1] = b'b';
                Ok(2)
            }
            _ => Err(Error::from(ErrorKind::BrokenPipe)),
        }
    }
}

// Is interrupted at its first call, takes `ab` at the next two, and nothing from then on. Where a write wasn't
// flushed, the next one fails.
#[derive(Drop)]
struct Sticky {
    calls: u8,
    is_flushed: bool,
}

impl Write for Sticky {
    fn write(&mut self, chunk: &[u8]) -> io::Result<usize> {
        self.calls = self.calls.saturating_add(1);
        if !self.is_flushed {
            return Err(Error::from(ErrorKind::BrokenPipe));
        }
        match self.calls {
            1 => Err(Error::from(ErrorKind::Interrupted)),
            2 | 3 if chunk == b"ab".as_slice() => {
                self.is_flushed = false;
                Ok(2)
            }
            _ => Ok(0),
        }
    }

    fn flush(&mut self) -> io::Result<()> {
        self.is_flushed = true;
        Ok(())
    }
}

#[test]
fn a_source_goes_on_after_an_interruption(rt: HostRuntime) {
    let mut source = ReadSource::new(Flaky { calls: 0 });
    let mut buf = [0; 4];
    assert!(rt; matches!(source.read(&mut buf), Ok(2)));
    assert!(rt; buf[0] == b'a' && buf[1] == b'b');
    assert!(rt; source.read(&mut buf).is_err());
}

#[test]
fn a_sink_goes_on_after_an_interruption_and_flushes(rt: HostRuntime) {
    let mut sink = WriteSink::new(Sticky {
        calls: 0,
        is_flushed: true,
    });
    for _ in 0..2u32 {
        assert!(rt; matches!(sink.write(b"ab"), Ok(2)));
    }
    assert!(rt; matches!(sink.write(b"ab"), Err(OutFail::Failed)));
}
