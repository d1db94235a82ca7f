//! A stream that gives up.

use std::io::{self, ErrorKind, Read, Write};
use std::net::TcpStream;
use std::time::{Clock, Duration, Instant};

/// A stream that is read until a moment, if it has one, and fails from then on, however its bytes come.
#[derive(Drop)]
pub struct HastyStream<R> {
    clock: R,
    stream: TcpStream,
    until: Option<Instant>,
}

impl<R: Clock + Drop> HastyStream<R> {
    /// The stream, to be read for so long from now on.
    pub(crate) fn new(clock: R, stream: TcpStream, patience: Duration) -> io::Result<Self> {
        let now = Instant::now(&clock)?;
        Ok(HastyStream {
            until: Some(now.checked_add(patience).unwrap_or(now)),
            clock,
            stream,
        })
    }

    /// From now on it is read without an end.
    pub(crate) fn take_time(&mut self) -> io::Result<()> {
        self.stream.set_read_timeout(None)?;
        self.until = None;
        Ok(())
    }
}

impl<R: Clock + Drop> Read for HastyStream<R> {
    // A read that has a limit of time is interrupted where the process was stopped and goes on. It is made again.
    fn read(&mut self, buf: &mut [u8]) -> io::Result<usize> {
        for _ in 0..u64::MAX {
            if let Some(until) = self.until {
                let left = until.saturating_duration_since(Instant::now(&self.clock)?);
                self.stream.set_read_timeout(Some(left))?;
            }
            match self.stream.read(buf) {
                Err(error) if error.kind() == ErrorKind::Interrupted => {}
                other => return other,
            }
        }
        Err(io::Error::from(ErrorKind::Interrupted))
    }
}

impl<R: Clock + Drop> Write for HastyStream<R> {
    fn write(&mut self, buf: &[u8]) -> io::Result<usize> {
        self.stream.write(buf)
    }

    fn flush(&mut self) -> io::Result<()> {
        self.stream.flush()
    }
}
