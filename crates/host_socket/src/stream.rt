//! Streams that don't wait.

use mio::net::TcpStream;
use std::io::{self, ErrorKind, Read, Write};

// How many bytes are read at once, and how often before it is the others' turn.
const CHUNK: usize = 2_048;

const MOST_READS: u8 = 64;

/// Whether an error says to wait for an event, or to try again.
pub(crate) fn must_wait(error: &io::Error) -> bool {
    error.kind() == ErrorKind::WouldBlock || error.kind() == ErrorKind::Interrupted
}

/// Reads what has come behind what is there, up to so many bytes or a chunk more. False where the stream has ended.
pub fn read_some(stream: &mut TcpStream, into: &mut Vec<u8>, limit: usize) -> io::Result<bool> {
    let mut chunk = [0u8; CHUNK];
    for _ in 0..MOST_READS {
        if into.len() >= limit {
            return Ok(true);
        }
        match stream.read(&mut chunk) {
            Ok(0) => return Ok(false),
            Ok(n) => into.extend_from_slice(&chunk[..n])?,
            Err(error) if error.kind() == ErrorKind::WouldBlock => return Ok(true),
            Err(error) if error.kind() == ErrorKind::Interrupted => {}
            Err(error) => return Err(error),
        }
    }
    Ok(true)
}

/// Writes from a place on what the stream takes, and moves the place. True once all is written.
pub fn write_some(stream: &mut TcpStream, bytes: &[u8], at: &mut usize) -> io::Result<bool> {
    for _ in 0..usize::MAX {
        if *at >= bytes.len() {
            return Ok(true);
        }
        match stream.write(&bytes[*at..]) {
            Ok(0) => return Err(ErrorKind::WriteZero.into()),
            Ok(n) => *at = at.saturating_add(n),
            Err(error) if error.kind() == ErrorKind::WouldBlock => return Ok(false),
            Err(error) if error.kind() == ErrorKind::Interrupted => {}
            Err(error) => return Err(error),
        }
    }
    Ok(false)
}
