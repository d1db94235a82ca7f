//! The standard output.

use std::io::{self, Write};

/// Writes to the standard output.
pub(crate) fn write(rt: &HostRuntime, bytes: &[u8]) -> io::Result<()> {
    let mut output = rt.stdout();
    output.write_all(bytes)?;
    output.flush()
}
