//! A sink whose bytes nobody wants.

use edit_io::{OutFail, Sink};

/// A sink that takes all bytes and keeps none.
#[derive(Drop)]
pub(crate) struct Nowhere;

impl Sink for Nowhere {
    ghost use Rattle.std.specs.Prelude.{None};

    ghost written = { λ _. None };

    ghost faults = { λ _. 0 };

    fn write(&mut self, chunk: &[u8]) -> Result<usize, OutFail> {
        Ok(chunk.len())
    }
}
