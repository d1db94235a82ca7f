//! The worker that reads.
ghost use Rattle.std.specs.Prelude.{◌≡◌, length, IfOk};
ghost use Rattle.form_watch.specs.Workers.{HasRead};

use element_name::NoMemory;
use race_run::Gate;
use screen_read::{Page, ScreenReader};
use std::alloc::Global;

/// The number under which the worker passes the gate.
const READER: u32 = 1;

/// Reads so often, and tells the gate of each read. It waits for nobody but the gate.
pub(crate) fn read_all<G: Gate>(
    alloc: Global,
    mut reader: ScreenReader,
    reads: u32,
    gate: &G,
) -> Result<(ScreenReader, Vec<Page>), NoMemory>
    ensures many { IfOk result (λ r. length r.1.items ≡ reads) }
    ensures pages { IfOk result (λ r. HasRead reader r.1.items r.0) }
{
    let mut pages = Vec::new(alloc);
    for read in 0..reads {
        gate.pass(READER, read);
        let page = reader.read()?;
        pages.push(page)?;
    }
    Ok((reader, pages))
}
