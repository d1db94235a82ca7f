//! The bodies in the bytes of a file.
ghost use Rattle.std.specs.Prelude.{◌<◌, ◌^◌, ◌≡◌, ◌⊎◌, ◌++◌, ℕ, List, All, IfOk, IfSome, IfNone, length};
ghost use Rattle.peer_disk.specs.Records.{record_of, records, FitsRecord, IsClosedGate, IsNoRecord, bytes_of_each};
ghost use Rattle.peer_disk.specs.Loading.{EndsWith};

use crate::layout::OPEN;
use std::alloc::{AllocError, Global};

/// How a file of records ends.
#[derive(Clone, Copy, Debug, PartialEq, Eq)]
pub enum Ending {
    /// With a closed gate, as it should.
    Closed,
    /// With no gate, or with an open one whose record isn't whole.
    Broken,
}

/// What a file of records has.
#[derive(Drop)]
pub struct Loaded {
    /// The bodies of the whole records, in their order.
    pub bodies: Vec<Vec<u8>>,
    /// What stands behind their records.
    pub ending: Ending,
}

// The body of the record that these bytes begin with, and the bytes behind it; none where they begin with no
// whole record with an open gate.
fn first_record(bytes: &[u8]) -> Option<(&[u8], &[u8])>
    ensures some { IfSome result (λ split. (bytes.now ≡ record_of split.0.now ++ split.1.now) × FitsRecord split.0.now) }
    ensures none { IfNone result (IsClosedGate bytes.now ⊎ IsNoRecord bytes.now) }
{
    let [OPEN, high, low, rest @ ..] = bytes else {
        return None;
    };
    let len = u16::from_be_bytes([*high, *low]) as usize;
    rest.split_at_checked(len)
}

// How bytes end that begin with no whole record.
fn ending_of(bytes: &[u8]) -> Ending
    requires { IsClosedGate bytes.now ⊎ IsNoRecord bytes.now }
    ensures { EndsWith result bytes.now }
{
    match bytes {
        [gate, ..] if *gate != OPEN => Ending::Closed,
        _ => Ending::Broken,
    }
}

/// The bodies of the records that these bytes begin with, up to the first gate that isn't open or whose record
/// isn't whole, and what stands there.
///
/// It takes time and memory in the bytes.
pub(crate) fn parse(alloc: Global, bytes: &[u8]) -> Result<Loaded, AllocError>
    ensures room { length bytes.now < 2 ^ 63 }
    ensures bodies { IfOk result (λ loaded. (rest : List ℕ) × (bytes.now ≡ records (bytes_of_each loaded.bodies.items) ++ rest)
        × All FitsRecord (bytes_of_each loaded.bodies.items) × EndsWith loaded.ending rest) }
{
    let mut bodies = Vec::new(alloc);
    let mut rest = bytes;
    while let Some((body, after)) = first_record(rest) {
        bodies.push(body.to_vec(alloc)?)?;
        rest = after;
    }
    Ok(Loaded {
        bodies,
        ending: ending_of(rest),
    })
}
