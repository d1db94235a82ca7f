//! Which bytes of the text that shows an extent covers.
ghost use Rattle.std.specs.Prelude.{◌≡◌, IfOk};
ghost use Rattle.peer_renewal.specs.Coverage.{covered_bytes, is_kept};

use crate::bits::put_times;
use element_name::NoMemory;
use peer_core::Peer;
use policy_book::Extent;
use std::alloc::Global;

/// Whether an extent is made anew.
pub(crate) fn is_kept(extent: &Extent) -> bool
    ensures { result ≡ is_kept extent.now }
{
    match extent {
        Extent::All => true,
        Extent::Span(_, _) => true,
        Extent::Elems(_) => true,
        Extent::By(_) => false,
    }
}

/// For each byte that a peer shows, whether an extent covers its element. Takes a look-up for each element that shows,
/// and a byte for each of the text's.
pub(crate) fn covered_bytes(
    alloc: Global,
    peer: &Peer,
    extent: &Extent,
) -> Result<Vec<bool>, NoMemory>
    ensures { IfOk result (λ bits. bits.items ≡ covered_bytes peer.now extent.now) }
{
    let shown = peer.text()?;
    let mut bits = Vec::new(alloc);
    for at in 0..peer.shown_len() {
        let Some(element) = peer.shown_at(at) else {
            unreachable!()
        };
        let Some(size) = shown.size(at as usize) else {
            unreachable!()
        };
        put_times(&mut bits, size, peer.covers(extent, element))?;
    }
    Ok(bits)
}
