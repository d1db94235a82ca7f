//! Shared peers and their passes.
ghost use Rattle.std.specs.Prelude.{◌≡◌, ◌+◌, ◌<◌, [], IfOk};
ghost use Rattle.peer_core.specs.Peer.{fresh_peer};
ghost use Rattle.peer_lock.specs.declared.limits.TheConstants.{MAX_PASSES};
ghost use Rattle.peer_lock.specs.Dealt.{Others};
ghost use Rattle.peer_lock.specs.Rule.{newcomer};
ghost use Rattle.peer_lock.specs.Run.{recorded};

use element_name::NoMemory;
use peer_core::Peer;
use peer_lock::{History, Pass, SharedPeer};
use std::alloc::Global;

/// A shared peer of a site, with the pass of the caller and one for each link.
pub(crate) fn deal_links(
    alloc: Global,
    site: u16,
    links: u32,
) -> Result<(SharedPeer, Pass, Vec<Pass>), NoMemory>
    requires { links < MAX_PASSES }
    ensures own { IfOk result (λ r. (r.1.table ≡ r.0) × (r.1.view ≡ newcomer 0 (links + 1) site)) }
    ensures theirs { IfOk result (λ r. Others r.0 site (links + 1) r.2.items) }
{
    let (shared, mut passes) = SharedPeer::new(alloc, site, links + 1)?;
    let pass = passes.remove(0);
    Ok((shared, pass, passes))
}

/// A shared peer of a site, with its one pass.
pub(crate) fn deal_one(alloc: Global, site: u16) -> Result<(SharedPeer, Pass), NoMemory>
    ensures { IfOk result (λ r. (r.1.table ≡ r.0) × (r.1.view ≡ newcomer 0 1 site)) }
{
    let (shared, pass, _none) = deal_links(alloc, site, 0)?;
    Ok((shared, pass))
}

/// The fresh peer of a site, and the run without steps.
pub(crate) fn idle_peer(alloc: Global, site: u16) -> Result<(Peer, History), NoMemory>
    ensures { IfOk result (λ r. (r.0 ≡ fresh_peer site) × (r.1 ≡ recorded site [])) }
{
    let (shared, pass) = deal_one(alloc, site)?;
    Ok(shared.close(pass))
}
