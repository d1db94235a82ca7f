//! What showed of the elements that an entry may change.
ghost use Rattle.std.specs.Prelude.{◌≡◌, ◌+◌, ◌≤◌, ◌++◌, vec_len, vec_capacity, filter_map, IfOk, OnOk};
ghost use Rattle.std.specs.BTreeMap.{btree_map_len, IsOrdered};
ghost use Rattle.std.specs.Ordering.{nat_cmp};
ghost use Rattle.text_change.specs.Rows.{row_of};
ghost use Rattle.text_change.specs.Seen.{seen_of, with_seen, seen_at, row_by};

use crate::row::{piece_at, row_of};
use coop_request::{PackedPiece, Piece};
use element_name::{Name, NoMemory};
use peer_core::Peer;
use peer_step::LocalEdit;
use std::alloc::Global;
use std::collections::BTreeMap;

/// An element, with the piece that showed of it.
#[derive(Drop)]
pub(crate) struct Seen {
    element: Name,
    piece: Option<PackedPiece>,
}

// A piece, packed, where there is one.
fn packed(alloc: Global, piece: Option<Piece>) -> Result<Option<PackedPiece>, NoMemory>
    ensures { IfOk result (λ packed. packed ≡ piece) }
{
    match piece {
        Some(piece) => Ok(Some(PackedPiece::of(alloc, piece)?)),
        None => Ok(None),
    }
}

impl Seen {
    /// An element, with what shows of it now.
    pub(crate) fn of(alloc: Global, peer: &Peer, element: Name) -> Result<Seen, NoMemory>
        ensures { IfOk result (λ seen. seen ≡ seen_of peer.now element) }
    {
        let piece = packed(alloc, piece_at(peer, element))?;
        Ok(Seen { element, piece })
    }

    /// Its row, by what shows of it now.
    pub(crate) fn row(&self, peer: &Peer) -> Option<LocalEdit>
        ensures { result ≡ row_of peer.now self.now.element self.now.piece }
    {
        let old = match &self.piece {
            Some(piece) => Some(piece.piece()),
            None => None,
        };
        row_of(peer, self.element, old)
    }
}

// Puts an element in, at its place in text order.
fn see(
    alloc: Global,
    peer: &Peer,
    seen: &mut BTreeMap<usize, Seen>,
    element: Name,
) -> Result<(), NoMemory>
    ensures entries { OnOk result (seen.new.entries ≡ with_seen peer.now seen.old.entries element) }
    ensures ordered { IsOrdered nat_cmp seen.old → IsOrdered nat_cmp seen.new }
{
    let Some(place) = peer.place_of(element) else {
        return Ok(());
    };
    let now = Seen::of(alloc, peer, element)?;
    seen.insert(place, now)?;
    Ok(())
}

/// These elements by their places in text order, each once, with what shows of them.
pub(crate) fn seen_at(
    alloc: Global,
    peer: &Peer,
    elements: &[Name],
) -> Result<BTreeMap<usize, Seen>, NoMemory>
    ensures entries { IfOk result (λ seen. seen.entries ≡ seen_at peer.now elements.now) }
    ensures ordered { IfOk result (λ seen. IsOrdered nat_cmp seen) }
{
    let mut seen = BTreeMap::new(alloc);
    for element in elements {
        see(alloc, peer, &mut seen, *element)?;
    }
    Ok(seen)
}

/// Puts the rows of those of which something else shows now last, in their order. Takes no memory.
pub(crate) fn put_rows(peer: &Peer, seen: &BTreeMap<usize, Seen>, rows: &mut Vec<LocalEdit>)
    requires { vec_len rows.old + btree_map_len seen.now ≤ vec_capacity rows.old }
    ensures { rows.new.items ≡ rows.old.items ++ filter_map (row_by peer.now) seen.now.entries }
{
    for (_, seen) in seen {
        if let Some(row) = seen.row(peer) {
            rows.push_reserved(row);
        }
    }
}
