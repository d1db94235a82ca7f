//! Where pieces of a renewed text begin.
ghost use Rattle.std.specs.Prelude.{◌≡◌, ◌<◌, ◌-◌, ◌||◌, ℕ, [], ◌∷◌, true, false, length, slice_index_or, IfOk, OnOk};
ghost use Rattle.std.specs.List.{All};
ghost use Rattle.peer_renewal.specs.Coverage.{front_policy, covered_bytes, kept_objects};
ghost use Rattle.peer_renewal.specs.Cutting.{breaks_at, differ, HasEdges};

use crate::bits::bit_at;
use crate::coverage::{covered_bytes, is_kept};
use element_name::NoMemory;
use peer_core::Peer;
use policy_book::Object;
use std::alloc::Global;

// Whether the bits at both places differ.
fn are_apart(bits: &[bool], place: usize, other: usize) -> bool
    ensures { result ≡ differ (slice_index_or bits.now place false) (slice_index_or bits.now other false) }
{
    bit_at(bits, place) != bit_at(bits, other)
}

// Whether there is a break at the place, or the bits change there.
fn is_break(breaks: &[bool], bits: &[bool], place: usize) -> bool
    requires { 0 < place }
    ensures { result ≡ (breaks_at breaks.now place || differ (slice_index_or bits.now (place - 1) false) (slice_index_or bits.now place false)) }
{
    bit_at(breaks, place) || are_apart(bits, place - 1, place)
}

// Notes a break wherever the bits change.
fn mark_edges(breaks: &mut [bool], bits: &[bool])
    ensures edges { HasEdges bits.now breaks.new }
    ensures stay { (k : ℕ) → breaks_at breaks.old k ≡ true → breaks_at breaks.new k ≡ true }
{
    for place in 1..breaks.len() {
        breaks[place] = is_break(breaks, bits, place);
    }
}

// For each byte whether it ends a line, or stands behind one that does.
fn line_breaks(alloc: Global, text: &[u8]) -> Result<Vec<bool>, NoMemory>
    ensures { IfOk result (λ breaks. length breaks.items ≡ length text.now) }
{
    let mut breaks = Vec::new(alloc);
    let mut before = 0;
    for byte in text {
        breaks.push(*byte == b'\n' || before == b'\n')?;
        before = *byte;
    }
    Ok(breaks)
}

// Notes a break wherever an object that is kept begins or ends.
fn mark_object(
    alloc: Global,
    old: &Peer,
    object: &Object,
    breaks: &mut [bool],
) -> Result<(), NoMemory>
    ensures edges { OnOk result (All (λ o. HasEdges (covered_bytes old.now o.extent) breaks.new) (kept_objects (object.now ∷ []))) }
    ensures stay { (k : ℕ) → breaks_at breaks.old k ≡ true → breaks_at breaks.new k ≡ true }
{
    if is_kept(&object.extent) {
        let bits = covered_bytes(alloc, old, &object.extent)?;
        mark_edges(breaks, &bits);
    }
    Ok(())
}

/// For each byte of the text that a peer shows, whether a piece has to begin there: where a line's end begins or ends, and
/// where an object that is kept does. Takes for each of these a look-up for each element that shows.
pub(crate) fn breaks_of(alloc: Global, old: &Peer, text: &[u8]) -> Result<Vec<bool>, NoMemory>
    ensures { IfOk result (λ breaks. All (λ o. HasEdges (covered_bytes old.now o.extent) breaks.items) (kept_objects (front_policy old.now).objects)) }
{
    let mut breaks = line_breaks(alloc, text)?;
    for object in old.policy().objects() {
        mark_object(alloc, old, object, &mut breaks)?;
    }
    Ok(breaks)
}
