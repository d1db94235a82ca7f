//! Objects over the elements of a renewed text.
ghost use Rattle.std.specs.Prelude.{◌≡◌, [], ◌∷◌, ◌++◌, ◌+◌, ◌<◌, ◌≤◌, length, IfOk, OnOk};
ghost use Rattle.coop_request.specs.declared.request.TheConstants.{MAX_REQUESTS};
ghost use Rattle.peer_renewal.specs.Extents.{written_name, covered_name, covered_names, nothing_covered, span_of, extent_anew, object_anew, made_anew, objects_anew};

use crate::bits::{bit_at, bits_from};
use crate::coverage::{covered_bytes, is_kept};
use coop_request::Piece;
use element_name::{Name, NoMemory};
use peer_core::Peer;
use policy_book::{Extent, NameList, Object};
use std::alloc::Global;

// The name of the element of the piece at a place.
fn written_name(place: usize) -> Name
    requires { place < MAX_REQUESTS }
    ensures { result ≡ written_name (place + 1) }
{
    match Name::read(place as u64 + 1, 0) {
        Some(name) => name,
        None => unreachable!(),
    }
}

// Puts the element of the piece at a place last, if it is covered.
fn push_covered(names: &mut Vec<Name>, place: usize, covered: bool) -> Result<(), NoMemory>
    requires { place < MAX_REQUESTS }
    ensures { OnOk result (names.new.items ≡ names.old.items ++ covered_name (place + 1) covered) }
{
    if covered {
        names.push(written_name(place))?;
    }
    Ok(())
}

// The elements of the pieces of which the first byte is covered.
fn covered_names(alloc: Global, covered: &[bool], pieces: &[Piece]) -> Result<Vec<Name>, NoMemory>
    requires { length pieces.now ≤ MAX_REQUESTS }
    ensures { IfOk result (λ names. names.items ≡ covered_names 1 covered.now pieces.now) }
{
    let mut names = Vec::new(alloc);
    let mut left = covered;
    for (place, piece) in pieces.iter().enumerate() {
        push_covered(&mut names, place, bit_at(left, 0))?;
        left = bits_from(left, piece.bytes().len());
    }
    Ok(names)
}

// An extent that covers nothing.
fn nothing(alloc: Global) -> Result<Extent, NoMemory>
    ensures { IfOk result (λ extent. extent ≡ nothing_covered) }
{
    let names = vec![in alloc; Name::start()]?;
    match NameList::checked(names) {
        Some(names) => Ok(Extent::Elems(names)),
        None => unreachable!(),
    }
}

// The span from the first of the elements to the last.
fn span_of(alloc: Global, names: &[Name]) -> Result<Extent, NoMemory>
    ensures { IfOk result (λ extent. extent ≡ span_of names.now) }
{
    if names.is_empty() {
        return nothing(alloc);
    }
    Ok(Extent::Span(names[0], names[names.len() - 1]))
}

// The extent of one's kind over these elements.
fn extent_anew(alloc: Global, extent: &Extent, names: Vec<Name>) -> Result<Extent, NoMemory>
    ensures { IfOk result (λ anew. anew ≡ extent_anew extent.now names.items) }
{
    match extent {
        Extent::All => Ok(Extent::All),
        Extent::Span(_, _) => span_of(alloc, &names),
        Extent::Elems(_) => match NameList::checked(names) {
            Some(names) => Ok(Extent::Elems(names)),
            None => nothing(alloc),
        },
        Extent::By(_) => nothing(alloc),
    }
}

// The object over the pieces of which the old one covers the first byte.
fn object_anew(
    alloc: Global,
    old: &Peer,
    pieces: &[Piece],
    object: &Object,
) -> Result<Object, NoMemory>
    requires { length pieces.now ≤ MAX_REQUESTS }
    ensures { IfOk result (λ anew. anew ≡ object_anew old.now pieces.now object.now) }
{
    let covered = covered_bytes(alloc, old, &object.extent)?;
    let names = covered_names(alloc, &covered, pieces)?;
    Ok(Object {
        number: object.number,
        extent: extent_anew(alloc, &object.extent, names)?,
    })
}

// Puts the object over these pieces last, if it is kept.
fn push_kept(
    alloc: Global,
    old: &Peer,
    pieces: &[Piece],
    object: &Object,
    objects: &mut Vec<Object>,
) -> Result<(), NoMemory>
    requires { length pieces.now ≤ MAX_REQUESTS }
    ensures { OnOk result (objects.new.items ≡ objects.old.items ++ made_anew old.now pieces.now (object.now ∷ [])) }
{
    if is_kept(&object.extent) {
        objects.push(object_anew(alloc, old, pieces, object)?)?;
    }
    Ok(())
}

/// The objects of a peer but for those of authors, over the elements of these pieces. Takes for each a look-up for each
/// element that shows.
pub(crate) fn objects_anew(
    alloc: Global,
    old: &Peer,
    pieces: &[Piece],
) -> Result<Vec<Object>, NoMemory>
    requires { length pieces.now ≤ MAX_REQUESTS }
    ensures { IfOk result (λ objects. objects.items ≡ objects_anew old.now pieces.now) }
{
    let mut objects = Vec::new(alloc);
    for object in old.policy().objects() {
        push_kept(alloc, old, pieces, object, &mut objects)?;
    }
    Ok(objects)
}
