//! Packed requests.
ghost use Rattle.std.specs.Prelude.{◌≡◌, IfOk};
ghost use Rattle.coop_request.specs.Edit.{anchor_or_target};
ghost use Rattle.coop_request.specs.LentEdit.{edit_lent};
ghost use Rattle.coop_request.specs.PackedEdit.{edit_in};

use crate::lent_edit::LentEdit;
use crate::lent_request::LentRequest;
use crate::packed_piece::PackedPiece;
use crate::request::Request;
use element_name::{Name, NoMemory};
use std::alloc::Global;
use std::marker::Model;

/// A request as a table keeps it, seen as the request. It takes 56 bytes, and a piece that isn't short a box more.
#[derive(Drop)]
pub struct PackedRequest {
    // The stamps of its name and of its anchor or target, and then their sites, so that no room lies between.
    stamp: u64,
    other_stamp: u64,
    site: u16,
    other_site: u16,
    version: u32,
    edit: PackedEdit,
}

// An edit without its anchor or target.
#[derive(Drop)]
enum PackedEdit {
    Insert { letter: PackedPiece },
    Delete,
    Update { letter: PackedPiece },
}

impl Model for PackedRequest {
    ghost use Rattle.coop_request.specs.Request.{Request};

    ghost Value = { Request };

    ghost use Rattle.coop_request.specs.PackedEdit.{HoldsRequest, request_of_parts};

    ghost view = { λ q. request_of_parts (record { stamp = q.stamp; site = q.site })
        (record { stamp = q.other_stamp; site = q.other_site }) q.version q.edit };

    ghost invariant = { λ q. HoldsRequest (record { stamp = q.stamp; site = q.site })
        (record { stamp = q.other_stamp; site = q.other_site }) q.version q.edit };
}

fn packed_edit(alloc: Global, edit: &LentEdit<'_>) -> Result<PackedEdit, NoMemory>
    ensures { IfOk result (λ e. edit_in (anchor_or_target (edit_lent edit.now)) e ≡ edit_lent edit.now) }
{
    match edit {
        LentEdit::Insert { letter, .. } => {
            let letter = PackedPiece::of_lent(alloc, letter)?;
            Ok(PackedEdit::Insert { letter })
        }
        LentEdit::Delete { .. } => Ok(PackedEdit::Delete),
        LentEdit::Update { letter, .. } => {
            let letter = PackedPiece::of_lent(alloc, letter)?;
            Ok(PackedEdit::Update { letter })
        }
    }
}

fn edit_of(other: Name, edit: &PackedEdit) -> LentEdit<'_>
    ensures { edit_lent result ≡ edit_in other edit.now }
{
    match edit {
        PackedEdit::Insert { letter } => LentEdit::Insert {
            after: other,
            letter: letter.lent(),
        },
        PackedEdit::Delete => LentEdit::Delete { target: other },
        PackedEdit::Update { letter } => LentEdit::Update {
            target: other,
            letter: letter.lent(),
        },
    }
}

impl PackedRequest {
    /// A request, packed.
    pub fn of(alloc: Global, request: Request) -> Result<PackedRequest, NoMemory>
        ensures { IfOk result (λ q. q ≡ request) }
    {
        PackedRequest::of_lent(alloc, &request.lent())
    }

    /// A lent request, packed.
    pub fn of_lent(alloc: Global, request: &LentRequest<'_>) -> Result<PackedRequest, NoMemory>
        ensures { IfOk result (λ q. q ≡ request.now) }
    {
        let id = request.id();
        let other = request.edit().anchor_or_target();
        Ok(PackedRequest {
            stamp: id.stamp(),
            other_stamp: other.stamp(),
            site: id.site(),
            other_site: other.site(),
            version: request.version(),
            edit: packed_edit(alloc, request.edit())?,
        })
    }

    /// The request. Takes no memory.
    pub fn request(&self) -> Request
        ensures { result ≡ self.now }
    {
        self.lent().request()
    }

    /// The request, its piece lent.
    pub fn lent(&self) -> LentRequest<'_>
        ensures { result ≡ self.now }
    {
        let id = Name::from_known(self.stamp, self.site);
        let other = Name::from_known(self.other_stamp, self.other_site);
        LentRequest::from_known(id, self.version, edit_of(other, &self.edit))
    }
}
