//! Packed pieces.
ghost use Rattle.std.specs.Prelude.{◌≡◌, ◌≤◌, length, IfOk, IsOk};

use crate::lent_piece::LentPiece;
use crate::piece::Piece;
use crate::row::padded;
use element_name::NoMemory;
use std::alloc::Global;
use std::marker::Model;

/// The greatest number of bytes of a piece that takes no memory of its own.
pub const SHORT_PIECE: usize = 15;

/// A piece as a table keeps it, seen as the list of its bytes: a short one lies in place, a longer one in a box.
#[derive(Drop)]
pub struct PackedPiece {
    bytes: Bytes,
}

#[derive(Drop)]
enum Bytes {
    Short { row: [u8; 15], len: u8 },
    Long(Box<Piece>),
}

impl Model for PackedPiece {
    ghost use Rattle.std.specs.Prelude.{ℕ, List};

    ghost Value = { List ℕ };

    ghost use Rattle.coop_request.specs.PackedBytes.{bytes_in, HoldsPacked};

    ghost view = { λ p. bytes_in p.bytes };

    ghost invariant = { λ p. HoldsPacked p.bytes };
}

impl PackedPiece {
    /// A piece, packed. A short one takes no memory.
    pub fn of(alloc: Global, piece: Piece) -> Result<PackedPiece, NoMemory>
        ensures packed { IfOk result (λ p. p ≡ piece) }
        ensures short { length piece ≤ SHORT_PIECE → IsOk result }
    {
        PackedPiece::of_lent(alloc, &piece.lent())
    }

    /// A lent piece, packed. A short one takes no memory.
    pub fn of_lent(alloc: Global, piece: &LentPiece<'_>) -> Result<PackedPiece, NoMemory>
        ensures packed { IfOk result (λ p. p ≡ piece.now) }
        ensures short { length piece.now ≤ SHORT_PIECE → IsOk result }
    {
        let bytes = piece.bytes();
        if bytes.len() > SHORT_PIECE {
            return Ok(PackedPiece {
                bytes: Bytes::Long(Box::new(alloc, piece.piece())?),
            });
        }
        Ok(PackedPiece {
            bytes: Bytes::Short {
                row: padded(bytes),
                len: bytes.len() as u8,
            },
        })
    }

    /// The piece. Takes no memory.
    pub fn piece(&self) -> Piece
        ensures { result ≡ self.now }
    {
        self.lent().piece()
    }

    /// The piece, lent.
    pub fn lent(&self) -> LentPiece<'_>
        ensures { result ≡ self.now }
    {
        match &self.bytes {
            Bytes::Short { row, len } => LentPiece::from_known(&row[..*len as usize]),
            Bytes::Long(piece) => piece.lent(),
        }
    }
}
