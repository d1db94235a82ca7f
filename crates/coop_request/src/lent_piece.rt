//! Lent pieces.
ghost use Rattle.std.specs.Prelude.{◌≡◌, IsTrue};
ghost use Rattle.element_name.specs.Cases.{when};
ghost use Rattle.coop_request.specs.Piece.{is_piece};

use crate::piece::{MAX_PIECE, Piece, is_text};
use std::marker::Model;

/// A piece whose bytes lie elsewhere, seen as the list of its bytes. It takes two words.
#[derive(Drop)]
pub struct LentPiece<'a> {
    bytes: &'a [u8],
}

impl<'a> Model for LentPiece<'a> {
    ghost use Rattle.std.specs.Prelude.{ℕ, List, IsTrue};
    ghost use Rattle.coop_request.specs.Piece.{is_piece};

    ghost Value = { List ℕ };

    ghost view = { λ p. p.bytes.now };

    ghost invariant = { λ p. IsTrue (is_piece p.bytes.now) };
}

impl<'a> LentPiece<'a> {
    /// The piece of these bytes; none where there are no bytes, more than [`MAX_PIECE`], or they aren't UTF-8.
    pub fn checked(bytes: &'a [u8]) -> Option<LentPiece<'a>>
        ensures { result ≡ when (is_piece bytes.now) bytes.now }
    {
        if bytes.is_empty() || bytes.len() > MAX_PIECE || !is_text(bytes) {
            return None;
        }
        Some(LentPiece { bytes })
    }

    /// The piece of bytes that are known to be one's.
    pub(crate) fn from_known(bytes: &'a [u8]) -> LentPiece<'a>
        requires { IsTrue (is_piece bytes.now) }
        ensures { result ≡ bytes.now }
    {
        LentPiece { bytes }
    }

    /// Its bytes, which are UTF-8.
    pub fn bytes(&self) -> &'a [u8]
        ensures value { result.now ≡ self.now }
        ensures piece { IsTrue (is_piece self.now) }
    {
        self.bytes
    }

    /// The same piece, lent once more.
    pub fn again(&self) -> LentPiece<'a>
        ensures { result ≡ self.now }
    {
        LentPiece { bytes: self.bytes }
    }

    /// The same piece with its bytes in place.
    pub fn piece(&self) -> Piece
        ensures { result ≡ self.now }
    {
        Piece::from_known(self.bytes)
    }
}
