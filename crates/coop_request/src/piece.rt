//! Pieces of text.
ghost use Rattle.std.specs.Prelude.{◌≡◌, length, IsTrue};
ghost use Rattle.std.specs.Str.{is_utf8};
ghost use Rattle.std.specs.Char.{encode_utf8};
ghost use Rattle.element_name.specs.Cases.{when};
ghost use Rattle.coop_request.specs.Piece.{is_piece};

use crate::lent_piece::LentPiece;
use crate::row::padded;
use std::fmt;
use std::marker::Model;

/// The greatest number of bytes of a piece.
pub const MAX_PIECE: usize = 255;

/// The content of an element: 1 to 255 bytes of UTF-8, seen as the list of its bytes.
///
/// The bytes lie in a fixed row, so that a piece, and with it a request, is `Copy` and never takes memory.
#[derive(Clone, Copy, PartialEq, Eq)]
pub struct Piece {
    row: [u8; 255],
    len: u8,
}

impl Model for Piece {
    ghost use Rattle.std.specs.Prelude.{ℕ, List, length};
    ghost use Rattle.element_name.specs.Rows.{row_items, row_from, row_again, len_again};
    ghost use Rattle.coop_request.specs.Piece.{HoldsPiece};

    ghost Value = { List ℕ };

    ghost view = { λ p. row_items p.row p.len };

    ghost invariant = { λ p. HoldsPiece p.row p.len };

    ghost inverse = { λ bytes. record { row = row_from 255 bytes; len = length bytes } };

    ghost inverse_ok = { λ p h i. record { row = row_again 255 p.row p.len h.padded i; len = len_again 255 p.row p.len h.padded i } };
}

/// Whether the bytes are UTF-8. Takes time in their number.
pub fn is_text(bytes: &[u8]) -> bool
    ensures { result ≡ is_utf8 bytes.now }
{
    match std::str::from_utf8(bytes) {
        Ok(_) => true,
        Err(_) => false,
    }
}

impl Piece {
    /// The piece of these bytes; none where there are no bytes, more than [`MAX_PIECE`], or they aren't UTF-8.
    pub fn checked(bytes: &[u8]) -> Option<Piece>
        ensures { result ≡ when (is_piece bytes.now) bytes.now }
    {
        match LentPiece::checked(bytes) {
            Some(piece) => Some(piece.piece()),
            None => None,
        }
    }

    /// The piece of bytes that are known to be one's.
    pub(crate) fn from_known(bytes: &[u8]) -> Piece
        requires { IsTrue (is_piece bytes.now) }
        ensures { result ≡ bytes.now }
    {
        Piece {
            row: padded(bytes),
            len: bytes.len() as u8,
        }
    }

    /// The piece of one scalar value.
    pub fn of(letter: char) -> Piece
        ensures { result ≡ encode_utf8 letter }
    {
        let mut bytes = [0; 4];
        let text = letter.encode_utf8(&mut bytes);
        Piece::from_known(text.as_bytes())
    }

    /// Its bytes, which are UTF-8.
    pub fn bytes(&self) -> &[u8]
        ensures value { result.now ≡ self.now }
        ensures piece { IsTrue (is_piece self.now) }
    {
        &self.row[..self.len as usize]
    }

    /// The same piece, lent.
    pub fn lent(&self) -> LentPiece<'_>
        ensures { result ≡ self.now }
    {
        LentPiece::from_known(self.bytes())
    }
}

impl fmt::Debug for Piece {
    fn fmt<W: fmt::Write>(&self, f: &mut fmt::Formatter<W>) -> fmt::Result {
        let bytes = self.bytes();
        write!(f, "{bytes:?}")
    }
}
