//! Texts.
ghost use Rattle.std.specs.Prelude.{◌≡◌, ◌<◌, ◌++◌, [], ◌∷◌, length, slice_get, option_map, string_bytes, IfOk, OnOk, OnErr, IsTrue};
ghost use Rattle.std.specs.List.{concat};
ghost use Rattle.std.specs.Str.{is_utf8};

use coop_request::Piece;
use element_name::NoMemory;
use std::alloc::Global;
use std::marker::Model;

/// A text, seen as the list of its pieces.
///
/// The pieces' bytes lie joined, beside the pieces' sizes.
#[derive(Drop)]
pub struct Text {
    joined: String,
    sizes: Vec<u8>,
}

impl Model for Text {
    ghost use Rattle.std.specs.Prelude.{ℕ, List, string_bytes};
    ghost use Rattle.peer_step.specs.Text.{cut, AreSizes};

    ghost Value = { List (List ℕ) };

    ghost view = { λ t. cut t.sizes.items (string_bytes t.joined) };

    ghost invariant = { λ t. AreSizes t.sizes.items (string_bytes t.joined) };
}

impl Text {
    /// The empty text. Takes no memory.
    pub fn new(alloc: Global) -> Text
        ensures { result ≡ [] }
    {
        Text {
            joined: String::new(alloc),
            sizes: Vec::new(alloc),
        }
    }

    /// Puts a piece last, in time of its bytes, but for the times when room is doubled.
    pub fn push(&mut self, piece: Piece) -> Result<(), NoMemory>
        ensures ok { OnOk result (self.new ≡ self.old ++ piece ∷ []) }
        ensures unchanged { OnErr result (self.new ≡ self.old) }
    {
        let letter = text_of(piece.bytes());
        put_last(&mut self.joined, &mut self.sizes, letter)?;
        Ok(())
    }

    /// How many pieces it has. Takes constant time, and no memory.
    #[tactic(auto, using(crate::proofs::Cuts::length_cut))]
    pub fn len(&self) -> usize
        ensures { result ≡ length self.now }
    {
        self.sizes.len()
    }

    /// How many bytes the piece at a place has, from 0; none past the last. Takes constant time, and no memory.
    pub fn size(&self, place: usize) -> Option<u8>
        ensures { result ≡ option_map length (slice_get self.now place) }
    {
        size_at(&self.sizes, place)
    }

    /// The bytes of its pieces, in order. Takes no memory, and the same time whatever the length.
    pub fn as_str(&self) -> &str
        ensures { result.now ≡ concat self.now }
    {
        self.joined.as_str()
    }

    /// A text that equals this one. Takes time in the number of bytes.
    pub fn copied(&self) -> Result<Text, NoMemory>
        ensures { IfOk result (λ c. c ≡ self.now) }
    {
        Ok(Text {
            joined: String::from_str(*self.joined.allocator(), &self.joined)?,
            sizes: Vec::from_slice(*self.sizes.allocator(), &self.sizes)?,
        })
    }
}

// Puts a letter behind the joined ones, and its size behind their sizes.
fn put_last(joined: &mut String, sizes: &mut Vec<u8>, letter: &str) -> Result<(), NoMemory>
    requires { length letter.now < 256 }
    ensures joined { OnOk result (string_bytes joined.new ≡ string_bytes joined.old ++ letter.now) }
    ensures sizes { OnOk result (sizes.new.items ≡ sizes.old.items ++ length letter.now ∷ []) }
    ensures joined_unchanged { OnErr result (string_bytes joined.new ≡ string_bytes joined.old) }
    ensures sizes_unchanged { OnErr result (sizes.new.items ≡ sizes.old.items) }
{
    sizes.reserve(1)?;
    joined.push_str(letter)?;
    sizes.push(letter.len() as u8).unwrap();
    Ok(())
}

// The text of bytes that are UTF-8.
fn text_of(bytes: &[u8]) -> &str
    requires { IsTrue (is_utf8 bytes.now) }
    ensures { result.now ≡ bytes.now }
{
    match std::str::from_utf8(bytes) {
        Ok(text) => text,
        Err(_) => unreachable!(),
    }
}

// The size at a place.
fn size_at(sizes: &[u8], place: usize) -> Option<u8>
    ensures { result ≡ slice_get sizes.now place }
{
    sizes.get(place).copied()
}
