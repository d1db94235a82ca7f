//! What is counted of an element.
ghost use Rattle.std.specs.Prelude.{◌≡◌, ◌+◌, ◌-◌, ◌<◌, ◌≤◌, ◌^◌, ◌∷◌, [], length, slice_get, option_map, IfOk, OnOk, OnErr, None, IsTrue};
ghost use Rattle.std.specs.BTreeMap.{IsOrdered};
ghost use Rattle.element_name.specs.Named.{name_cmp, item_named, put_named, without_named, is_ascending};
ghost use Rattle.coop_request.specs.LentEdit.{edit_lent};
ghost use Rattle.elem_show.specs.Counting.{HasRoomFor, counts_more, counts_less, has_cut};
ghost use Rattle.elem_show.specs.Held.{counts_in, HoldsLetters};

use coop_request::{LentEdit, LentPiece, PackedPiece, Piece, Right};
use element_name::{Name, NoMemory};
use std::alloc::Global;
use std::collections::BTreeMap;
use std::marker::Model;

/// The deletes and the updates of an element that count.
///
/// It takes 16 bytes, and a box once an update was counted.
#[derive(Drop)]
pub struct Counts {
    held: Held,
}

/// How many deletes count, and behind a box the updates too.
#[derive(Drop)]
pub(crate) enum Held {
    Cuts(u32),
    Both(Box<Boxed>),
}

/// How many deletes count, and the updates that do, with their pieces.
#[derive(Drop)]
pub(crate) struct Boxed {
    pub(crate) cuts: u32,
    pub(crate) letters: BTreeMap<Name, PackedPiece>,
}

impl Model for Counts {
    ghost use Rattle.elem_show.specs.Cell as spec;
    ghost use Rattle.elem_show.specs.Held.{counts_in, HoldsLetters};

    ghost Value = { spec.Counts };

    ghost view = { λ c. counts_in c.held };

    ghost invariant = { λ c. HoldsLetters c.held };
}

// One more letter.
fn put_letter(
    alloc: Global,
    letters: &mut BTreeMap<Name, PackedPiece>,
    id: Name,
    letter: &LentPiece<'_>,
) -> Result<(), NoMemory>
    requires new { item_named (λ x. x.0) id letters.old.entries ≡ None }
    ensures ok { OnOk result (letters.new.entries ≡ put_named (λ x. x.0) (id, letter.now) letters.old.entries) }
    ensures err { OnErr result (letters.new.entries ≡ letters.old.entries) }
    ensures ordered { IsOrdered name_cmp letters.old → IsOrdered name_cmp letters.new }
    ensures len { length letters.new.entries ≤ length letters.old.entries + 1 }
{
    let letter = PackedPiece::of_lent(alloc, letter)?;
    letters.insert(id, letter)?;
    Ok(())
}

// One letter fewer.
fn take_letter(letters: &mut BTreeMap<Name, PackedPiece>, id: Name)
    requires ordered { IsOrdered name_cmp letters.old }
    ensures taken { letters.new.entries ≡ without_named (λ x. x.0) id letters.old.entries }
    ensures ordered { IsOrdered name_cmp letters.new }
    ensures len { length letters.new.entries ≤ length letters.old.entries }
{
    letters.remove(&id);
}

// The letter at this place.
fn letter_at(letters: &BTreeMap<Name, PackedPiece>, i: u32) -> Option<(Name, Piece)>
    ensures { result ≡ slice_get letters.now.entries i }
{
    match letters.iter().nth(i as usize) {
        Some((name, piece)) => Some((*name, piece.piece())),
        None => None,
    }
}

// The piece of the last letter.
fn last_piece(letters: &BTreeMap<Name, PackedPiece>) -> Option<Piece>
    ensures { result ≡ option_map (λ x. x.1) (slice_get letters.now.entries (length letters.now.entries - 1)) }
{
    match letters.last_key_value() {
        Some((_, piece)) => Some(piece.piece()),
        None => None,
    }
}

// The first letter, in a box of its own.
fn first_letter(
    alloc: Global,
    cuts: u32,
    id: Name,
    letter: &LentPiece<'_>,
) -> Result<Held, NoMemory>
    ensures counts { IfOk result (λ held. counts_in held ≡ record { cuts = cuts; letters = (id, letter.now) ∷ [] }) }
    ensures holds { IfOk result (λ held. HoldsLetters held) }
{
    let mut letters = BTreeMap::new(alloc);
    put_letter(alloc, &mut letters, id, letter)?;
    let both = Box::new(alloc, Boxed { cuts, letters })?;
    Ok(Held::Both(both))
}

impl Counts {
    /// Those of an element of which nothing is counted. It takes no memory.
    pub fn new() -> Counts
        ensures { result ≡ record { cuts = 0; letters = [] } }
    {
        Counts {
            held: Held::Cuts(0),
        }
    }

    /// How many deletes count.
    pub fn cuts(&self) -> u32
        ensures { result ≡ self.now.cuts }
    {
        match &self.held {
            Held::Cuts(cuts) => *cuts,
            Held::Both(both) => both.cuts,
        }
    }

    /// How many updates count.
    pub fn letters(&self) -> u32
        ensures { result ≡ length self.now.letters }
    {
        match &self.held {
            Held::Cuts(_) => 0,
            Held::Both(both) => both.letters.len() as u32,
        }
    }

    /// The counted update at this place, in ascending order of name, and its piece. It takes time in the place.
    pub fn letter(&self, i: u32) -> Option<(Name, Piece)>
        ensures value { result ≡ slice_get self.now.letters i }
        ensures in_order { IsTrue (is_ascending (λ x. x.0) self.now.letters) }
    {
        match &self.held {
            Held::Cuts(_) => None,
            Held::Both(both) => letter_at(&both.letters, i),
        }
    }

    /// The piece of the counted update with the greatest name.
    pub fn last_letter(&self) -> Option<Piece>
        ensures { result ≡ option_map (λ x. x.1) (slice_get self.now.letters (length self.now.letters - 1)) }
    {
        match &self.held {
            Held::Cuts(_) => None,
            Held::Both(both) => last_piece(&both.letters),
        }
    }

    // One more delete.
    fn count_cut(&mut self)
        requires { self.old.cuts + 1 < 2 ^ 32 }
        ensures { self.new ≡ record { cuts = self.old.cuts + 1; letters = self.old.letters } }
    {
        match &mut self.held {
            Held::Cuts(cuts) => *cuts += 1,
            Held::Both(both) => both.cuts += 1,
        }
    }

    // One delete fewer.
    fn discount_cut(&mut self)
        requires { 0 < self.old.cuts }
        ensures { self.new ≡ record { cuts = self.old.cuts - 1; letters = self.old.letters } }
    {
        match &mut self.held {
            Held::Cuts(cuts) => *cuts -= 1,
            Held::Both(both) => both.cuts -= 1,
        }
    }

    // One more update.
    fn count_letter(
        &mut self,
        alloc: Global,
        id: Name,
        letter: &LentPiece<'_>,
    ) -> Result<(), NoMemory>
        requires room { HasRoomFor id self.old }
        ensures ok { OnOk result (self.new ≡ record { cuts = self.old.cuts; letters = put_named (λ x. x.0) (id, letter.now) self.old.letters }) }
        ensures err { OnErr result (self.new ≡ self.old) }
    {
        match &mut self.held {
            Held::Cuts(cuts) => {
                let first = first_letter(alloc, *cuts, id, letter)?;
                self.held = first;
                Ok(())
            }
            Held::Both(both) => put_letter(alloc, &mut both.letters, id, letter),
        }
    }

    // One update fewer.
    fn discount_letter(&mut self, id: Name)
        ensures { self.new ≡ record { cuts = self.old.cuts; letters = without_named (λ x. x.0) id self.old.letters } }
    {
        match &mut self.held {
            Held::Cuts(_) => {}
            Held::Both(both) => take_letter(&mut both.letters, id),
        }
    }

    /// One more request of the element counts. An insert is counted by its state alone, so it changes nothing. An update
    /// takes memory, and logarithmic time in those that count; a want of memory changes nothing.
    pub fn count(&mut self, alloc: Global, id: Name, edit: &LentEdit<'_>) -> Result<(), NoMemory>
        requires room { HasRoomFor id self.old }
        ensures ok { OnOk result (self.new ≡ counts_more id (edit_lent edit.now) self.old) }
        ensures err { OnErr result (self.new ≡ self.old) }
    {
        match edit {
            LentEdit::Insert { .. } => Ok(()),
            LentEdit::Delete { .. } => {
                self.count_cut();
                Ok(())
            }
            LentEdit::Update { letter, .. } => self.count_letter(alloc, id, letter),
        }
    }

    /// A request of the element with that name, which needs that right, counts no more. It takes no memory, and logarithmic
    /// time in the updates that count.
    pub fn discount(&mut self, id: Name, right: Right)
        requires counted { IsTrue (has_cut right self.old.cuts) }
        ensures { self.new ≡ counts_less id right self.old }
    {
        match right {
            Right::Insert => {}
            Right::Delete => self.discount_cut(),
            Right::Update => self.discount_letter(id),
        }
    }
}
