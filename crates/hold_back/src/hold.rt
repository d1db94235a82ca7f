//! The hold.
ghost use Rattle.std.specs.Prelude.{◌≡◌, ◌&&◌, ◌≤◌, ◌<◌, ◌++◌, List, [], ◌∷◌, None, Some, false, length, remove, slice_get, position, find};
ghost use Rattle.std.specs.Prelude.{◌==◌, ◌+◌, true, IfSome, slice_index_or, drop, unwrap_or, option_map, IfOk, IfErr, OnOk, OnErr, IsTrue};
ghost use Rattle.std.specs.List.{list_any, list_all};
ghost use Rattle.std.specs.Option.{option_copied};
ghost use Rattle.hold_back.specs.declared.fault.HoldFault.TheVariants.{NoMemory as no_memory};
ghost use Rattle.hold_back.specs.declared.held.Held.{Held};
ghost use Rattle.element_name.specs.Growing.{EachAfter};
ghost use Rattle.edit_message.specs.Message.{key_of, key_eq};
ghost use Rattle.hold_back.specs.Hold.{find_held, keep_fault, needing_at, woken_at, waiting_at, woken_from, waiting_from, due_at};
ghost use Rattle.hold_back.specs.Hold.{only_woken_due, is_woken, waits_for, IsNewKey, keys_of};
ghost use Rattle.hold_back.specs.Index.{IsIndexed, AreTicketsOf, HasArrivalRoom, awaited_rank, need_ranks, held_fits};
ghost use Rattle.std.specs.List.{All};

use crate::awaited::Awaited;
use crate::fault::HoldFault;
use crate::held::Held;
use crate::index::Index;
use crate::need::Need;
use crate::parcel::Parcel;
use edit_message::{Key, Message};
use std::alloc::Global;
use std::marker::Model;

/// How many messages may be held.
pub const MAX_HELD: usize = 4_096;

/// Which messages are due: of those that are asked about, the ones that may be integrated.
pub trait Due {
    ghost use Rattle.std.specs.Prelude.{Bool};
    ghost use Rattle.edit_message.specs.declared.message.Message as spec;

    /// Whether a message is due.
    ghost is_due: { Self → spec.Message → Bool };

    /// Whether the message is due.
    fn due(&self, message: &Message) -> bool
        ensures { result ≡ is_due self.now message.now };
}

/// Held messages in order of arrival, each waiting under its need, or woken. Each lies behind a pointer, so that little
/// moves where one is taken out; it takes about 450 bytes. Rows beside them, in rising order, have what each waits for and
/// its key, in 52 bytes, so that a message is found by halves and no call passes over the held ones.
#[derive(Drop)]
pub struct HoldBack {
    alloc: Global,
    held: Vec<Parcel>,
    index: Index,
}

impl Model for HoldBack {
    ghost Value = { List Held };

    ghost view = { λ h. h.held.items };

    ghost invariant = { λ h. IsIndexed h.held.items h.index };
}

impl HoldBack {
    /// The empty hold. Takes no memory.
    pub fn new(alloc: Global) -> HoldBack
        ensures { result ≡ [] }
    {
        HoldBack {
            alloc,
            held: Vec::new(alloc),
            index: Index::new(alloc),
        }
    }

    /// How many messages are held.
    pub fn len(&self) -> u32
        ensures count { result ≡ length self.now }
        ensures few { result ≤ MAX_HELD }
        ensures distinct { EachAfter IsNewKey (keys_of self.now) }
    {
        self.held.len() as u32
    }

    /// The message at a place in order of arrival.
    pub fn at(&self, i: u32) -> Option<&Message>
        ensures { option_copied result ≡ option_map (λ h. h.message) (slice_get self.now i) }
    {
        let held = self.held.get(i as usize)?;
        Some(held.message())
    }

    /// The message of a key, in time logarithmic in the number of held messages.
    pub fn find(&self, key: Key) -> Option<&Message>
        ensures { option_copied result ≡ find_held key self.now }
    {
        match self.index.place(&Awaited::of_key(key)) {
            Some(place) => message_at(&self.held, place),
            None => None,
        }
    }

    /// Puts a message last, waiting under its need. Takes the memory for it, its pointer and its place in each row, before
    /// anything changes; its place in a row is found by halves, and of the tickets before it and behind it the fewer move.
    pub fn keep(&mut self, message: Message, need: Need) -> Result<(), HoldFault>
        requires new { find_held (key_of message) self.old ≡ None }
        ensures room { OnOk result (keep_fault self.old ≡ None) }
        ensures ok { OnOk result (self.new ≡ self.old ++ (record { message = message; need = Some need }) ∷ []) }
        ensures fault { IfErr result (λ fault. fault ≡ unwrap_or (keep_fault self.old) no_memory) }
        ensures unchanged { OnErr result (self.new ≡ self.old) }
    {
        if self.held.len() >= MAX_HELD {
            return Err(HoldFault::Full);
        }
        let key = Awaited::of_key(message.key());
        let awaited = Awaited::of_need(&Some(need));
        let arrival = make_room(&mut self.index, self.alloc, &self.held)?;
        put(&mut self.held, self.alloc, message, &need)?;
        self.index.enter(arrival, &awaited, &key);
        Ok(())
    }

    /// Wakes the message at a place. Takes no memory; where another ticket stands between its place in the row of needs and
    /// its new one, of those before and behind each place the fewer move.
    pub fn wake(&mut self, i: u32)
        requires { i < length self.old }
        ensures { self.new ≡ woken_at i self.old }
    {
        self.need_anew(i as usize, None);
    }

    /// Lets go of a need that is met, under which no message waits any more. Nothing is kept for such a need, so nothing is
    /// done.
    pub fn met(&mut self, need: Need)
        requires { list_any (waits_for need) self.old ≡ false }
        ensures { self.new ≡ self.old }
    {}

    /// Has the message at a place wait under a need. Takes no memory; where another ticket stands between its place in the
    /// row of needs and its new one, of those before and behind each place the fewer move.
    pub fn wait_again(&mut self, i: u32, need: Need)
        requires { i < length self.old }
        ensures { self.new ≡ waiting_at i need self.old }
    {
        self.need_anew(i as usize, Some(need));
    }

    // Has the message at a place wait under a need, or no more where there is none.
    fn need_anew(&mut self, i: usize, need: Option<Need>)
        requires { i < length self.old }
        ensures { self.new ≡ needing_at i need self.old }
    {
        let left = Awaited::of_need(&need_at(&self.held, i));
        let awaited = Awaited::of_need(&need);
        set_need(&mut self.held, i, &need);
        self.index.exchange(i, &left, &awaited);
    }

    /// The least place at or above `from` whose message is woken, in time logarithmic in the number of held messages.
    pub fn woken(&self, from: u32) -> Option<u32>
        ensures { result ≡ woken_from from self.now }
    {
        self.next(&Awaited::Nothing, from)
    }

    /// The least place at or above `from` whose message waits under the need, in time logarithmic in the number of held
    /// messages.
    pub fn waiting(&self, need: Need, from: u32) -> Option<u32>
        ensures { result ≡ waiting_from need from self.now }
    {
        self.next(&Awaited::of_need(&Some(need)), from)
    }

    // The least place at or above `from` of a message that awaits this.
    fn next(&self, awaited: &Awaited, from: u32) -> Option<u32>
        ensures place { result ≡ option_map (λ k. from + k) (position (λ n. n == awaited_rank awaited.now) (drop from (need_ranks self.now))) }
        ensures within { IfSome result (λ i. i < length self.now) }
        ensures fit { list_all held_fits self.now ≡ true }
    {
        match self.index.waiting(awaited, from as usize) {
            Some(place) => Some(place as u32),
            None => None,
        }
    }

    /// The place of the earliest message that is due. Only woken messages are looked at, in order of arrival and each at
    /// most once, in time logarithmic in the number of held messages for each.
    pub fn first_due<T: Due>(&self, test: &T) -> Option<u32>
        requires { IsTrue (only_woken_due (T.is_due test.now) self.now) }
        ensures { result ≡ due_at (T.is_due test.now) self.now }
    {
        let mut from = 0;
        while let Some(place) = self.woken(from) {
            if is_due_at(&self.held, place, test) {
                return Some(place);
            }
            from = place + 1;
        }
        None
    }

    /// Takes a message out; the others keep their order. Takes no memory, and moves a pointer for each message behind it.
    /// Of the numbers of arrival and of the tickets in each row those before it move, or those behind it, whichever are fewer.
    pub fn take(&mut self, i: u32) -> Message
        requires { i < length self.old }
        ensures taken { option_map (λ h. h.message) (slice_get self.old i) ≡ Some result }
        ensures rest { self.new ≡ remove self.old i }
    {
        let held = take_out(&mut self.held, i as usize);
        let key = Awaited::of_key(held.message.key());
        let awaited = Awaited::of_need(&held.need);
        self.index.leave(i as usize, &awaited, &key);
        held.message
    }
}

fn message_at(held: &[Parcel], place: usize) -> Option<&Message>
    ensures { option_copied result ≡ option_map (λ h. h.message) (slice_get held.now place) }
{
    let held = held.get(place)?;
    Some(held.message())
}

fn is_due_at<T: Due>(held: &[Parcel], place: u32, test: &T) -> bool
    requires { place < length held.now }
    ensures { (d : Held) → result ≡ T.is_due test.now (slice_index_or held.now place d).message }
{
    test.due(held[place as usize].message())
}

fn push(held: &mut Vec<Parcel>, parcel: Parcel) -> Result<(), HoldFault>
    ensures ok { OnOk result (held.new.items ≡ held.old.items ++ parcel ∷ []) }
    ensures err { IfErr result (λ fault. (fault ≡ no_memory) × (held.new.items ≡ held.old.items)) }
{
    match held.push(parcel) {
        Ok(()) => Ok(()),
        Err(_) => Err(HoldFault::NoMemory),
    }
}

fn put(
    held: &mut Vec<Parcel>,
    alloc: Global,
    message: Message,
    need: &Need,
) -> Result<(), HoldFault>
    ensures ok { OnOk result (held.new.items ≡ held.old.items ++ (record { message = message; need = Some need.now }) ∷ []) }
    ensures err { IfErr result (λ fault. (fault ≡ no_memory) × (held.new.items ≡ held.old.items)) }
{
    let need = Some(*need);
    let parcel = Parcel::new(alloc, Held { message, need })?;
    push(held, parcel)
}

fn need_at(held: &[Parcel], i: usize) -> Option<Need>
    requires { i < length held.now }
    ensures { option_map (λ h. h.need) (slice_get held.now i) ≡ Some result }
{
    held[i].need()
}

fn set_need(held: &mut Vec<Parcel>, i: usize, need: &Option<Need>)
    requires { i < length held.old.items }
    ensures { held.new.items ≡ needing_at i need.now held.old.items }
{
    held[i].wait(*need);
}

fn take_out(held: &mut Vec<Parcel>, i: usize) -> Held
    requires { i < length held.old.items }
    ensures taken { slice_get held.old.items i ≡ Some result }
    ensures rest { held.new.items ≡ remove held.old.items i }
{
    held.remove(i).into_held()
}

/// The index of messages that are numbered anew, by their places.
fn numbered(alloc: Global, held: &[Parcel]) -> Result<Index, HoldFault>
    requires { length held.now ≤ MAX_HELD }
    ensures ok { IfOk result (λ index. AreTicketsOf held.now index × All (λ a. a < length held.now) index.arrivals.items) }
    ensures fault { IfErr result (λ fault. fault ≡ no_memory) }
{
    let mut index = Index::new(alloc);
    let mut i = 0;
    while i < held.len() {
        index.reserve()?;
        let parcel = &held[i];
        let key = Awaited::of_key(parcel.message().key());
        let awaited = Awaited::of_need(&parcel.need());
        index.enter(i as u32, &awaited, &key);
        i += 1;
    }
    Ok(index)
}

/// The index of messages that are numbered anew, with the memory for one more.
#[inline(never)]
fn renumbered(alloc: Global, held: &[Parcel]) -> Result<Index, HoldFault>
    requires { length held.now ≤ MAX_HELD }
    ensures ok { IfOk result (λ index. AreTicketsOf held.now index × HasArrivalRoom index (length held.now)) }
    ensures fault { IfErr result (λ fault. fault ≡ no_memory) }
{
    let mut index = numbered(alloc, held)?;
    index.reserve()?;
    Ok(index)
}

/// Takes the memory for one more message in the index; its number of arrival. Once in 4,294,967,296 messages they are
/// numbered anew.
fn make_room(index: &mut Index, alloc: Global, held: &[Parcel]) -> Result<u32, HoldFault>
    requires few { length held.now ≤ MAX_HELD }
    requires index { AreTicketsOf held.now index.old }
    ensures index { AreTicketsOf held.now index.new }
    ensures ok { IfOk result (λ a. HasArrivalRoom index.new a) }
    ensures fault { IfErr result (λ fault. fault ≡ no_memory) }
{
    index.reserve()?;
    if let Some(arrival) = index.next_arrival() {
        return Ok(arrival);
    }
    *index = renumbered(alloc, held)?;
    Ok(held.len() as u32)
}
