//! What is kept beside the held messages.
ghost use Rattle.std.specs.Prelude.{◌≡◌, ◌<◌, ◌≤◌, ◌+◌, ◌==◌, ◌++◌, ◌∷◌, [], ℕ, List, length, drop, position, option_map, remove, slice_index_or, OnOk, IfErr, IfSome};
ghost use Rattle.std.specs.List.{All};
ghost use Rattle.std.specs.VecDeque.{deque_len, deque_capacity};
ghost use Rattle.hold_back.specs.declared.fault.HoldFault.TheVariants.{NoMemory as no_memory};
ghost use Rattle.hold_back.specs.Index.{awaited_rank, rank, ticket_ranks, times_in, IsRisingRow, IsWith, IsWithout, HasIndexRoom, IsNextArrival, AreArrivals, IsTicketRow, IsIndexOf};

use crate::awaited::Awaited;
use crate::fault::HoldFault;
use crate::row;
use crate::ticket::Ticket;
use std::alloc::Global;
use std::collections::VecDeque;

/// The messages' numbers of arrival, and rows of tickets: of what each waits for, and of its key. A message takes 52 bytes.
#[derive(Drop)]
pub(crate) struct Index {
    arrivals: VecDeque<u32>,
    needs: VecDeque<Ticket>,
    keys: VecDeque<Ticket>,
}

impl Index {
    /// That of no message. Takes no memory.
    pub(crate) fn new(alloc: Global) -> Index
        ensures { IsIndexOf [] [] result }
    {
        Index {
            arrivals: VecDeque::new(alloc),
            needs: VecDeque::new(alloc),
            keys: VecDeque::new(alloc),
        }
    }

    /// Takes the memory for one more message, or fails and leaves all as it was.
    pub(crate) fn reserve(&mut self) -> Result<(), HoldFault>
        ensures arrivals { self.new.arrivals.items ≡ self.old.arrivals.items }
        ensures needs { self.new.needs.items ≡ self.old.needs.items }
        ensures keys { self.new.keys.items ≡ self.old.keys.items }
        ensures room { OnOk result (HasIndexRoom self.new) }
        ensures fault { IfErr result (λ fault. fault ≡ no_memory) }
    {
        room(&mut self.arrivals)?;
        room(&mut self.needs)?;
        room(&mut self.keys)
    }

    /// The number of arrival of the next message; none where all are used.
    pub(crate) fn next_arrival(&self) -> Option<u32>
        requires { AreArrivals self.now.arrivals.items }
        ensures { IfSome result (λ a. IsNextArrival self.now a) }
    {
        match self.arrivals.back() {
            None => Some(0),
            Some(last) => last.checked_add(1),
        }
    }

    /// The least place at or above `from` of a message that awaits this. Takes time logarithmic in the number of messages.
    pub(crate) fn waiting(&self, need: &Awaited, from: usize) -> Option<usize>
        requires arrivals { AreArrivals self.now.arrivals.items }
        requires rising { IsRisingRow (ticket_ranks self.now.needs.items) }
        ensures { (needs : List ℕ) → IsTicketRow needs self.now.arrivals.items (ticket_ranks self.now.needs.items)
            → result ≡ option_map (λ k. from + k) (position (λ n. n == awaited_rank need.now) (drop from needs)) }
    {
        row::next(&self.needs, &self.arrivals, need, from)
    }

    /// The least place of a message of the key. Takes time logarithmic in the number of messages.
    pub(crate) fn place(&self, key: &Awaited) -> Option<usize>
        requires arrivals { AreArrivals self.now.arrivals.items }
        requires rising { IsRisingRow (ticket_ranks self.now.keys.items) }
        ensures { (keys : List ℕ) → IsTicketRow keys self.now.arrivals.items (ticket_ranks self.now.keys.items)
            → result ≡ position (λ n. n == awaited_rank key.now) keys }
    {
        row::next(&self.keys, &self.arrivals, key, 0)
    }

    /// One more message, of this number of arrival, which awaits this and has this key. The memory is there.
    pub(crate) fn enter(&mut self, arrival: u32, need: &Awaited, key: &Awaited)
        requires room { HasIndexRoom self.old }
        requires needs { IsRisingRow (ticket_ranks self.old.needs.items) }
        requires keys { IsRisingRow (ticket_ranks self.old.keys.items) }
        ensures arrivals { self.new.arrivals.items ≡ self.old.arrivals.items ++ arrival ∷ [] }
        ensures needs { IsWith (rank (awaited_rank need.now) arrival) (ticket_ranks self.old.needs.items) (ticket_ranks self.new.needs.items) }
        ensures keys { IsWith (rank (awaited_rank key.now) arrival) (ticket_ranks self.old.keys.items) (ticket_ranks self.new.keys.items) }
    {
        row::enter(&mut self.needs, &Ticket::of(need, arrival));
        row::enter(&mut self.keys, &Ticket::of(key, arrival));
        row::push(&mut self.arrivals, arrival);
    }

    /// The message at a place, which awaits this and has this key, no more.
    pub(crate) fn leave(&mut self, i: usize, need: &Awaited, key: &Awaited)
        requires within { i < length self.old.arrivals.items }
        requires needs { IsRisingRow (ticket_ranks self.old.needs.items) }
        requires keys { IsRisingRow (ticket_ranks self.old.keys.items) }
        requires in_needs { 1 ≤ times_in (rank (awaited_rank need.now) (slice_index_or self.old.arrivals.items i 0)) (ticket_ranks self.old.needs.items) }
        requires in_keys { 1 ≤ times_in (rank (awaited_rank key.now) (slice_index_or self.old.arrivals.items i 0)) (ticket_ranks self.old.keys.items) }
        ensures arrivals { self.new.arrivals.items ≡ remove self.old.arrivals.items i }
        ensures needs { IsWithout (rank (awaited_rank need.now) (slice_index_or self.old.arrivals.items i 0)) (ticket_ranks self.old.needs.items) (ticket_ranks self.new.needs.items) }
        ensures keys { IsWithout (rank (awaited_rank key.now) (slice_index_or self.old.arrivals.items i 0)) (ticket_ranks self.old.keys.items) (ticket_ranks self.new.keys.items) }
    {
        let arrival = self.arrivals[i];
        row::leave(&mut self.needs, &Ticket::of(need, arrival));
        row::leave(&mut self.keys, &Ticket::of(key, arrival));
        row::take_at(&mut self.arrivals, i);
    }

    /// The message at a place awaits another thing. Takes no memory.
    pub(crate) fn exchange(&mut self, i: usize, left: &Awaited, need: &Awaited)
        requires within { i < length self.old.arrivals.items }
        requires needs { IsRisingRow (ticket_ranks self.old.needs.items) }
        requires in_needs { 1 ≤ times_in (rank (awaited_rank left.now) (slice_index_or self.old.arrivals.items i 0)) (ticket_ranks self.old.needs.items) }
        ensures arrivals { self.new.arrivals.items ≡ self.old.arrivals.items }
        ensures keys { self.new.keys.items ≡ self.old.keys.items }
        ensures needs { (between : List ℕ) × IsWithout (rank (awaited_rank left.now) (slice_index_or self.old.arrivals.items i 0)) (ticket_ranks self.old.needs.items) between
            × IsWith (rank (awaited_rank need.now) (slice_index_or self.old.arrivals.items i 0)) between (ticket_ranks self.new.needs.items) }
    {
        let arrival = self.arrivals[i];
        let left = Ticket::of(left, arrival);
        row::exchange(&mut self.needs, &left, &Ticket::of(need, arrival));
    }
}

fn room<T>(row: &mut VecDeque<T>) -> Result<(), HoldFault>
    ensures items { row.new.items ≡ row.old.items }
    ensures room { OnOk result (deque_len row.new < deque_capacity row.new) }
    ensures fault { IfErr result (λ fault. fault ≡ no_memory) }
{
    match row.reserve(1) {
        Ok(()) => Ok(()),
        Err(_) => Err(HoldFault::NoMemory),
    }
}
