//! Rows of tickets and of numbers of arrival, in rising order.
ghost use Rattle.std.specs.Prelude.{◌≡◌, ◌++◌, ◌∷◌, [], ◌<◌, ◌≤◌, ◌+◌, ℕ, List, length, option_map, drop, position, true, ◌-◌, nat_le, slice_index_or, slice_set};
ghost use Rattle.std.specs.Prelude.{◌==◌, insert, remove};
ghost use Rattle.std.specs.VecDeque.{deque_len, deque_capacity};
ghost use Rattle.hold_back.specs.Index.{awaited_rank, ticket_rank, ticket_ranks, times_in, IsFirstNotBelow, IsRisingRow, IsWith, IsWithout, AreArrivals, IsTicketRow};

use crate::awaited::Awaited;
use crate::ticket::{Ticket, comes_before};
use std::collections::VecDeque;

// The place of the first ticket that isn't before this one.
fn place(row: &VecDeque<Ticket>, ticket: &Ticket) -> usize
    requires { IsRisingRow (ticket_ranks row.now.items) }
    ensures { IsFirstNotBelow (ticket_rank ticket.now) (ticket_ranks row.now.items) result }
{
    row.partition_point(|other| comes_before(other, ticket))
}

// The place of the first arrival that isn't before this one.
fn arrival_place(arrivals: &VecDeque<u32>, arrival: u32) -> usize
    requires { AreArrivals arrivals.now.items }
    ensures { IsFirstNotBelow arrival arrivals.now.items result }
{
    arrivals.partition_point(|other| *other < arrival)
}

/// Puts a number behind all, for which there is room.
pub(crate) fn push<T: Copy>(row: &mut VecDeque<T>, number: T)
    requires { deque_len row.old < deque_capacity row.old }
    ensures { row.new.items ≡ row.old.items ++ number ∷ [] }
{
    row.push_back_reserved(number);
}

// Puts something in at a place, for which there is room. What is before it moves, or what is behind it, whichever is fewer.
fn put_at<T: Copy>(row: &mut VecDeque<T>, at: usize, item: T)
    requires within { at ≤ length row.old.items }
    requires room { deque_len row.old < deque_capacity row.old }
    ensures { row.new.items ≡ insert row.old.items at item }
{
    let _ = row.insert(at, item);
}

/// Takes what stands at a place out. What is before it moves, or what is behind it, whichever is fewer.
pub(crate) fn take_at<T: Copy>(row: &mut VecDeque<T>, at: usize)
    requires { at < length row.old.items }
    ensures rest { row.new.items ≡ remove row.old.items at }
    ensures room { deque_len row.new < deque_capacity row.new }
{
    let _ = row.remove(at);
}

/// Puts a ticket into a row that has room for it.
pub(crate) fn enter(row: &mut VecDeque<Ticket>, ticket: &Ticket)
    requires rising { IsRisingRow (ticket_ranks row.old.items) }
    requires room { deque_len row.old < deque_capacity row.old }
    ensures { IsWith (ticket_rank ticket.now) (ticket_ranks row.old.items) (ticket_ranks row.new.items) }
{
    let at = place(row, ticket);
    put_at(row, at, *ticket);
}

/// Takes a ticket out of its row.
pub(crate) fn leave(row: &mut VecDeque<Ticket>, ticket: &Ticket)
    requires rising { IsRisingRow (ticket_ranks row.old.items) }
    requires there { 1 ≤ times_in (ticket_rank ticket.now) (ticket_ranks row.old.items) }
    ensures left { IsWithout (ticket_rank ticket.now) (ticket_ranks row.old.items) (ticket_ranks row.new.items) }
    ensures room { deque_len row.new < deque_capacity row.new }
{
    let at = place(row, ticket);
    take_at(row, at);
}

// Whether the ticket at a place isn't behind this one.
fn is_up_to(row: &VecDeque<Ticket>, at: usize, ticket: &Ticket) -> bool
    requires { at < length row.now.items }
    ensures { result ≡ nat_le (slice_index_or (ticket_ranks row.now.items) at 0) (ticket_rank ticket.now) }
{
    !comes_before(ticket, &row[at])
}

// Whether the ticket at a place isn't before this one.
fn is_from(row: &VecDeque<Ticket>, at: usize, ticket: &Ticket) -> bool
    requires { at < length row.now.items }
    ensures { result ≡ nat_le (ticket_rank ticket.now) (slice_index_or (ticket_ranks row.now.items) at 0) }
{
    !comes_before(&row[at], ticket)
}

// Whether this ticket belongs between those beside a place.
fn belongs(row: &VecDeque<Ticket>, at: usize, ticket: &Ticket) -> bool
    requires { at < length row.now.items }
    ensures before { result ≡ true → 0 < at → slice_index_or (ticket_ranks row.now.items) (at - 1) 0 ≤ ticket_rank ticket.now }
    ensures behind { result ≡ true → at + 1 < length row.now.items → ticket_rank ticket.now ≤ slice_index_or (ticket_ranks row.now.items) (at + 1) 0 }
{
    if at > 0 && !is_up_to(row, at - 1, ticket) {
        return false;
    }
    at + 1 == row.len() || is_from(row, at + 1, ticket)
}

fn put_over(row: &mut VecDeque<Ticket>, at: usize, ticket: &Ticket)
    requires { at < length row.old.items }
    ensures { row.new.items ≡ slice_set row.old.items at ticket.now }
{
    row[at] = *ticket;
}

/// Puts another ticket in the place of one, or in its own place where that isn't it. No other moves where it is.
pub(crate) fn exchange(row: &mut VecDeque<Ticket>, left: &Ticket, ticket: &Ticket)
    requires rising { IsRisingRow (ticket_ranks row.old.items) }
    requires there { 1 ≤ times_in (ticket_rank left.now) (ticket_ranks row.old.items) }
    ensures { (between : List ℕ) × IsWithout (ticket_rank left.now) (ticket_ranks row.old.items) between
        × IsWith (ticket_rank ticket.now) between (ticket_ranks row.new.items) }
{
    let at = place(row, left);
    if belongs(row, at, ticket) {
        put_over(row, at, ticket);
        return;
    }
    take_at(row, at);
    enter(row, ticket);
}

/// The least place at or above `from` of a message that awaits this.
pub(crate) fn next(
    row: &VecDeque<Ticket>,
    arrivals: &VecDeque<u32>,
    awaited: &Awaited,
    from: usize,
) -> Option<usize>
    requires arrivals { AreArrivals arrivals.now.items }
    requires rising { IsRisingRow (ticket_ranks row.now.items) }
    ensures { (all : List ℕ) → IsTicketRow all arrivals.now.items (ticket_ranks row.now.items)
        → result ≡ option_map (λ k. from + k) (position (λ n. n == awaited_rank awaited.now) (drop from all)) }
{
    if from >= arrivals.len() {
        return None;
    }
    let first = Ticket::of(awaited, arrivals[from]);
    let at = place(row, &first);
    if at >= row.len() {
        return None;
    }
    let found = &row[at];
    let arrival = found.arrival;
    if !found.awaited.is_same(awaited) {
        return None;
    }
    Some(arrival_place(arrivals, arrival))
}
