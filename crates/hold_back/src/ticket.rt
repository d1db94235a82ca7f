//! Tickets: what stands in a row for a message.
ghost use Rattle.std.specs.Prelude.{◌≡◌, nat_lt};
ghost use Rattle.hold_back.specs.Index.{ticket_rank};

use crate::awaited::Awaited;
use std::cmp::Ordering;

/// A message in a row: what it awaits, or what has its key, and its number of arrival. Tickets are ordered by the one, and
/// then by the other.
#[derive(Clone, Copy)]
pub(crate) struct Ticket {
    pub(crate) awaited: Awaited,
    pub(crate) arrival: u32,
}

impl Ticket {
    /// The ticket of a message that awaits this, or with the key that this has, of this number of arrival.
    pub(crate) fn of(awaited: &Awaited, arrival: u32) -> Ticket
        ensures { result ≡ record { awaited = awaited.now; arrival = arrival } }
    {
        Ticket {
            awaited: *awaited,
            arrival,
        }
    }
}

/// Whether a ticket is before another one in the order.
pub(crate) fn comes_before(ticket: &Ticket, other: &Ticket) -> bool
    ensures { result ≡ nat_lt (ticket_rank ticket.now) (ticket_rank other.now) }
{
    let (arrival, others) = (ticket.arrival, other.arrival);
    match ticket.awaited.compare(&other.awaited) {
        Ordering::Less => true,
        Ordering::Equal => arrival < others,
        Ordering::Greater => false,
    }
}
