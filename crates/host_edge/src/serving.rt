//! What is done with a connection that is ready, or whose time is up.

use crate::conn::{Closing, Conn, Linked, Stage};
use crate::desk::Desk;
use crate::linking::serve_linked;
use crate::opening::serve_unknown;
use crate::web::{serve_answering, serve_asking};
use host_interface::HouseDocument;
use host_link::Ending;
use host_socket::{After, await_close, send_ping};

// How many messages of a socket that ends are let go before it is gone.
const MOST_LET_GO: u32 = 64;

// Awaits the other side's close.
fn serve_closing(mut closing: Closing, until: u64) -> Option<Conn> {
    if await_close(&mut closing.socket, MOST_LET_GO) {
        Some(Conn::waiting(Stage::Closing(closing), until))
    } else {
        drop(closing);
        None
    }
}

/// Goes on with a connection that may be ready. None where it is gone.
pub(crate) fn serve_conn<'a, D: HouseDocument<'a>>(
    desk: &mut Desk<'a, D>,
    slot: usize,
    conn: Conn,
) -> Option<Conn> {
    let Conn {
        stage,
        until,
        unread: _,
    } = conn;
    match stage {
        Stage::Asking(asking) => serve_asking(desk, slot, asking, until),
        Stage::Answering(answering) => serve_answering(desk, answering, until),
        Stage::Unknown(unknown) => serve_unknown(desk, slot, unknown, until),
        Stage::Linked(linked) => serve_linked(desk, slot, linked, until),
        Stage::Closing(closing) => serve_closing(closing, until),
    }
}

// Pings a link whose time for it has come, unless its socket takes nothing.
fn ping<D>(desk: &Desk<'_, D>, linked: &mut Linked) -> After {
    if desk.now < linked.ping_at || linked.blocked.is_some() {
        return After::More;
    }
    linked.ping_at = desk.now.saturating_add(desk.limits.ping);
    let after = send_ping(&mut linked.socket);
    if after == After::Waits {
        linked.blocked = Some(desk.now);
    }
    after
}

// Whether the socket of a link has taken nothing for too long.
fn is_slow<D>(desk: &Desk<'_, D>, linked: &Linked) -> bool {
    match linked.blocked {
        Some(since) => desk.now > since.saturating_add(desk.limits.slow),
        None => false,
    }
}

// Looks whether a link is silent or slow, and pings it.
fn expire_linked<'a, D: HouseDocument<'a>>(
    desk: &mut Desk<'a, D>,
    slot: usize,
    mut linked: Linked,
    until: u64,
    unread: bool,
) -> Option<Conn> {
    if desk.now > until {
        return desk.ended_link(slot, linked, Ending::Silent);
    }
    if is_slow(desk, &linked) {
        return desk.ended_link(slot, linked, Ending::Slow);
    }
    match ping(desk, &mut linked) {
        After::Ends(why) => desk.ended_link(slot, linked, why),
        After::Gone => desk.gone_link(slot, linked),
        _ => Some(Conn {
            stage: Stage::Linked(linked),
            until,
            unread,
        }),
    }
}

// What a socket that ends becomes when its time is up.
fn expire_closing<D>(desk: &mut Desk<'_, D>, closing: Closing) -> Option<Conn> {
    let Closing { socket, why } = closing;
    match why {
        Some(why) => desk.ended(socket, why),
        None => {
            drop(socket);
            None
        }
    }
}

// What a connection that is no link becomes when its time is up.
fn expired<D>(desk: &mut Desk<'_, D>, stage: Stage) -> Option<Conn> {
    match stage {
        Stage::Unknown(unknown) => desk.ended(unknown.socket, Ending::Silent),
        Stage::Closing(closing) => expire_closing(desk, closing),
        stage => {
            drop(stage);
            None
        }
    }
}

// Looks whether the time of a connection is up that is no link.
fn expire_other<D>(desk: &mut Desk<'_, D>, conn: Conn) -> Option<Conn> {
    if desk.now <= conn.until {
        return Some(conn);
    }
    let Conn { stage, .. } = conn;
    expired(desk, stage)
}

/// Looks at a connection once a second. None where it is gone.
pub(crate) fn expire_conn<'a, D: HouseDocument<'a>>(
    desk: &mut Desk<'a, D>,
    slot: usize,
    conn: Conn,
) -> Option<Conn> {
    match conn.into_link() {
        Ok((linked, until, unread)) => expire_linked(desk, slot, linked, until, unread),
        Err(conn) => expire_other(desk, conn),
    }
}
