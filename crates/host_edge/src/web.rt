//! Requests over HTTP, and their answers.

use crate::conn::{Answering, Asking, Conn, Place, Stage, Unknown};
use crate::desk::Desk;
use crate::found::{Asker, Found, found_at};
use crate::opening::serve_unknown;
use host_http::{
    Asked, MAX_HEAD, Part, Route, Status, body_head, moved_answer, read_head, status_answer,
};
use host_interface::HouseDocument;
use host_socket::{Network, Socket, accepted, read_some, write_some};
use mio::net::TcpStream;
use std::alloc::{AllocError, Global};
use std::io;

const PLAIN: &str = "text/plain; charset=utf-8";

const BYTES: &str = "application/octet-stream";

/// What a request is answered by.
#[derive(Drop)]
enum Answer {
    /// Head and body.
    Whole(Vec<u8>),
    /// The file of a page behind its head.
    File(Vec<u8>, usize),
}

// A body behind its head.
fn with_body(alloc: Global, kind: &str, body: &[u8]) -> Result<Answer, AllocError> {
    let mut bytes = body_head(alloc, kind, body.len())?;
    bytes.extend_from_slice(body)?;
    Ok(Answer::Whole(bytes))
}

// A refusal.
fn refused(alloc: Global, status: Status) -> Result<Answer, AllocError> {
    Ok(Answer::Whole(status_answer(alloc, status)?))
}

// What the host counts.
fn metrics_answer<D>(desk: &Desk<'_, D>) -> Result<Answer, AllocError> {
    let text = desk.counts.text(desk.alloc, desk.open_count())?;
    with_body(desk.alloc, PLAIN, text.as_str().as_bytes())
}

// The file of a page.
fn file_answer<D>(desk: &Desk<'_, D>, number: usize) -> Result<Answer, AllocError> {
    let Some(file) = desk.pages.file(number) else {
        return refused(desk.alloc, Status::NotFound);
    };
    let head = body_head(desk.alloc, file.kind(), file.bytes().len())?;
    Ok(Answer::File(head, number))
}

// What a document's path without its last slash is answered by.
fn page_answer<D>(desk: &Desk<'_, D>, name: &str) -> Result<Answer, AllocError> {
    let path = format!(in desk.alloc; "{name}/")?;
    Ok(Answer::Whole(moved_answer(desk.alloc, path.as_str())?))
}

// A part of a document that is open.
fn part_answer<'a, D: HouseDocument<'a>>(
    desk: &mut Desk<'a, D>,
    number: usize,
    part: Part,
) -> Result<Answer, AllocError> {
    let alloc = desk.alloc;
    let Some(document) = desk.house.document(number) else {
        return refused(alloc, Status::NotFound);
    };
    let body = match part {
        Part::Text => document.text(alloc),
        Part::Journal => document.journal(alloc, false),
        _ => document.journal(alloc, true),
    };
    let kind = if part == Part::Text { PLAIN } else { BYTES };
    match body {
        Ok(body) => with_body(alloc, kind, &body),
        Err(_) => refused(alloc, Status::Unavailable),
    }
}

// What is found at a route, as an answer.
fn found_answer<'a, D: HouseDocument<'a>>(
    desk: &mut Desk<'a, D>,
    found: Found<'_>,
) -> Result<Answer, AllocError> {
    match found {
        Found::Health => with_body(desk.alloc, PLAIN, b"ok\n"),
        Found::Metrics => metrics_answer(desk),
        Found::File(number) => file_answer(desk, number),
        Found::Page(name) => page_answer(desk, name),
        Found::Part(number, part) => part_answer(desk, number, part),
    }
}

// What a request for a route is answered by.
fn answer_of<'a, D: HouseDocument<'a>>(
    desk: &mut Desk<'a, D>,
    route: &Route,
    asker: Asker,
) -> Result<Answer, AllocError> {
    match found_at(desk, route, asker) {
        Ok(found) => found_answer(desk, found),
        Err(status) => refused(desk.alloc, status),
    }
}

// Begins an answer.
fn begin_answer<D>(
    desk: &Desk<'_, D>,
    stream: TcpStream,
    answer: Answer,
    until: u64,
) -> Option<Conn> {
    let (bytes, file) = match answer {
        Answer::Whole(bytes) => (bytes, None),
        Answer::File(bytes, number) => (bytes, Some(number)),
    };
    let answering = Answering {
        stream,
        bytes,
        file,
        at: 0,
    };
    serve_answering(desk, answering, until)
}

// Writes of an answer what its stream takes: its bytes, and then its file. True once all is written.
fn write_answer<D>(desk: &Desk<'_, D>, answering: &mut Answering) -> io::Result<bool> {
    let size = answering.bytes.len();
    if !write_some(&mut answering.stream, &answering.bytes, &mut answering.at)? {
        return Ok(false);
    }
    let Some(number) = answering.file else {
        return Ok(true);
    };
    let Some(file) = desk.pages.file(number) else {
        return Ok(true);
    };
    let mut behind = answering.at.saturating_sub(size);
    let is_whole = write_some(&mut answering.stream, file.bytes(), &mut behind)?;
    answering.at = size.saturating_add(behind);
    Ok(is_whole)
}

/// Goes on with an answer, and lets the stream go behind it.
pub(crate) fn serve_answering<D>(
    desk: &Desk<'_, D>,
    mut answering: Answering,
    until: u64,
) -> Option<Conn> {
    match write_answer(desk, &mut answering) {
        Ok(false) => Some(Conn::waiting(Stage::Answering(answering), until)),
        _ => {
            drop(answering);
            None
        }
    }
}

// The place of a link's route; none where there is no such document.
fn place_of<'a, D: HouseDocument<'a>>(desk: &Desk<'a, D>, route: &Route) -> Option<Place> {
    match route {
        Route::House => Some(Place::House),
        Route::Document {
            name,
            part: Part::Link,
        } => {
            let number = desk.house.find(name.as_str())?;
            Some(Place::Document(number))
        }
        _ => None,
    }
}

// A socket of a stream that asked for a link, with a head of this length.
fn socket_of<D>(desk: &Desk<'_, D>, asking: Asking, answer: &[u8], len: usize) -> Option<Socket> {
    let Asking { stream, head, .. } = asking;
    let rest = head.get(len..).unwrap_or(&[]);
    let socket = accepted(desk.alloc, stream, answer, rest);
    drop(head);
    socket
}

// Waits for what is said on a socket.
fn begin_link<'a, D: HouseDocument<'a>>(
    desk: &mut Desk<'a, D>,
    slot: usize,
    socket: Socket,
    place: Place,
    from: Option<Network>,
) -> Option<Conn> {
    let until = desk.now.saturating_add(desk.limits.hello);
    let unknown = Unknown {
        socket,
        place,
        from,
    };
    serve_unknown(desk, slot, unknown, until)
}

// Answers a request.
fn answer_request<D>(
    desk: &Desk<'_, D>,
    asking: Asking,
    answer: Result<Answer, AllocError>,
    until: u64,
) -> Option<Conn> {
    let Asking { stream, head, .. } = asking;
    drop(head);
    match answer {
        Ok(answer) => begin_answer(desk, stream, answer, until),
        Err(_) => {
            drop(stream);
            None
        }
    }
}

// Refuses a request.
fn refuse<D>(desk: &Desk<'_, D>, asking: Asking, status: Status, until: u64) -> Option<Conn> {
    let answer = refused(desk.alloc, status);
    answer_request(desk, asking, answer, until)
}

// Waits for the rest of a head, if more may come.
fn await_rest(asking: Asking, is_open: bool, until: u64) -> Option<Conn> {
    if is_open {
        Some(Conn::waiting(Stage::Asking(asking), until))
    } else {
        drop(asking);
        None
    }
}

// Does what a request asks for, whose head may not be whole.
fn do_asked<'a, D: HouseDocument<'a>>(
    desk: &mut Desk<'a, D>,
    slot: usize,
    asking: Asking,
    asked: &Asked,
    is_open: bool,
    until: u64,
) -> Option<Conn> {
    match asked {
        Asked::More => await_rest(asking, is_open, until),
        Asked::Refused(status) => refuse(desk, asking, *status, until),
        Asked::Get {
            route,
            credential,
            forwarded,
        } => {
            let from = desk.network_of(asking.peer, *forwarded);
            let asker = Asker {
                credential: *credential,
                from,
            };
            let answer = answer_of(desk, route, asker);
            answer_request(desk, asking, answer, until)
        }
        Asked::Link {
            route,
            answer,
            len,
            forwarded,
        } => match place_of(desk, route) {
            Some(place) => {
                let from = desk.network_of(asking.peer, *forwarded);
                let socket = socket_of(desk, asking, answer, *len)?;
                begin_link(desk, slot, socket, place, from)
            }
            None => refuse(desk, asking, Status::NotFound, until),
        },
    }
}

// Does what the head of a request asks for, which may not be whole.
fn do_head<'a, D: HouseDocument<'a>>(
    desk: &mut Desk<'a, D>,
    slot: usize,
    asking: Asking,
    is_open: bool,
    until: u64,
) -> Option<Conn> {
    match read_head(desk.alloc, &desk.routes, &desk.origins, &asking.head) {
        Ok(asked) => {
            let left = do_asked(desk, slot, asking, &asked, is_open, until);
            drop(asked);
            left
        }
        Err(_) => {
            drop(asking);
            None
        }
    }
}

/// Reads the head of a request, and goes on with what it asks for.
pub(crate) fn serve_asking<'a, D: HouseDocument<'a>>(
    desk: &mut Desk<'a, D>,
    slot: usize,
    mut asking: Asking,
    until: u64,
) -> Option<Conn> {
    match read_some(&mut asking.stream, &mut asking.head, MAX_HEAD) {
        Ok(is_open) => do_head(desk, slot, asking, is_open, until),
        Err(_) => {
            drop(asking);
            None
        }
    }
}
