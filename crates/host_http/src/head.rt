//! What a program asks for over HTTP.

use crate::answer::Status;
use crate::credential::Credential;
use crate::limits::{MAX_HEAD, MAX_HEADERS};
use crate::origins::Origins;
use crate::route::{Route, Routes};
use httparse::Status as Parsed;
use httparse::spans::{EMPTY_HEADER_SPAN, HeaderSpan, RequestSpans, parse_request};
use std::alloc::{AllocError, Global};
use std::net::IpAddr;
use std::str;
use websocket::handshake::HandshakeError;
use websocket::handshake::server::check_request;

/// What the head of a request asks for. It is forwarded for an address where a proxy says so.
#[derive(Drop)]
pub enum Asked {
    /// It isn't whole yet.
    More,
    /// What stands at this route, by who shows this.
    Get {
        route: Route,
        credential: Option<Credential>,
        forwarded: Option<IpAddr>,
    },
    /// A link at this route: the answer that accepts it, and how many bytes the head has.
    Link {
        route: Route,
        answer: Vec<u8>,
        len: usize,
        forwarded: Option<IpAddr>,
    },
    /// Something that is refused.
    Refused(Status),
}

fn link_answer(alloc: Global, key: &[u8; 28]) -> Result<Vec<u8>, AllocError> {
    let mut out = Vec::new(alloc);
    out.extend_from_slice(
        b"HTTP/1.1 101 Switching Protocols\r\nConnection: Upgrade\r\nUpgrade: websocket\r\nSec-WebSocket-Accept: ",
    )?;
    out.extend_from_slice(key.as_slice())?;
    out.extend_from_slice(b"\r\n\r\n")?;
    Ok(out)
}

// The value of the first field of this name, which is given in small letters.
fn field<'a>(head: &'a [u8], spans: &[HeaderSpan], name: &[u8]) -> Option<&'a [u8]> {
    for span in spans {
        let found = head.get(span.name.start..span.name.end)?;
        if found.eq_ignore_ascii_case(name) {
            return head.get(span.value.start..span.value.end);
        }
    }
    None
}

// The last address that a proxy says a request comes from: it puts the one that it sees behind what it was told.
fn forwarded_of(head: &[u8], spans: &[HeaderSpan]) -> Option<IpAddr> {
    let value = field(head, spans, b"x-forwarded-for")?;
    let Ok(text) = str::from_utf8(value) else {
        return None;
    };
    let last = match text.rsplit_once(',') {
        Some((_, last)) => last,
        None => text,
    };
    last.trim().parse::<IpAddr>().ok()
}

// The route of a head, whose path is to be UTF-8.
fn route_of(
    alloc: Global,
    routes: &Routes,
    head: &[u8],
    found: &RequestSpans,
) -> Result<Route, AllocError> {
    let path = head.get(found.path.start..found.path.end).unwrap_or(b"");
    match str::from_utf8(path) {
        Ok(path) => routes.at(alloc, path),
        Err(_) => Ok(Route::Nothing),
    }
}

// A head that asks for no link.
fn get_of(
    alloc: Global,
    routes: &Routes,
    head: &[u8],
    found: &RequestSpans,
    spans: &[HeaderSpan],
) -> Result<Asked, AllocError> {
    let method = head
        .get(found.method.start..found.method.end)
        .unwrap_or(b"");
    if method != b"GET".as_slice() {
        return Ok(Asked::Refused(Status::MethodNotAllowed));
    }
    let shown = field(head, spans, b"authorization");
    Ok(Asked::Get {
        route: route_of(alloc, routes, head, found)?,
        credential: shown.and_then(Credential::of_field),
        forwarded: forwarded_of(head, spans),
    })
}

/// What these bytes ask for, which are the beginning of what a connection sends. A page of a place that isn't among the
/// origins is refused a link, and a request of HTTP/1.1 that names no host is none.
pub fn read_head(
    alloc: Global,
    routes: &Routes,
    origins: &Origins,
    head: &[u8],
) -> Result<Asked, AllocError> {
    let mut spans = [EMPTY_HEADER_SPAN; MAX_HEADERS];
    let found = match parse_request(head, &mut spans) {
        Ok(Parsed::Complete(found)) => found,
        Ok(Parsed::Partial) if head.len() < MAX_HEAD => return Ok(Asked::More),
        Ok(Parsed::Partial) => return Ok(Asked::Refused(Status::HeadTooLong)),
        Err(_) => return Ok(Asked::Refused(Status::BadRequest)),
    };
    let fields = spans.get(..found.headers).unwrap_or(&[]);
    if found.version == 1 && field(head, fields, b"host").is_none() {
        return Ok(Asked::Refused(Status::BadRequest));
    }
    let key = match check_request(head, &found, &spans) {
        Ok(key) => key,
        Err(HandshakeError::MissingSecWebSocketVersionHeader) => {
            return Ok(Asked::Refused(Status::UpgradeRequired));
        }
        Err(_) => return get_of(alloc, routes, head, &found, fields),
    };
    if !origins.allow(field(head, fields, b"origin")) {
        return Ok(Asked::Refused(Status::Forbidden));
    }
    Ok(Asked::Link {
        route: route_of(alloc, routes, head, &found)?,
        answer: link_answer(alloc, &key)?,
        len: found.len,
        forwarded: forwarded_of(head, fields),
    })
}
