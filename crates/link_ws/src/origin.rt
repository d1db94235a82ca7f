//! Who may ask for a link: a program that names a host, and no page from elsewhere.
ghost use Rattle.std.specs.Prelude.{◌≡◌};
ghost use Rattle.std.specs.List.{list_all};
ghost use Rattle.std.specs.Char.{is_ascii_digit};
ghost use Rattle.link_ws.specs.Origins.{is_port, is_origin_at, is_local_origin};

use http::header::{HOST, ORIGIN};
use http::{Request, Response, StatusCode};
use std::alloc::Global;
use tungstenite::Callback;
use tungstenite::handshake::server::ErrorResponse;

// What stands between a host and its port.
const COLON: u8 = b':';

/// Takes a request that no page makes, or a page of this machine, and refuses any other one, and one that names no host.
#[derive(Drop)]
pub(crate) struct LocalPages {
    pub(crate) alloc: Global,
}

fn are_digits(text: &[u8]) -> bool
    ensures { result ≡ list_all is_ascii_digit text.now }
{
    text.iter().all(|it| it.is_ascii_digit())
}

// Whether this may stand behind a host: nothing, or a port.
fn is_port(rest: &[u8]) -> bool
    ensures { result ≡ is_port rest.now }
{
    match rest {
        [] => true,
        [COLON, _, ..] => are_digits(&rest[1..]),
        _ => false,
    }
}

// Whether an origin is this scheme and host, with any port.
fn is_origin_at(origin: &[u8], place: &[u8]) -> bool
    ensures { result ≡ is_origin_at place.now origin.now }
{
    origin.starts_with(place) && is_port(&origin[place.len()..])
}

// Whether an origin is that of a page of this machine.
fn is_local_origin(origin: &[u8]) -> bool
    ensures { result ≡ is_local_origin origin.now }
{
    is_origin_at(origin, b"http://localhost")
        || is_origin_at(origin, b"http://127.0.0.1")
        || is_origin_at(origin, b"http://[::1]")
        || is_origin_at(origin, b"https://localhost")
        || is_origin_at(origin, b"https://127.0.0.1")
        || is_origin_at(origin, b"https://[::1]")
}

// The answer of this status to a request that is refused.
fn refused(alloc: Global, status: StatusCode) -> ErrorResponse {
    let mut answer = Response::new(alloc, None);
    *answer.status_mut() = status;
    answer
}

impl Callback for LocalPages {
    fn on_request(
        self,
        request: &Request<()>,
        response: Response<()>,
    ) -> Result<Response<()>, ErrorResponse> {
        let LocalPages { alloc } = self;
        if request.headers().get(HOST).is_none() {
            return Err(refused(alloc, StatusCode::BAD_REQUEST));
        }
        for origin in request.headers().get_all(ORIGIN) {
            if !is_local_origin(origin.as_bytes()) {
                return Err(refused(alloc, StatusCode::FORBIDDEN));
            }
        }
        Ok(response)
    }
}
