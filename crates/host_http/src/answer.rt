//! Answers.

use std::alloc::{AllocError, Global};

/// Why a request isn't answered by what stands at its route.
#[derive(Clone, Copy, Debug, PartialEq, Eq)]
pub enum Status {
    /// The head is none of HTTP.
    BadRequest,
    /// A device's secret is wanted, and there is none or another one.
    Unauthorized,
    /// A page of another place asks for a link.
    Forbidden,
    /// Nothing stands there.
    NotFound,
    /// It isn't `GET`.
    MethodNotAllowed,
    /// A link is asked for by another version of WebSockets.
    UpgradeRequired,
    /// Too many wrong secrets came from where it comes.
    TooManyRequests,
    /// The head is longer than [`MAX_HEAD`](crate::MAX_HEAD) bytes.
    HeadTooLong,
    /// What stands there can't be had now.
    Unavailable,
}

impl Status {
    /// The number and the words that stand in an answer.
    pub fn words(self) -> &'static str {
        match self {
            Status::BadRequest => "400 Bad Request",
            Status::Unauthorized => "401 Unauthorized",
            Status::Forbidden => "403 Forbidden",
            Status::NotFound => "404 Not Found",
            Status::MethodNotAllowed => "405 Method Not Allowed",
            Status::UpgradeRequired => "426 Upgrade Required",
            Status::TooManyRequests => "429 Too Many Requests",
            Status::HeadTooLong => "431 Request Header Fields Too Large",
            Status::Unavailable => "503 Service Unavailable",
        }
    }

    // The field that says what is to be done instead, with its line end; none of most.
    fn field(self) -> &'static str {
        match self {
            Status::Unauthorized => "WWW-Authenticate: Bearer\r\n",
            Status::MethodNotAllowed => "Allow: GET\r\n",
            Status::UpgradeRequired => "Sec-WebSocket-Version: 13\r\n",
            Status::TooManyRequests => "Retry-After: 60\r\n",
            Status::BadRequest
            | Status::Forbidden
            | Status::NotFound
            | Status::HeadTooLong
            | Status::Unavailable => "",
        }
    }
}

/// An answer without a body. The connection is closed behind it.
pub fn status_answer(alloc: Global, status: Status) -> Result<Vec<u8>, AllocError> {
    let words = status.words();
    let field = status.field();
    let text = format!(in alloc;
        "HTTP/1.1 {words}\r\n{field}Content-Length: 0\r\nConnection: close\r\n\r\n"
    )?;
    Ok(text.into_bytes())
}

/// An answer that sends a browser on to another path.
pub fn moved_answer(alloc: Global, path: &str) -> Result<Vec<u8>, AllocError> {
    let text = format!(in alloc;
        "HTTP/1.1 308 Permanent Redirect\r\nLocation: {path}\r\nContent-Length: 0\r\nConnection: close\r\n\r\n"
    )?;
    Ok(text.into_bytes())
}

/// The head of an answer with a body of this kind and length.
pub fn body_head(alloc: Global, kind: &str, len: usize) -> Result<Vec<u8>, AllocError> {
    let text = format!(in alloc;
        "HTTP/1.1 200 OK\r\nContent-Type: {kind}\r\nContent-Length: {len}\r\nCache-Control: no-cache\r\nX-Content-Type-Options: nosniff\r\nReferrer-Policy: no-referrer\r\nConnection: close\r\n\r\n"
    )?;
    Ok(text.into_bytes())
}
