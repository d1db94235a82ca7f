//! Sockets that don't wait.
ghost use Rattle.std.specs.Prelude.{◌≡◌, true};
ghost use Rattle.tungstenite.specs.Failure.{IsIo};
ghost use Rattle.tungstenite.specs.Content as content;
ghost use Rattle.host_link.specs.declared.ending.Ending.{Ending};
ghost use Rattle.host_socket.specs.Sent.{socket_stays, IsSent};

use crate::stream::must_wait;
use host_link::{Ending, MAX_MESSAGE};
use mio::net::TcpStream;
use std::alloc::Global;
use std::io::Write;
use tungstenite::{
    Bytes, CloseCode, CloseFrame, Error, Message, NoMask, Role, Utf8Bytes, WebSocket,
    WebSocketConfig,
};
use websocket::error::ProtocolError;

/// A socket of a link.
pub type Socket = WebSocket<TcpStream, NoMask>;

/// What becomes of a socket.
#[derive(Clone, Copy, Debug, PartialEq, Eq)]
pub enum After {
    /// It waits for an event.
    Waits,
    /// There may be more to do, with no event.
    More,
    /// It is gone.
    Gone,
    /// It is to be closed, and told why.
    Ends(Ending),
}

/// What came on a socket.
#[derive(Drop)]
pub enum Came {
    Frames(Vec<u8>),
    Text(String),
    Nothing,
    Other(After),
}

// The limits of each socket. It has two buffers of the first size for as long as it stands.
fn socket_limits() -> WebSocketConfig {
    WebSocketConfig::default()
        .read_buffer_size(2_048)
        .write_buffer_size(8_192)
        .max_write_buffer_size(2 * MAX_MESSAGE)
        .max_message_size(Some(MAX_MESSAGE))
        .max_frame_size(Some(MAX_MESSAGE))
}

/// Makes a socket of a stream that asked for a link, of which these bytes came already behind the head. The answer goes
/// whole, or there is none.
pub fn accepted(
    alloc: Global,
    mut stream: TcpStream,
    answer: &[u8],
    rest: &[u8],
) -> Option<Socket> {
    match stream.write(answer) {
        Ok(n) if n == answer.len() => {}
        _ => return None,
    }
    let Ok(part) = Vec::from_slice(alloc, rest) else {
        return None;
    };
    Some(WebSocket::from_partially_read(
        alloc,
        stream,
        NoMask,
        part,
        Role::Server,
        Some(socket_limits()),
    ))
}

/// What an error of a socket makes of it.
pub fn after_error(error: &Error) -> After
    ensures { socket_stays result ≡ true → IsIo error.now }
{
    match error {
        Error::Io(error) if must_wait(error) => After::Waits,
        Error::Capacity(_) => After::Ends(Ending::BadMessage),
        Error::Protocol(ProtocolError::ResetWithoutClosingHandshake) => After::Gone,
        Error::Protocol(_) => After::Ends(Ending::BadMessage),
        Error::Utf8 => After::Ends(Ending::BadMessage),
        Error::WriteBufferFull => After::Ends(Ending::Slow),
        Error::OutOfMemory => After::Ends(Ending::NoMemory),
        _ => After::Gone,
    }
}

/// What a failed call of memory makes of a socket.
pub fn no_memory() -> After
    ensures { result ≡ After.Ends Ending.NoMemory }
{
    After::Ends(Ending::NoMemory)
}

/// Sends a text. What the stream doesn't take now it takes later.
pub fn send_text(alloc: Global, socket: &mut Socket, text: &str) -> After
    ensures { socket_stays result ≡ true → IsSent (content.text text.now) socket.old socket.new }
{
    let Ok(message) = Message::text(alloc, text) else {
        return no_memory();
    };
    match socket.send(message) {
        Ok(()) => After::More,
        Err(error) => after_error(&error),
    }
}

/// Sends frames. What the stream doesn't take now it takes later.
pub fn send_frames(alloc: Global, socket: &mut Socket, frames: &[u8]) -> After
    ensures { socket_stays result ≡ true → IsSent (content.binary frames.now) socket.old socket.new }
{
    let Ok(message) = Message::binary(alloc, frames) else {
        return no_memory();
    };
    match socket.send(message) {
        Ok(()) => After::More,
        Err(error) => after_error(&error),
    }
}

/// Sends a ping.
pub fn send_ping(socket: &mut Socket) -> After {
    match socket.send(Message::Ping(Bytes::new())) {
        Ok(()) => After::More,
        Err(error) => after_error(&error),
    }
}

/// Goes on with what the stream didn't take.
pub fn flush(socket: &mut Socket) -> After {
    match socket.flush() {
        Ok(()) => After::More,
        Err(error) => after_error(&error),
    }
}

/// The next message of a socket.
pub fn next_message(alloc: Global, socket: &mut Socket) -> Came {
    match socket.read() {
        Ok(Message::Binary(bytes)) => match Vec::from_slice(alloc, bytes.as_slice()) {
            Ok(frames) => Came::Frames(frames),
            Err(_) => Came::Other(no_memory()),
        },
        Ok(Message::Text(text)) => match String::from_str(alloc, text.as_str()) {
            Ok(text) => Came::Text(text),
            Err(_) => Came::Other(no_memory()),
        },
        Ok(Message::Ping(_)) => Came::Nothing,
        Ok(Message::Pong(_)) => Came::Nothing,
        Ok(Message::Close(_)) => {
            let _ = socket.flush();
            Came::Other(After::Gone)
        }
        Err(error) => Came::Other(after_error(&error)),
    }
}

/// Tells the other side why a socket ends.
pub fn send_close(socket: &mut Socket, why: Ending) {
    let close = CloseFrame {
        code: CloseCode::from(why.code()),
        reason: Utf8Bytes::from_static(why.words()),
    };
    let _ = socket.close(Some(close));
}

/// Awaits the other side's close, and lets go what comes in front of it, up to so many messages. True where it is still to
/// come.
pub fn await_close(socket: &mut Socket, most: u32) -> bool {
    for _ in 0..most {
        match socket.read() {
            Ok(_) => {}
            Err(Error::Io(error)) => return must_wait(&error),
            Err(_) => return false,
        }
    }
    false
}
