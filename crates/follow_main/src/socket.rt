//! The socket of a link, which doesn't wait.
ghost use Rattle.std.specs.Prelude.{◌≡◌, true, IfErr};
ghost use Rattle.tungstenite.specs.Content as content;
ghost use Rattle.tungstenite.specs.Failure.{IsIo};
ghost use Rattle.tungstenite.specs.Socket.{content_of};
ghost use Rattle.follow_main.specs.Sending.{is_taken, StandsWhole};

use mio::net::TcpStream;
use std::alloc::Global;
use std::io::{self, ErrorKind};
use tungstenite::{
    ClientHandshake, CloseFrame, Error, Message, MidHandshake, RandomKeys, WebSocket,
    WebSocketConfig,
};

/// The masking keys of a client.
pub(crate) type Keys = RandomKeys<HostRuntime>;

/// A socket.
pub(crate) type Socket = WebSocket<TcpStream, Keys>;

/// A socket that is being opened.
pub(crate) type Greeting = MidHandshake<ClientHandshake<TcpStream, Keys>>;

// How many bytes a message that comes may have: more than a host sends in one.
const MOST_MESSAGE: usize = 1 << 24;

/// What came on a socket.
#[derive(Drop)]
pub(crate) enum Came {
    Frames(Vec<u8>),
    Text(String),
    /// A ping, or the answer to one.
    Sign,
    /// Nothing is there now.
    Nothing,
    /// The host has closed, with a code and words.
    Closed { code: u16, words: String },
    /// The link is gone.
    Gone,
}

/// Whether a socket took what it was given.
#[derive(Clone, Copy, Debug, PartialEq, Eq)]
pub(crate) enum Sent {
    /// It did.
    All,
    /// It keeps it until it can send it.
    Waits,
    /// The link is gone.
    Gone,
}

/// The limits of a socket.
pub(crate) fn limits() -> WebSocketConfig {
    WebSocketConfig::default()
        .read_buffer_size(65_536)
        .write_buffer_size(8_192)
        .max_message_size(Some(MOST_MESSAGE))
        .max_frame_size(Some(MOST_MESSAGE))
}

/// Whether an error says to wait.
pub(crate) fn must_wait(error: &io::Error) -> bool {
    error.kind() == ErrorKind::WouldBlock || error.kind() == ErrorKind::Interrupted
}

// What a socket made of what was given to it.
fn sent_as(outcome: &Result<(), Error>) -> Sent
    ensures { is_taken result ≡ true → IfErr outcome.now IsIo }
{
    match outcome {
        Ok(()) => Sent::All,
        Err(Error::Io(error)) if must_wait(error) => Sent::Waits,
        Err(_) => Sent::Gone,
    }
}

// Sends a message.
fn send(socket: &mut Socket, message: Message) -> Sent
    ensures { is_taken result ≡ true → StandsWhole (content_of message) socket.old socket.new }
{
    let outcome = socket.send(message);
    let sent = sent_as(&outcome);
    drop(outcome);
    sent
}

/// Sends a text.
pub(crate) fn send_text(alloc: Global, socket: &mut Socket, text: &str) -> Sent
    ensures { is_taken result ≡ true → StandsWhole (content.text text.now) socket.old socket.new }
{
    match Message::text(alloc, text) {
        Ok(message) => send(socket, message),
        Err(_) => Sent::Gone,
    }
}

/// Sends frames.
pub(crate) fn send_frames(alloc: Global, socket: &mut Socket, frames: &[u8]) -> Sent
    ensures { is_taken result ≡ true → StandsWhole (content.binary frames.now) socket.old socket.new }
{
    match Message::binary(alloc, frames) {
        Ok(message) => send(socket, message),
        Err(_) => Sent::Gone,
    }
}

/// Goes on with what the stream didn't take.
pub(crate) fn flush(socket: &mut Socket) -> Sent {
    let outcome = socket.flush();
    let sent = sent_as(&outcome);
    drop(outcome);
    sent
}

// What an error of reading says.
fn came_error(error: &Error) -> Came {
    match error {
        Error::Io(error) if must_wait(error) => Came::Nothing,
        _ => Came::Gone,
    }
}

// Frames that came.
fn came_frames(alloc: Global, bytes: &[u8]) -> Came {
    match Vec::from_slice(alloc, bytes) {
        Ok(frames) => Came::Frames(frames),
        Err(_) => Came::Gone,
    }
}

// A text that came.
fn came_text(alloc: Global, text: &str) -> Came {
    match String::from_str(alloc, text) {
        Ok(text) => Came::Text(text),
        Err(_) => Came::Gone,
    }
}

// The code and the words of a close.
fn closed_of(alloc: Global, close: &Option<CloseFrame>) -> Came {
    let Some(close) = close else {
        return Came::Gone;
    };
    match String::from_str(alloc, close.reason.as_str()) {
        Ok(words) => Came::Closed {
            code: u16::from(close.code),
            words,
        },
        Err(_) => Came::Gone,
    }
}

// What came with a message of a socket, or its error.
fn came_of(alloc: Global, read: &Result<Message, Error>) -> Came {
    match read {
        Ok(Message::Binary(bytes)) => came_frames(alloc, bytes.as_slice()),
        Ok(Message::Text(text)) => came_text(alloc, text.as_str()),
        Ok(Message::Ping(_) | Message::Pong(_)) => Came::Sign,
        Ok(Message::Close(close)) => closed_of(alloc, close),
        Err(error) => came_error(error),
    }
}

/// The next message of a socket. Pings are answered by reading on.
pub(crate) fn next_message(alloc: Global, socket: &mut Socket) -> Came {
    let read = socket.read();
    let came = came_of(alloc, &read);
    if matches!(read, Ok(Message::Close(_))) {
        drop(socket.flush());
    }
    drop(read);
    came
}
