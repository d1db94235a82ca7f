//! A link over a WebSocket.
ghost use Rattle.std.specs.Prelude.{◌≡◌, None};
ghost use Rattle.link_ws.specs.Counts.{new_link};

use edit_io::{Link, OutFail};
use std::alloc::Global;
use std::io::{ErrorKind, Read, Write};
use std::marker::Model;
use tungstenite::{
    CloseCode, CloseFrame, Error, MaskKeys, Message, Utf8Bytes, WebSocket, WebSocketConfig,
};

/// How many bytes a message that comes may have, and each frame of the socket that it comes in.
pub const MAX_MESSAGE: usize = 65_536;

// How many bytes a socket reads at once, and how many it keeps before it writes them.
const BUFFER: usize = 4_096;

/// A link over a WebSocket, with one binary message for each message.
///
/// Contracts see its counts. It answers pings while a call of `recv` waits, and at no other time. A text message,
/// a message above [`MAX_MESSAGE`], a stream that ends without a close, and whatever else the socket refuses
/// are failures. When `recv` fails the other end is told at once, by a close of the code 1002. Only where its stream
/// has ended it isn't told: if it still reads, it sees an end when the link is hung up.
#[derive(Drop)]
pub struct WsLink<S, K> {
    socket: WebSocket<S, K>,
    alloc: Global,
    faults: u64,
    closes: u64,
}

impl<S, K> Model for WsLink<S, K> {
    ghost use Rattle.link_ws.specs.Counts.{LinkCounts};

    ghost Value = { LinkCounts };

    ghost view = { λ s. record { faults = s.faults; closes = s.closes } };
}

/// The limits of each socket. A message above them is refused by its length alone, before it takes memory.
pub(crate) fn limits() -> WebSocketConfig {
    WebSocketConfig::default()
        .read_buffer_size(BUFFER)
        .write_buffer_size(BUFFER)
        .max_message_size(Some(MAX_MESSAGE))
        .max_frame_size(Some(MAX_MESSAGE))
}

// What a link makes of what a socket gave.
#[derive(Drop)]
enum Came {
    /// A message of the link.
    Message(Vec<u8>),
    /// Nothing for the link, so that more is read.
    Nothing,
    /// A close, whose answer is to leave.
    Close,
    /// The other end has closed, and knows that this one saw it.
    Closed,
    NoMemory,
    Failed,
}

// A binary message of these bytes.
fn came_bytes(alloc: Global, bytes: &[u8]) -> Came {
    match Vec::from_slice(alloc, bytes) {
        Ok(message) => Came::Message(message),
        Err(_) => Came::NoMemory,
    }
}

// What an error of a socket is to a link.
fn came_error(error: &Error) -> Came {
    match error {
        Error::ConnectionClosed => Came::Closed,
        Error::OutOfMemory => Came::NoMemory,
        Error::Io(error) if error.kind() == ErrorKind::Interrupted => Came::Nothing,
        _ => Came::Failed,
    }
}

// What a message of a socket, or its error, is to a link.
fn came_of(alloc: Global, read: &Result<Message, Error>) -> Came {
    match read {
        Ok(Message::Binary(bytes)) => came_bytes(alloc, bytes.as_slice()),
        Ok(Message::Ping(_)) => Came::Nothing,
        Ok(Message::Pong(_)) => Came::Nothing,
        Ok(Message::Text(_)) => Came::Failed,
        Ok(Message::Close(_)) => Came::Close,
        Err(error) => came_error(error),
    }
}

// Reads what comes next on a socket.
fn read_next<S: Read + Write + Drop, K: MaskKeys + Drop>(
    socket: &mut WebSocket<S, K>,
    alloc: Global,
) -> Came {
    let read = socket.read();
    let came = came_of(alloc, &read);
    drop(read);
    came
}

// The next binary message, or none where the other end has closed. Pings are answered on the way.
fn next_binary<S: Read + Write + Drop, K: MaskKeys + Drop>(
    socket: &mut WebSocket<S, K>,
    alloc: Global,
) -> Result<Option<Vec<u8>>, OutFail> {
    for _ in 0..u64::MAX {
        match read_next(socket, alloc) {
            Came::Message(message) => return Ok(Some(message)),
            Came::Nothing => {}
            Came::Close => {
                // The answer to the close leaves now, if it can.
                drop(socket.flush());
                return Ok(None);
            }
            Came::Closed => return Ok(None),
            Came::NoMemory => return Err(OutFail::NoMemory),
            Came::Failed => return Err(OutFail::Failed),
        }
    }
    Err(OutFail::Failed)
}

// What a link tells of what a socket made of a message.
fn sent_as(sent: &Result<(), Error>) -> Result<(), OutFail> {
    match sent {
        Ok(()) => Ok(()),
        Err(Error::OutOfMemory) => Err(OutFail::NoMemory),
        Err(_) => Err(OutFail::Failed),
    }
}

// Sends a binary message.
fn send_binary<S: Read + Write + Drop, K: MaskKeys + Drop>(
    socket: &mut WebSocket<S, K>,
    alloc: Global,
    message: &[u8],
) -> Result<(), OutFail> {
    let Ok(message) = Message::binary(alloc, message) else {
        return Err(OutFail::NoMemory);
    };
    let sent = socket.send(message);
    let told = sent_as(&sent);
    drop(sent);
    told
}

// Tells the other end that nothing more comes, if that can be told. A close is the one thing that may still be sent over
// a socket that failed.
fn send_close<S: Read + Write + Drop, K: MaskKeys + Drop>(
    socket: &mut WebSocket<S, K>,
    code: CloseCode,
) {
    let reason = Utf8Bytes::new();
    drop(socket.close(Some(CloseFrame { code, reason })));
}

impl<S: Read + Write + Drop, K: MaskKeys + Drop> WsLink<S, K> {
    /// A link over a socket. It takes no memory.
    pub fn new(alloc: Global, socket: WebSocket<S, K>) -> Self
        ensures { result ≡ new_link }
    {
        WsLink {
            socket,
            alloc,
            faults: 0,
            closes: 0,
        }
    }

    /// How often it has failed.
    pub fn faults(&self) -> u64
        ensures { result ≡ self.now.faults }
    {
        self.faults
    }

    /// How often a call found that the other end had closed.
    pub fn closes(&self) -> u64
        ensures { result ≡ self.now.closes }
    {
        self.closes
    }

    /// Tells the other end that nothing more comes, if that can be told, and lets the socket go.
    ///
    /// The close has the code 1000. After a failure it has 1002, and left already if it could; where the other end's
    /// stream has ended there is none.
    pub fn hang_up(self) {
        let WsLink {
            mut socket,
            alloc: _,
            faults,
            closes: _,
        } = self;
        let code = if faults == 0 {
            CloseCode::Normal
        } else {
            CloseCode::Protocol
        };
        send_close(&mut socket, code);
    }
}

impl<S: Read + Write + Drop, K: MaskKeys + Drop> Link for WsLink<S, K> {
    ghost got = { λ _. None };

    ghost sent = { λ _. None };

    ghost faults = { λ s. s.faults };

    ghost closes = { λ s. s.closes };

    /// Gives the next binary message, or none where the other end has closed. It waits for as long as neither comes.
    fn recv(&mut self) -> Result<Option<Vec<u8>>, OutFail> {
        let came = next_binary(&mut self.socket, self.alloc);
        match came {
            Ok(Some(message)) => Ok(Some(message)),
            Ok(None) if self.closes < u64::MAX => {
                self.closes += 1;
                Ok(None)
            }
            Err(OutFail::NoMemory) => Err(OutFail::NoMemory),
            _ => {
                self.faults = self.faults.saturating_add(1);
                send_close(&mut self.socket, CloseCode::Protocol);
                Err(OutFail::Failed)
            }
        }
    }

    /// Sends a binary message, and waits until the system has taken it whole.
    fn send(&mut self, message: &[u8]) -> Result<(), OutFail> {
        let result = send_binary(&mut self.socket, self.alloc, message);
        if let Err(OutFail::Failed) = result {
            self.faults = self.faults.saturating_add(1);
        }
        result
    }
}
