//! Limits and times of a host on the net.

/// How many of what there may be, and how long what may take, in milliseconds. Where one is reached the connection is
/// refused or closed, by the ending that is named.
#[derive(Clone, Copy, Debug, PartialEq, Eq)]
pub struct Limits {
    /// How many connections. One more is dropped.
    pub connections: usize,
    /// How many links of one person: `TooManyLinks`.
    pub links_of_person: usize,
    /// Until the head of a request is there, or an answer has gone: dropped.
    pub head: u64,
    /// Until a link shows a secret: `Silent`.
    pub hello: u64,
    /// How long a link that showed a wrong secret waits until it is told so.
    pub wrong_key: u64,
    /// How many wrong keys from one network count until who comes from there has to wait: `TooManyTries`, or 429 over HTTP.
    pub wrong_keys: usize,
    /// For how long each of them counts.
    pub wrong_keys_count: u64,
    /// After how long a link is pinged, again and again.
    pub ping: u64,
    /// Until something comes on a link, a pong at least: `Silent`.
    pub silent: u64,
    /// Until a socket that takes nothing takes something: `Slow`.
    pub slow: u64,
    /// Until the other side of a close closes too: dropped.
    pub closing: u64,
    /// How long nobody is taken in after the system had no descriptor left.
    pub pause: u64,
    /// After how long without a link a document is closed.
    pub idle: u64,
    /// How often at most it is told who is here and what people are called.
    pub news: u64,
}

impl Limits {
    /// Those of a host as it is started.
    pub const USUAL: Limits = Limits {
        connections: 20_000,
        links_of_person: 64,
        head: 10_000,
        hello: 10_000,
        wrong_key: 1_000,
        wrong_keys: 10,
        wrong_keys_count: 60_000,
        ping: 20_000,
        silent: 60_000,
        slow: 30_000,
        closing: 3_000,
        pause: 1_000,
        idle: 600_000,
        news: 1_000,
    };
}
