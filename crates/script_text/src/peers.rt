//! Numbers of peers and of messages, as words.
ghost use Rattle.std.specs.Prelude.{◌≡◌, ◌<◌, IfSome};
ghost use Rattle.line_read.specs.Words.{bytes_of};
ghost use Rattle.script_text.specs.Peers.{read_count, read_peer, one_peer};

use line_read::{read_number, read_wide};

/// A number from 1 to the limit.
pub(crate) fn read_count(limit: u32, word: &[u8]) -> Option<u32>
    ensures { result ≡ read_count limit word.now }
{
    match read_number(u64::from(limit), word) {
        Some(n) if n > 0 => Some(n as u32),
        _ => None,
    }
}

/// The number of one of so many peers.
pub(crate) fn read_peer(peers: u32, word: &[u8]) -> Option<u32>
    ensures value { result ≡ read_peer peers word.now }
    ensures within { IfSome result (λ p. p < peers) }
{
    let p = read_wide(word)?;
    if p < peers { Some(p) } else { None }
}

pub(crate) fn one_peer(peers: u32, args: &[&[u8]]) -> Option<u32>
    ensures { result ≡ one_peer peers (bytes_of args.now) }
{
    match args {
        [a] => read_peer(peers, a),
        _ => None,
    }
}
