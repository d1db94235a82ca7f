//! Which wrong keys were shown last, and from where.
ghost use Rattle.std.specs.Prelude.{◌≡◌, ◌≤◌, ◌<◌, [], length, IfOk};
ghost use Rattle.std.specs.VecDeque.{deque_len, deque_capacity};
ghost use Rattle.host_socket.specs.WrongKeys.{same_network, recent_keys, is_slowed, with_room, behind_wrong_key};

use std::alloc::{AllocError, Global};
use std::collections::VecDeque;
use std::marker::Model;
use std::net::IpAddr;

/// How many wrong keys are remembered. One more takes the place of the oldest, so that nobody fills memory by them.
pub const MAX_WRONG_KEYS: usize = 4_096;

/// How many bits of an address of IPv6 tell whose it is: who has one address has all that begin so.
const OWN_BITS: u32 = 64;

/// From where a key is shown, as far as wrong ones are counted together: an address of IPv4, or the first half of one of IPv6.
#[derive(Clone, Copy, Debug, PartialEq, Eq)]
pub enum Network {
    V4(u32),
    V6(u128),
}

impl Network {
    /// That of an address; none of one of this machine, where wrong keys aren't counted.
    pub fn of(address: IpAddr) -> Option<Network> {
        let plain = address.to_canonical();
        if plain.is_loopback() {
            return None;
        }
        Some(match plain {
            IpAddr::V4(v4) => Network::V4(v4.to_bits()),
            IpAddr::V6(v6) => Network::V6(v6.to_bits() >> OWN_BITS),
        })
    }

    // Whether it is this one.
    fn is_same(self, other: Network) -> bool
        ensures { result ≡ same_network self other }
    {
        match (self, other) {
            (Network::V4(a), Network::V4(b)) => a == b,
            (Network::V6(a), Network::V6(b)) => a == b,
            (_, _) => false,
        }
    }
}

/// A wrong key: from where it was shown, and when, in milliseconds since the host began.
#[derive(Clone, Copy, Debug, PartialEq, Eq)]
pub struct WrongKey {
    pub network: Network,
    pub at: u64,
}

/// The wrong keys that were shown last. Contracts see them, the oldest first.
#[derive(Drop)]
pub struct WrongKeys {
    last: VecDeque<WrongKey>,
}

impl Model for WrongKeys {
    ghost use Rattle.std.specs.Prelude.{◌≤◌, List};
    ghost use Rattle.std.specs.VecDeque.{deque_len, deque_capacity};
    ghost use Rattle.host_socket.specs.declared.wrong_keys.WrongKey.{WrongKey};
    ghost use Rattle.host_socket.specs.declared.wrong_keys.TheConstants.{MAX_WRONG_KEYS};

    ghost Value = { List WrongKey };

    ghost view = { λ w. w.last.items };

    ghost invariant = { λ w. (deque_len w.last ≤ MAX_WRONG_KEYS) × (MAX_WRONG_KEYS ≤ deque_capacity w.last) };
}

// Makes room for one more, where there are as many as are remembered: the oldest goes.
fn make_room(last: &mut VecDeque<WrongKey>)
    requires { deque_len last.old ≤ MAX_WRONG_KEYS }
    ensures items { last.new.items ≡ with_room last.old.items }
    ensures room { deque_len last.new < MAX_WRONG_KEYS }
    ensures capacity { deque_capacity last.new ≡ deque_capacity last.old }
{
    if last.len() >= MAX_WRONG_KEYS {
        let _ = last.pop_front();
    }
}

impl WrongKeys {
    /// None. It takes the memory for all that are ever remembered.
    pub fn new(alloc: Global) -> Result<WrongKeys, AllocError>
        ensures { IfOk result (λ keys. keys ≡ []) }
    {
        let last = VecDeque::with_capacity(alloc, MAX_WRONG_KEYS)?;
        Ok(WrongKeys { last })
    }

    // How many came from a network within so many milliseconds up to now.
    fn recent(&self, network: Network, now: u64, within: u64) -> usize
        ensures { result ≡ recent_keys network now within self.now }
    {
        self.last
            .iter()
            .filter(|it| it.network.is_same(network) && now.saturating_sub(it.at) < within)
            .count()
    }

    /// Whether who comes from a network has to wait: so many came from there within so many milliseconds up to now.
    pub fn is_slowed(&self, network: Network, now: u64, most: usize, within: u64) -> bool
        ensures { result ≡ is_slowed network now most within self.now }
    {
        self.recent(network, now, within) >= most
    }

    /// One more was shown. Takes no memory.
    pub fn add(&mut self, key: WrongKey)
        ensures added { self.new ≡ behind_wrong_key key self.old }
        ensures bounded { length self.new ≤ MAX_WRONG_KEYS }
    {
        make_room(&mut self.last);
        self.last.push_back_reserved(key);
    }
}
