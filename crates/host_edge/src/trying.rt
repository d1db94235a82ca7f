//! Wrong keys are counted by where they come from, and who showed too many has to wait.
ghost use Rattle.std.specs.Prelude.{◌≡◌};
ghost use Rattle.host_link.specs.declared.ending.Ending.{Ending};
ghost use Rattle.host_edge.specs.Slowed.{slows, CountsWrong};

use crate::desk::Desk;
use host_link::Ending;
use host_socket::{Limits, Network, WrongKey};
use std::net::IpAddr;

impl<'a, D> Desk<'a, D> {
    // Where a request comes from: from the address at the other end of its connection or, where a proxy's word is taken, from
    // the one that it is forwarded for. None of this machine, where nothing is counted.
    pub(crate) fn network_of(&self, peer: IpAddr, forwarded: Option<IpAddr>) -> Option<Network> {
        match forwarded {
            Some(address) if self.trusts_proxy => Network::of(address),
            _ => Network::of(peer),
        }
    }

    // Whether who comes from there has to wait, since he showed too many wrong keys lately.
    pub(crate) fn has_to_wait(&self, from: Option<Network>) -> bool
        ensures { result ≡ slows from self.entry.now.now self.entry.now.limits self.entry.now.wrong_keys }
    {
        let Limits {
            wrong_keys,
            wrong_keys_count,
            ..
        } = self.limits;
        match from {
            Some(network) => self
                .wrong_keys
                .is_slowed(network, self.now, wrong_keys, wrong_keys_count),
            None => false,
        }
    }

    // A wrong key came from there.
    pub(crate) fn count_wrong(&mut self, from: Option<Network>)
        ensures counted { CountsWrong from self.old.now self.old.wrong_keys self.new.wrong_keys }
        ensures others { self.new ≡ record self.old { wrong_keys = self.new.wrong_keys } }
    {
        if let Some(network) = from {
            let at = self.now;
            self.wrong_keys.add(WrongKey { network, at });
        }
    }

    // Who comes from there is turned away for this reason. A wrong key is counted.
    pub(crate) fn counted(&mut self, from: Option<Network>, why: Ending) -> Ending
        ensures same { result ≡ why }
        ensures counted { why ≡ Ending.WrongSecret → CountsWrong from self.old.now self.old.wrong_keys self.new.wrong_keys }
        ensures others { self.new ≡ record self.old { wrong_keys = self.new.wrong_keys } }
    {
        match why {
            Ending::WrongSecret => self.count_wrong(from),
            _ => {}
        }
        why
    }
}
