//! A link over memory.
ghost use Rattle.std.specs.Prelude.{◌≡◌, ◌+◌, ◌<◌, ◌↔◌, length, Contains, Some, Err, [], ◌∷◌, ◌++◌, IfOk, OnOk, OnErr};
ghost use Rattle.edit_io.specs.Causes.{HasOutCause, next_count};
ghost use Rattle.edit_io.specs.Link.{with_last, came_by, closes_by, went_by};
ghost use Rattle.edit_io.specs.Wire.{messages, RecvFails, ComesNext, wire_after_recv, wire_after_send, IsNextIn};

use crate::fail::OutFail;
use crate::link::Link;
use std::alloc::{AllocError, Global};
use std::marker::Model;

/// A link over memory, which gives its messages in their order and then closes, keeps what is sent, and
/// fails at listed calls.
#[derive(Drop)]
pub struct MemLink {
    incoming: Vec<Vec<u8>>,
    at: usize,
    sent: Vec<Vec<u8>>,
    fails: Vec<u64>,
    calls: u64,
    faults: u64,
    closes: u64,
}

impl Model for MemLink {
    ghost use Rattle.std.specs.Prelude.{◌≤◌, take, drop, vec_len};
    ghost use Rattle.edit_io.specs.Wire.{Wire, messages};

    ghost Value = { Wire };

    ghost view = { λ s. record {
      coming = drop s.at (messages s.incoming.items);
      got = take s.at (messages s.incoming.items);
      sent = messages s.sent.items;
      fails = s.fails.items;
      calls = s.calls;
      faults = s.faults;
      closes = s.closes;
    } };

    ghost invariant = { λ s. s.at ≤ vec_len s.incoming };
}

// A copy of the message in this place.
fn copy_at(buffers: &[Vec<u8>], at: usize) -> Result<Vec<u8>, AllocError>
    requires { at < length buffers.now }
    ensures { IfOk result (λ copy. IsNextIn (messages buffers.now) at copy.items) }
{
    let buffer = &buffers[at];
    Vec::from_slice(*buffer.allocator(), buffer.as_slice())
}

// Puts a copy of a message last.
fn push_copy(buffers: &mut Vec<Vec<u8>>, message: &[u8]) -> Result<(), AllocError>
    ensures ok { OnOk result (messages buffers.new.items ≡ messages buffers.old.items ++ message.now ∷ []) }
    ensures err { OnErr result (messages buffers.new.items ≡ messages buffers.old.items) }
{
    let copy = Vec::from_slice(*buffers.allocator(), message)?;
    buffers.push(copy)?;
    Ok(())
}

impl MemLink {
    /// A link over which these messages come. The calls of `recv` and `send` whose numbers, counted
    /// together from 1, are listed in `fails` fail. It takes no memory yet.
    pub fn new(alloc: Global, incoming: Vec<Vec<u8>>, fails: Vec<u64>) -> MemLink
        ensures { result ≡ record {
          coming = messages incoming.items;
          got = [];
          sent = [];
          fails = fails.items;
          calls = 0;
          faults = 0;
          closes = 0;
        } }
    {
        MemLink {
            incoming,
            at: 0,
            sent: Vec::new(alloc),
            fails,
            calls: 0,
            faults: 0,
            closes: 0,
        }
    }

    /// All messages that were sent.
    pub fn sent(&self) -> &[Vec<u8>]
        ensures { messages result.now ≡ self.now.sent }
    {
        self.sent.as_slice()
    }

    /// How often it has failed.
    pub fn faults(&self) -> u64
        ensures { result ≡ self.now.faults }
    {
        self.faults
    }

    /// How often a call found that the other end had closed.
    pub fn closes(&self) -> u64
        ensures { result ≡ self.now.closes }
    {
        self.closes
    }
}

impl Link for MemLink {
    ghost got = { λ s. Some s.got };

    ghost sent = { λ s. Some s.sent };

    ghost faults = { λ s. s.faults };

    ghost closes = { λ s. s.closes };

    /// Gives a copy of the next message, or none after the last, or fails where this call is listed.
    ///
    /// It takes time and memory in the bytes of the message, and time in the length of the list of failing
    /// calls.
    fn recv(&mut self) -> Result<Option<Vec<u8>>, OutFail>
        ensures got { Some self.new.got ≡ with_last (Some self.old.got) (came_by result) }
        ensures sent { Some self.new.sent ≡ Some self.old.sent }
        ensures closes { self.new.closes ≡ self.old.closes + closes_by result }
        ensures cause { HasOutCause self.old.faults self.new.faults result }

        // Beyond the trait: which calls fail, what comes, and what the link is afterwards.
        ensures fails { (result ≡ Err OutFail.Failed) ↔ RecvFails self.old }
        ensures next { IfOk result (λ came. ComesNext self.old.coming came) }
        ensures after { self.new ≡ wire_after_recv self.old result }
    {
        self.calls = self.calls.saturating_add(1);
        if self.fails.contains(&self.calls) {
            self.faults = self.faults.saturating_add(1);
            return Err(OutFail::Failed);
        }
        if self.at == self.incoming.len() {
            if self.closes == u64::MAX {
                self.faults = self.faults.saturating_add(1);
                return Err(OutFail::Failed);
            }
            self.closes += 1;
            return Ok(None);
        }
        match copy_at(self.incoming.as_slice(), self.at) {
            Ok(copy) => {
                self.at += 1;
                Ok(Some(copy))
            }
            Err(_) => Err(OutFail::NoMemory),
        }
    }

    /// Keeps a copy of the message, or fails where this call is listed.
    ///
    /// It takes time and memory in the bytes of the message, on average, and time in the length of the list
    /// of failing calls.
    fn send(&mut self, message: &[u8]) -> Result<(), OutFail>
        ensures got { Some self.new.got ≡ Some self.old.got }
        ensures sent { Some self.new.sent ≡ with_last (Some self.old.sent) (went_by result message.now) }
        ensures closes { self.new.closes ≡ self.old.closes }
        ensures cause { HasOutCause self.old.faults self.new.faults result }

        // Beyond the trait: which calls fail, and what the link is afterwards.
        ensures fails { (result ≡ Err OutFail.Failed) ↔ Contains self.old.fails (next_count self.old.calls) }
        ensures after { self.new ≡ wire_after_send self.old message.now result }
    {
        self.calls = self.calls.saturating_add(1);
        if self.fails.contains(&self.calls) {
            self.faults = self.faults.saturating_add(1);
            return Err(OutFail::Failed);
        }
        match push_copy(&mut self.sent, message) {
            Ok(()) => Ok(()),
            Err(_) => Err(OutFail::NoMemory),
        }
    }
}
