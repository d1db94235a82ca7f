//! Passes.
ghost use Rattle.std.specs.Prelude.{◌≡◌, false, length};

use crate::recorder::Recorder;
use crate::view::View;
use atomic_table::Seat;
use std::marker::Model;

/// A right to step a shared peer, and what was learnt by it. A thread steps with a pass of its own.
///
/// Contracts see the name of its shared peer, its place among the seats of the table, and its view: the beginning of the
/// run that it has seen, the numbers under which it knows every step, and how often it asked.
#[derive(Drop)]
pub struct Pass {
    pub(crate) seat: Seat<Recorder, View>,
    pub(crate) number: u32,
    pub(crate) weight: u32,
    pub(crate) known: u64,
}

impl Model for Pass {
    ghost use Rattle.peer_lock.specs.KnownPass.{KnownPass, known_pass, IsIdle};

    ghost Value = { KnownPass };

    ghost view = { λ p. known_pass p.seat.table_id p.seat.id p.seat.me.0 };

    ghost invariant = { λ p. IsIdle p.seat.me p.number p.weight p.known };
}

impl Pass {
    /// Its number, under which its steps stand in the run.
    pub fn number(&self) -> u32
        ensures { result ≡ self.now.view.number }
    {
        self.number
    }

    /// How many passes it stands for: itself, and those that were joined into it.
    pub fn weight(&self) -> u32
        ensures { result ≡ length self.now.view.numbers }
    {
        self.weight
    }

    /// How long the beginning of the run is that it has seen: after a step of its own, how many steps the run had with it.
    /// Asks nothing of the shared peer, and so says nothing of what others did since.
    pub fn known(&self) -> u64
        ensures { result ≡ length self.now.view.seen }
    {
        self.known
    }

    // Between two calls a pass has not the gate.
    pub(crate) fn rests(&self)
        ensures { self.now.view.hand ≡ false }
    {
        let _seat = &self.seat;
    }
}
