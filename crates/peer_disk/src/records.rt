//! Records that are ready to be put at once.
ghost use Rattle.std.specs.Prelude.{◌≡◌, ◌++◌, ◌∷◌, [], List, ℕ, IfOk, OnOk, OnErr, IsTrue, false, length};
ghost use Rattle.peer_disk.specs.Records.{records, AreBehindGate};

use crate::layout::{CLOSED, OPEN};
use crate::record::Record;
use std::alloc::{AllocError, Global};
use std::marker::Model;

/// The records of a list of bodies, as they are put at once. They are seen as the bodies.
///
/// Each takes its memory when it is pushed, so that putting them can't fail for want of memory.
#[derive(Drop)]
pub struct Records {
    // The records with open gates, and then a closed gate. The first gate isn't written: it stands in the file.
    bytes: Vec<u8>,
}

impl Model for Records {
    ghost use Rattle.std.specs.Prelude.{ℕ, List};
    ghost use Rattle.peer_disk.specs.Records.{bodies_of, AreClosedRecords};

    ghost Value = { List (List ℕ) };

    ghost view = { λ r. bodies_of r.bytes.items };

    ghost invariant = { λ r. AreClosedRecords r.bytes.items };
}

impl Records {
    /// No records. It takes memory once.
    pub fn new(alloc: Global) -> Result<Records, AllocError>
        ensures { IfOk result (λ r. r ≡ []) }
    {
        let mut bytes = Vec::new(alloc);
        bytes.push(CLOSED)?;
        Ok(Records { bytes })
    }

    /// Whether there are none.
    pub fn is_empty(&self) -> bool
        ensures some { result ≡ false → self.now ≡ [] → ⊥ }
        ensures none { IsTrue result → self.now ≡ [] }
    {
        self.bytes.len() == 1
    }

    /// How many bytes a file grows by where they are put.
    pub fn grows_by(&self) -> u64
        ensures { result ≡ length (records self.now) }
    {
        self.bytes.len() as u64 - 1
    }

    /// Adds a record behind the others. It takes memory for it.
    pub fn push(&mut self, body: &Record) -> Result<(), AllocError>
        ensures pushed { OnOk result (self.new ≡ self.old ++ body.now ∷ []) }
        ensures unchanged { OnErr result (self.new ≡ self.old) }
    {
        let gate = self.bytes.len() - 1;
        self.bytes.extend_from_slice(body.behind())?;
        self.bytes[gate] = OPEN;
        Ok(())
    }

    /// Takes the last record away, which is that of this body.
    pub fn take_back(&mut self, body: &Record)
        requires { (kept : List (List ℕ)) × (self.old ≡ kept ++ body.now ∷ []) }
        ensures { (kept : List (List ℕ)) → self.old ≡ kept ++ body.now ∷ [] → self.new ≡ kept }
    {
        let gate = self.bytes.len() - 1 - body.behind().len();
        self.bytes.truncate(gate + 1);
        self.bytes[gate] = CLOSED;
    }

    /// Takes all records away, and keeps their memory for others.
    pub fn clear(&mut self)
        ensures { self.new ≡ [] }
    {
        self.bytes.truncate(1);
        self.bytes[0] = CLOSED;
    }

    // What is written behind the gate.
    pub(crate) fn behind(&self) -> &[u8]
        requires { self.now ≡ [] → ⊥ }
        ensures { AreBehindGate self.now result.now }
    {
        &self.bytes[1..]
    }
}
