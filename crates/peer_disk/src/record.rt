//! A record that is ready to be put.
ghost use Rattle.std.specs.Prelude.{◌≡◌, ◌++◌, ◌∷◌, [], IfOk, length};
ghost use Rattle.std.specs.Int.{w16, to_be_bytes};
ghost use Rattle.peer_disk.specs.Records.{FitsRecord, behind_gate_of};

use crate::layout::{BESIDE_BODY, CLOSED};
use std::alloc::{AllocError, Global};
use std::marker::Model;

/// What is written behind a gate for a body: its length, the body, and the next gate, closed. It is seen as the body.
///
/// A record takes its memory before it is put, so that putting it can't fail for want of memory.
#[derive(Drop)]
pub struct Record {
    behind: Vec<u8>,
}

impl Model for Record {
    ghost use Rattle.std.specs.Prelude.{ℕ, List};
    ghost use Rattle.peer_disk.specs.Records.{body_behind, IsBehindGate};

    ghost Value = { List ℕ };

    ghost view = { λ r. body_behind r.behind.items };

    ghost invariant = { λ r. IsBehindGate r.behind.items };
}

// What is written behind a gate: the length of the body, the body and the next gate, closed.
fn behind_gate(alloc: Global, body: &[u8]) -> Result<Vec<u8>, AllocError>
    requires { FitsRecord body.now }
    ensures { IfOk result (λ bytes. bytes.items ≡ behind_gate_of body.now) }
{
    let mut bytes = Vec::new(alloc);
    bytes.extend_from_slice(&(body.len() as u16).to_be_bytes())?;
    bytes.extend_from_slice(body)?;
    bytes.push(CLOSED)?;
    Ok(bytes)
}

impl Record {
    /// The record of a body, which is copied. It takes memory for the body once.
    #[tactic(auto, using(crate::proofs::Behind::body_again))]
    pub fn new(alloc: Global, body: &[u8]) -> Result<Record, AllocError>
        requires { FitsRecord body.now }
        ensures { IfOk result (λ r. r ≡ body.now) }
    {
        Ok(Record {
            behind: behind_gate(alloc, body)?,
        })
    }

    // What is written behind the gate.
    pub(crate) fn behind(&self) -> &[u8]
        ensures value { result.now ≡ behind_gate_of self.now }
        ensures short { FitsRecord self.now }
    {
        &self.behind
    }

    // How long the body is.
    pub(crate) fn body_len(&self) -> u64
        ensures { result ≡ length self.now }
    {
        self.behind.len() as u64 - BESIDE_BODY
    }
}
