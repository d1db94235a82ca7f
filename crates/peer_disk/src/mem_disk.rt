//! A disk in memory.
ghost use Rattle.std.specs.Prelude.{◌≡◌, ◌≤◌, ◌↔◌, ◌++◌, ◌∷◌, [], ℕ, List, Some, IsTrue, IsErr, IfOk, OnOk, OnErr, length};
ghost use Rattle.std.specs.Io.{ReadsAtMost};
ghost use Rattle.edit_io.specs.Causes.{HasCause, next_count};
ghost use Rattle.peer_disk.specs.Disk.{overwritten, GivesFrom, Torn, IsWrittenOrTorn, IsUntouched, LeavesAfter, Only, Elapses};
ghost use Rattle.peer_disk.specs.History.{bytes_after_all, may_leave_of, left_since_of, NextFails, called, bytes_held};
ghost use Rattle.peer_disk.specs.HistoryLaws.{bytes_stay, left_now, left_only};

use crate::disk::Disk;
use edit_io::Failed;
use std::alloc::{AllocError, Global};
use std::marker::Model;

/// Bytes that were written, and the place of the first.
#[derive(Debug, Drop)]
pub struct DiskWrite {
    /// The place of the first byte.
    pub from: u64,
    /// The bytes.
    pub bytes: Vec<u8>,
}

/// A call that changed what a read gives or a crash may leave.
#[derive(Debug, Drop)]
pub enum DiskCall {
    /// Bytes were written.
    Wrote(DiskWrite),
    /// All that was written before went to the disk.
    Synced,
}

/// A disk in memory, which keeps its writes and syncs, and fails at listed calls.
///
/// A call that fails changes nothing but the counts. Want of memory is a failure too.
#[derive(Drop)]
pub struct MemDisk {
    first: Vec<u8>,
    changed: Option<Vec<u8>>,
    history: Vec<DiskCall>,
    fails: Vec<u64>,
    stop: Option<u64>,
    calls: u64,
    faults: u64,
}

impl Model for MemDisk {
    ghost use Rattle.std.specs.Prelude.{◌≡◌};
    ghost use Rattle.peer_disk.specs.History.{Medium, bytes_after_all, bytes_held};

    ghost Value = { Medium };

    ghost view = { λ s. record { first = s.first.items; history = s.history.items; fails = s.fails.items; stop = s.stop; calls = s.calls; faults = s.faults } };

    ghost invariant = { λ s. bytes_held s.first.items s.changed ≡ bytes_after_all s.first.items s.history.items };
}

// The bytes with these in the place that starts at `from`.
fn overwrite(file: &mut Vec<u8>, from: usize, bytes: &[u8]) -> Result<(), AllocError>
    requires { from ≤ length file.old.items }
    ensures ok { OnOk result (file.new.items ≡ overwritten file.old.items from bytes.now) }
    ensures err { OnErr result (file.new.items ≡ file.old.items) }
{
    let fit = bytes.len().min(file.len() - from);
    file.reserve(bytes.len() - fit)?;
    file[from..from + fit].copy_from_slice(&bytes[..fit]);
    file.extend_from_slice(&bytes[fit..])
}

// The bytes that a disk in memory has now.
fn held_bytes<'a>(first: &'a [u8], changed: &'a Option<Vec<u8>>) -> &'a [u8]
    ensures { result.now ≡ bytes_held first.now changed.now }
{
    match changed {
        Some(now) => now.as_slice(),
        None => first,
    }
}

// Copies as many of the bytes from a place on as there are and fit.
fn copy_from(file: &[u8], from: u64, buf: &mut [u8]) -> usize
    ensures bound { result ≤ length buf.new }
    ensures bytes { GivesFrom file.now from result buf.new }
{
    let at = (from as usize).min(file.len());
    let rest = &file[at..];
    let count = rest.len().min(buf.len());
    buf[..count].copy_from_slice(&rest[..count]);
    count
}

// Writes over the bytes that a disk in memory has now.
fn change(
    alloc: Global,
    first: &[u8],
    changed: &mut Option<Vec<u8>>,
    write: &DiskWrite,
) -> Result<(), AllocError>
    requires { write.now.from ≤ length (bytes_held first.now changed.old) }
    ensures ok { OnOk result (bytes_held first.now changed.new ≡ overwritten (bytes_held first.now changed.old) write.now.from write.now.bytes.items) }
    ensures err { OnErr result (bytes_held first.now changed.new ≡ bytes_held first.now changed.old) }
{
    if changed.is_none() {
        *changed = Some(first.to_vec(alloc)?);
    }
    match changed {
        Some(now) => overwrite(now, write.from as usize, &write.bytes),
        None => unreachable!(),
    }
}

impl MemDisk {
    /// A disk with these bytes, all of them on it. The calls whose numbers, from 1, are listed in `fails`
    /// fail, and so does each call after the first `stop` ones. It takes no memory.
    pub fn new(bytes: Vec<u8>, fails: Vec<u64>, stop: Option<u64>) -> MemDisk
        ensures { result ≡ record { first = bytes.items; history = []; fails = fails.items; stop = stop; calls = 0; faults = 0 } }
    {
        let alloc = *bytes.allocator();
        MemDisk {
            first: bytes,
            changed: None,
            history: Vec::new(alloc),
            fails,
            stop,
            calls: 0,
            faults: 0,
        }
    }

    /// What a read gives.
    pub fn bytes(&self) -> &[u8]
        ensures { result.now ≡ bytes_after_all self.now.first self.now.history }
    {
        held_bytes(&self.first, &self.changed)
    }

    /// The writes and syncs that were done, in their order.
    pub fn history(&self) -> &[DiskCall]
        ensures { result.now ≡ self.now.history }
    {
        self.history.as_slice()
    }

    // Counts the next call, and says whether it fails.
    fn fails_now(&mut self) -> bool
        ensures fails { IsTrue result ↔ NextFails self.old }
        ensures later { self.old.faults ≤ self.new.faults }
        ensures after { self.new ≡ called self.old result }
    {
        self.calls = self.calls.saturating_add(1);
        let is_behind = self.stop.is_some_and(|stop| stop < self.calls);
        if is_behind || self.fails.contains(&self.calls) {
            self.faults = self.faults.saturating_add(1);
            return true;
        }
        false
    }

    // Counts a failure.
    fn failed(&mut self) -> Failed
        ensures later { self.old.faults ≤ self.new.faults }
        ensures after { self.new ≡ record self.old { faults = next_count self.old.faults } }
    {
        self.faults = self.faults.saturating_add(1);
        Failed
    }

    // Writes, and keeps the write.
    fn put(&mut self, from: u64, bytes: &[u8]) -> Result<(), AllocError>
        requires { from ≤ length (bytes_after_all self.old.first self.old.history) }
        ensures ok { OnOk result ((write : DiskWrite) × (write.from ≡ from) × (write.bytes.items ≡ bytes.now)
            × (self.new ≡ record self.old { history = self.old.history ++ DiskCall.Wrote write ∷ [] })) }
        ensures err { OnErr result (self.new ≡ self.old) }
    {
        let alloc = *self.first.allocator();
        self.history.reserve(1)?;
        let write = DiskWrite {
            from,
            bytes: bytes.to_vec(alloc)?,
        };
        change(alloc, &self.first, &mut self.changed, &write)?;
        self.history.push_reserved(DiskCall::Wrote(write));
        Ok(())
    }

    // Keeps a sync.
    fn settle(&mut self) -> Result<(), AllocError>
        ensures ok { OnOk result (self.new ≡ record self.old { history = self.old.history ++ DiskCall.Synced ∷ [] }) }
        ensures err { OnErr result (self.new ≡ self.old) }
    {
        Ok(self.history.push(DiskCall::Synced)?)
    }
}

impl Disk for MemDisk {
    ghost seen = { λ m. Some (bytes_after_all m.first m.history) };

    ghost may_leave = { λ m. may_leave_of m.first m.history };

    ghost moment = { λ m. length m.history };

    ghost left_since = { λ m. left_since_of m.first m.history };

    ghost faults = { λ m. m.faults };

    ghost seen_may_stay = { λ m. bytes_stay m.first m.history };

    ghost counts_now = { λ m time left before now. left_now m.first m.history time left before now };

    ghost only_now = { λ m left since. left_only m.first m.history left since };

    fn len(&mut self) -> Result<u64, Failed>
        ensures len { IfOk result (λ n. n ≡ length (bytes_after_all self.old.first self.old.history)) }
        ensures untouched { IsUntouched (Some (bytes_after_all self.old.first self.old.history)) (Some (bytes_after_all self.new.first self.new.history)) (may_leave_of self.old.first self.old.history) (may_leave_of self.new.first self.new.history) }
        ensures time { Elapses (length self.old.history) (length self.new.history) (left_since_of self.old.first self.old.history) (left_since_of self.new.first self.new.history) (may_leave_of self.new.first self.new.history) }
        ensures cause { HasCause self.old.faults self.new.faults result }

        // Beyond the trait: which calls fail.
        ensures fails { NextFails self.old → IsErr result }
    {
        if self.fails_now() {
            return Err(Failed);
        }
        Ok(self.bytes().len() as u64)
    }

    /// Gives all that stands there and fits.
    fn read(&mut self, from: u64, buf: &mut [u8]) -> Result<usize, Failed>
        ensures bound { ReadsAtMost result buf.new }
        ensures bytes { IfOk result (λ n. GivesFrom (bytes_after_all self.old.first self.old.history) from n buf.new) }
        ensures untouched { IsUntouched (Some (bytes_after_all self.old.first self.old.history)) (Some (bytes_after_all self.new.first self.new.history)) (may_leave_of self.old.first self.old.history) (may_leave_of self.new.first self.new.history) }
        ensures time { Elapses (length self.old.history) (length self.new.history) (left_since_of self.old.first self.old.history) (left_since_of self.new.first self.new.history) (may_leave_of self.new.first self.new.history) }
        ensures cause { HasCause self.old.faults self.new.faults result }

        // Beyond the trait: which calls fail.
        ensures fails { NextFails self.old → IsErr result }
    {
        if self.fails_now() {
            return Err(Failed);
        }
        Ok(copy_from(self.bytes(), from, buf))
    }

    fn write_at(&mut self, from: u64, bytes: &[u8]) -> Result<(), Failed>
        requires { from ≤ length (bytes_after_all self.old.first self.old.history) }
        ensures written { IsWrittenOrTorn result from bytes.now (bytes_after_all self.old.first self.old.history) (bytes_after_all self.new.first self.new.history) }
        ensures crash { LeavesAfter (Torn from (length bytes.now)) (may_leave_of self.old.first self.old.history) (may_leave_of self.new.first self.new.history) }
        ensures time { Elapses (length self.old.history) (length self.new.history) (left_since_of self.old.first self.old.history) (left_since_of self.new.first self.new.history) (may_leave_of self.new.first self.new.history) }
        ensures cause { HasCause self.old.faults self.new.faults result }

        // Beyond the trait: which calls fail.
        ensures fails { NextFails self.old → IsErr result }
    {
        if self.fails_now() {
            return Err(Failed);
        }
        match self.put(from, bytes) {
            Ok(()) => Ok(()),
            Err(_) => Err(self.failed()),
        }
    }

    fn sync(&mut self) -> Result<(), Failed>
        ensures durable { OnOk result (Only (bytes_after_all self.old.first self.old.history) (may_leave_of self.new.first self.new.history)) }
        ensures seen { Some (bytes_after_all self.new.first self.new.history) ≡ Some (bytes_after_all self.old.first self.old.history) }
        ensures crash { (left : List ℕ) → may_leave_of self.new.first self.new.history left → may_leave_of self.old.first self.old.history left }
        ensures untouched { OnErr result (IsUntouched (Some (bytes_after_all self.old.first self.old.history)) (Some (bytes_after_all self.new.first self.new.history)) (may_leave_of self.old.first self.old.history) (may_leave_of self.new.first self.new.history)) }
        ensures time { Elapses (length self.old.history) (length self.new.history) (left_since_of self.old.first self.old.history) (left_since_of self.new.first self.new.history) (may_leave_of self.new.first self.new.history) }
        ensures cause { HasCause self.old.faults self.new.faults result }

        // Beyond the trait: which calls fail.
        ensures fails { NextFails self.old → IsErr result }
    {
        if self.fails_now() {
            return Err(Failed);
        }
        match self.settle() {
            Ok(()) => Ok(()),
            Err(_) => Err(self.failed()),
        }
    }
}
