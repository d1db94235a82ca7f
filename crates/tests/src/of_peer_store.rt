//! Steps that are saved together: how many calls of the disk they take, and what is there where these stop.
ghost use Rattle.std.specs.Prelude.{◌≡◌, [], ℕ, List, Some};
ghost use Rattle.std.specs.declared.option.Option.{Option};
ghost use Rattle.peer_disk.specs.History.{bytes_after_all};
ghost use Rattle.peer_store.specs.Store.{HasGate};

use coop_request::Piece;
use peer_disk::MemDisk;
use peer_step::{LocalEdit, Step};
use peer_store::Store;
use std::alloc::{AllocError, Global};
use std::test::Fail;

// The file of site 0 that keeps no step, and the one that keeps two inserts of `a`.
const FRESH: &[u8] = b"\x01\0\0\0";

const TWO: &[u8] = b"\x01\0\0\x01\0\x07\x01\0\0\0\0\x01a\x01\0\x07\x01\0\0\0\0\x01a\0";

// An insert at the start.
fn insert() -> Step {
    Step::Edit(LocalEdit::Insert {
        at: 0,
        letter: Piece::of('a'),
    })
}

// Makes an insert, in memory alone, and says whether it was made.
fn inserts(store: &mut Store) -> bool
    ensures { (seen : Option (List ℕ)) → HasGate store.old seen → HasGate store.new seen }
{
    match store.step(insert()) {
        Ok(answer) => {
            drop(answer);
            true
        }
        Err(_) => false,
    }
}

// Makes two inserts, in memory alone, and says whether they were made.
fn inserts_two(store: &mut Store) -> bool
    ensures { (seen : Option (List ℕ)) → HasGate store.old seen → HasGate store.new seen }
{
    let first = inserts(store);
    let second = inserts(store);
    first && second
}

// Whether two inserts wait to be saved in a fresh store, and nothing of them was written.
fn two_wait(store: &Store, disk: &MemDisk) -> bool {
    store.saved() == 0 && store.unsaved_len() == 20 && disk.bytes() == FRESH
}

// Saves them, and saves again, where there is nothing to save.
fn saves_two(store: &mut Store, disk: &mut MemDisk) -> bool
    requires { HasGate store.old (Some (bytes_after_all disk.old.first disk.old.history)) }
{
    let first = store.save(disk).is_ok();
    let second = store.save(disk).is_ok();
    first && second && store.saved() == 2 && store.unsaved_len() == 0
}

// Whether all this is done with a store that is made on the empty disk.
fn is_done(alloc: Global, disk: &mut MemDisk) -> bool
    requires { bytes_after_all disk.old.first disk.old.history ≡ [] }
{
    match Store::create(alloc, disk, 0) {
        Ok(mut store) => {
            let made = inserts_two(&mut store) && two_wait(&store, disk);
            let done = saves_two(&mut store, disk);
            drop(store);
            made && done
        }
        Err(_) => false,
    }
}

// An empty disk, of which all calls behind the first `stop` fail.
fn empty_disk(alloc: Global, stop: Option<u64>) -> MemDisk
    ensures { bytes_after_all result.first result.history ≡ [] }
{
    MemDisk::new(Vec::new(alloc), Vec::new(alloc), stop)
}

// How many messages are saved in a store of these bytes.
fn saved_in(alloc: Global, file: &[u8]) -> Result<Option<u32>, AllocError> {
    let mut disk = MemDisk::new(Vec::from_slice(alloc, file)?, Vec::new(alloc), None);
    match Store::open(alloc, &mut disk, 0) {
        Ok(store) => {
            let saved = store.saved();
            drop(store);
            Ok(Some(saved))
        }
        Err(_) => Ok(None),
    }
}

// Making the file takes a write and a sync, the first save two of each, and the second none.
#[test]
fn steps_are_saved_at_once(rt: HostRuntime) {
    let mut disk = empty_disk(rt.alloc(), None);
    assert!(rt; is_done(rt.alloc(), &mut disk));
    assert!(rt; disk.bytes() == TWO);
    assert!(rt; disk.history().len() == 6);
}

// Where the disk stops behind one of these calls, a file that is opened has all steps or none. The third call of a save
// opens the gate.
#[test]
fn a_save_stops(rt: HostRuntime) -> Result<(), Fail> {
    for calls in 2..7u64 {
        let mut disk = empty_disk(rt.alloc(), Some(calls));
        assert_eq!(rt; is_done(rt.alloc(), &mut disk), calls == 6);
        assert!(rt; disk.history().len() as u64 == calls);
        let count = if calls < 5 { 0 } else { 2 };
        assert_eq!(rt; saved_in(rt.alloc(), disk.bytes())?, Some(count));
    }
    Ok(())
}
