//! People in a file.
ghost use Rattle.std.specs.Prelude.{◌≡◌, ◌<◌, ◌^◌, ◌∷◌, ◌++◌, [], false, IfOk, IfErr, IfSome, OnOk, IsSome, IsTrue};
ghost use Rattle.peer_disk.specs.Disk.{LeavesOnly};
ghost use Rattle.peer_disk.specs.declared.walk.Ending.{Ending};
ghost use Rattle.peer_disk.specs.Records.{gate_place, bytes_of_each};
ghost use Rattle.host_people.specs.Bodies.{change_bodies};
ghost use Rattle.host_people.specs.Kept.{KeepsChanges, HasChangesOrOneMore, HasLastGate, IsNotKeptFor};

use crate::body::{body_of, read_change};
use crate::change::Change;
use crate::fault::BookFault;
use crate::people::People;
use element_name::NoMemory;
use peer_disk::{BESIDE_BODY, Disk, Ending, FIRST_GATE, Loaded, Record};
use std::alloc::Global;
use std::marker::Model;

// The site that stands in the file's head: the administrator's.
const SITE: u16 = 0;

/// The greatest place of a gate behind which one more change is kept.
const MAX_PLACE: u64 = 1_099_511_627_776;

/// The people of a host, whose changes are kept on a disk, which each call that writes is lent.
#[derive(Drop)]
pub struct Book {
    alloc: Global,
    people: People,
    // Where the file's last gate stands.
    place: u64,
    // Whether the disk failed while a change was kept.
    is_spent: bool,
}

impl Model for Book {
    ghost use Rattle.host_people.specs.Kept.{Kept};

    ghost Value = { Kept };

    ghost view = { λ b. record { changes = b.people; place = b.place; spent = b.is_spent } };
}

// Makes the change of a body, and says whether it is one.
fn follow_body(alloc: Global, people: &mut People, body: &[u8]) -> Result<bool, NoMemory>
    ensures { IfOk result (λ made. IsTrue made → change_bodies people.new ≡ change_bodies people.old ++ body.now ∷ []) }
{
    let Some(change) = read_change(alloc, body)? else {
        return Ok(false);
    };
    people.apply(&change)?;
    Ok(true)
}

// Makes the changes of these bodies, and gives the place of the gate behind their records.
fn follow_bodies(alloc: Global, people: &mut People, bodies: &[Vec<u8>]) -> Result<u64, BookFault>
    requires fits { gate_place (bytes_of_each bodies.now) < 2 ^ 64 }
    requires none { people.old ≡ [] }
    ensures place { IfOk result (λ place. place ≡ gate_place (bytes_of_each bodies.now)) }
    ensures changes { OnOk result (change_bodies people.new ≡ bytes_of_each bodies.now) }
{
    let mut place = FIRST_GATE;
    for body in bodies {
        if !follow_body(alloc, people, body)? {
            return Err(BookFault::NotABook);
        }
        place += BESIDE_BODY + body.len() as u64;
    }
    Ok(place)
}

// The people of what was read of a file, and the place of the gate behind their changes.
fn read_people(alloc: Global, loaded: &Loaded) -> Result<(People, u64), BookFault>
    requires { gate_place (bytes_of_each loaded.now.bodies.items) < 2 ^ 64 }
    ensures place { IfOk result (λ r. r.1 ≡ gate_place (bytes_of_each loaded.now.bodies.items)) }
    ensures changes { IfOk result (λ r. change_bodies r.0 ≡ bytes_of_each loaded.now.bodies.items) }
    ensures closed { OnOk result (loaded.now.ending ≡ Ending.Closed) }
{
    let mut people = People::new(alloc);
    let place = follow_bodies(alloc, &mut people, &loaded.bodies)?;
    match loaded.ending {
        Ending::Closed => Ok((people, place)),
        Ending::Broken => Err(BookFault::NotABook),
    }
}

impl Book {
    // Makes a book of nobody on an empty disk.
    fn create<D: Disk>(alloc: Global, disk: &mut D) -> Result<Book, BookFault>
        requires { IfSome (D.seen disk.old) (λ file. file ≡ []) }
        ensures kept { IfOk result (λ book. IsSome (D.seen disk.old) → KeepsChanges book (D.seen disk.new) (D.may_leave disk.new)) }
        ensures nobody { IfOk result (λ book. (book.changes ≡ []) × (book.spent ≡ false)) }
        ensures gate { IfOk result (λ book. HasLastGate book (D.seen disk.new)) }
    {
        let people = People::new(alloc);
        let Ok(place) = peer_disk::create(disk, SITE) else {
            return Err(BookFault::DiskFault);
        };
        Ok(Book {
            alloc,
            people,
            place,
            is_spent: false,
        })
    }

    /// Opens the book on a disk, and makes one of nobody where the disk is empty.
    ///
    /// It takes time and memory in the length of the file. `NotABook` says that the file has something else.
    pub fn open<D: Disk>(alloc: Global, disk: &mut D) -> Result<Book, BookFault>
        ensures kept { IfOk result (λ book. IsSome (D.seen disk.old) → KeepsChanges book (D.seen disk.new) (D.may_leave disk.new)) }
        ensures unspent { IfOk result (λ book. book.spent ≡ false) }
        ensures gate { IfOk result (λ book. HasLastGate book (D.seen disk.new)) }
    {
        let Ok(size) = disk.len() else {
            return Err(BookFault::DiskFault);
        };
        if size == 0 {
            return Book::create(alloc, disk);
        }
        let loaded = peer_disk::load(alloc, disk, SITE)?;
        let (people, place) = read_people(alloc, &loaded)?;
        Ok(Book {
            alloc,
            people,
            place,
            is_spent: false,
        })
    }

    /// The people.
    pub fn people(&self) -> &People
        ensures { result.now ≡ self.now.changes }
    {
        &self.people
    }

    /// Makes a change and keeps it: at `Ok` it is on the disk, and each crash leaves it from then on. It takes two writes and
    /// two syncs.
    ///
    /// Where the disk failed the change is made, and the book takes no more: it is to be opened again, and the change may be
    /// in it or not.
    pub fn add<D: Disk>(&mut self, disk: &mut D, change: &Change) -> Result<(), BookFault>
        requires { HasLastGate self.old (D.seen disk.old) }
        ensures added { OnOk result (self.new.changes ≡ change.now ∷ self.old.changes) }
        ensures kept { OnOk result (KeepsChanges self.old (D.seen disk.old) (D.may_leave disk.old) → KeepsChanges self.new (D.seen disk.new) (D.may_leave disk.new)) }

        // A crash at any moment of the call leaves the changes from before it, with this one or without.
        ensures any_moment { KeepsChanges self.old (D.seen disk.old) (D.may_leave disk.old)
            → LeavesOnly D.moment D.left_since disk.old disk.new (HasChangesOrOneMore self.old.changes change.now) }
        ensures left { IfErr result (λ fault. IsNotKeptFor fault self.old self.new disk.old disk.new) }
        ensures gate { HasLastGate self.new (D.seen disk.new) }
    {
        if self.is_spent {
            return Err(BookFault::Spent);
        }
        let Ok(body) = body_of(self.alloc, change) else {
            return Err(BookFault::NoMemory);
        };
        if body.len() > u16::MAX as usize || self.place > MAX_PLACE {
            return Err(BookFault::Full);
        }
        let Ok(record) = Record::new(self.alloc, &body) else {
            return Err(BookFault::NoMemory);
        };
        if self.people.apply(change).is_err() {
            return Err(BookFault::NoMemory);
        }
        match peer_disk::put(disk, self.place, &record) {
            Ok(place) => {
                self.place = place;
                Ok(())
            }
            Err(_) => {
                self.is_spent = true;
                Err(BookFault::DiskFault)
            }
        }
    }
}
