//! The house: all documents of a folder, and its people.
ghost use Rattle.std.specs.Prelude.{◌≡◌, ◌⊎◌, ◌∷◌, OnOk, IfErr};
ghost use Rattle.host_people.specs.declared.fault.BookFault.{BookFault};
ghost use Rattle.host_house.specs.declared.fault.HouseFault.{HouseFault};

mod making;
mod renewing;
mod serving;
mod showing;
mod tending;

use crate::fault::HouseFault;
use crate::folder::{find_documents, make_folder, make_house, new_identity};
use crate::renewal::end_renewals;
use host_core::Role;
use host_interface::HouseDocument;
use host_link::{Identity, is_document_name};
use host_people::{Book, Change, People};
use peer_disk::FileDisk;
pub use serving::Admitted;
pub use showing::Verified;
use std::alloc::Global;
use std::io;
use std::marker::Model;

// The file of the people in the folder. No document is called so.
const PEOPLE_FILE: &str = "host.people";

// The number of the owner who is made first.
const FIRST_PERSON: u16 = 1;

// His name, until he says another one.
const FIRST_NAME: &str = "Owner";

// The name of the first document, where the folder's is none for a document.
const FIRST_DOCUMENT: &str = "text";

/// A folder of documents of a type, with its people. Contracts see the changes of its people, and each document.
#[derive(Drop)]
pub struct House<'a, D> {
    rt: &'a HostRuntime,
    alloc: Global,
    folder: String,
    // The address of its first page, with the last slash.
    address: String,
    book: Book,
    disk: FileDisk<'a>,
    documents: Vec<D>,
}

impl<'a, D> Model for House<'a, D> {
    ghost use Rattle.host_house.specs.Household.{Household};

    ghost Value = { Household D };

    ghost view = { λ h. record { changes = h.book.changes; documents = h.documents.items } };
}

// The last part of a folder's name, where a document may be called so.
fn first_document_name(folder: &str) -> &str {
    let plain = folder.trim_end_matches('/');
    let last = match plain.rsplit_once('/') {
        Some((_, last)) => last,
        None => plain,
    };
    if is_document_name(last) {
        last
    } else {
        FIRST_DOCUMENT
    }
}

// The documents that stand in a folder, behind the renewals that a crash broke off.
fn settled_documents<'a, D: HouseDocument<'a>>(
    rt: &HostRuntime,
    folder: &str,
) -> io::Result<Vec<D>> {
    end_renewals(rt, folder)?;
    find_documents(rt, folder)
}

// The book of the people in a folder, with its disk.
fn open_book<'a>(rt: &'a HostRuntime, folder: &str) -> Result<(Book, FileDisk<'a>), HouseFault> {
    let alloc = rt.alloc();
    let path = format!(in alloc; "{folder}/{PEOPLE_FILE}")?;
    let mut disk = FileDisk::new(rt, path);
    match Book::open(alloc, &mut disk) {
        Ok(book) => Ok((book, disk)),
        Err(fault) => {
            drop(disk);
            Err(HouseFault::Book(fault))
        }
    }
}

impl<'a, D> House<'a, D> {
    // Makes the owner.
    fn make_owner(&mut self) -> Result<(), HouseFault> {
        let name = String::from_str(self.alloc, FIRST_NAME)?;
        self.add(Change::Made {
            person: FIRST_PERSON,
            role: Role::Owner,
            name,
        })
    }

    /// Its people.
    pub fn people(&self) -> &People
        ensures { result.now ≡ self.now.changes }
    {
        self.book.people()
    }

    /// Its documents.
    pub fn documents(&self) -> &[D]
        ensures { result.now ≡ self.now.documents }
    {
        &self.documents
    }

    /// The document of a number.
    pub fn document(&mut self, number: usize) -> Option<&mut D> {
        self.documents.get_mut(number)
    }

    // Keeps a change of people.
    fn add(&mut self, change: Change) -> Result<(), HouseFault>
        ensures added { OnOk result (self.new.changes ≡ change ∷ self.old.changes) }
        ensures left { IfErr result (λ fault. (fault ≡ HouseFault.Book BookFault.DiskFault) ⊎ (self.new.changes ≡ self.old.changes)) }
        ensures documents { self.new.documents ≡ self.old.documents }
    {
        let added = self.book.add(&mut self.disk, &change);
        drop(change);
        match added {
            Ok(()) => Ok(()),
            Err(fault) => Err(HouseFault::Book(fault)),
        }
    }
}

impl<'a, D: HouseDocument<'a>> House<'a, D> {
    /// Opens the house of a folder, which is made where it isn't there. The address is that of its first page. A renewal of a
    /// document that counts and that a crash broke off is ended.
    pub fn open(
        rt: &'a HostRuntime,
        folder: &str,
        address: String,
    ) -> Result<House<'a, D>, HouseFault> {
        make_house(rt, folder)?;
        let owned = String::from_str(rt.alloc(), folder)?;
        let (book, disk) = open_book(rt, folder)?;
        match settled_documents(rt, folder) {
            Ok(documents) => Ok(House {
                rt,
                alloc: rt.alloc(),
                folder: owned,
                address,
                book,
                disk,
                documents,
            }),
            Err(error) => {
                drop(book);
                drop(disk);
                Err(HouseFault::from(error))
            }
        }
    }

    // Makes the first document where there is none.
    fn have_document(&mut self) -> Result<(), HouseFault> {
        if self.documents.is_empty() {
            self.make_first()
        } else {
            Ok(())
        }
    }

    /// The invitation of the owner, where the house has nobody yet. It makes him and, where there is no document, the first.
    pub fn begin(&mut self) -> Result<Option<String>, HouseFault> {
        if self.people().next_person() != Some(FIRST_PERSON) {
            return Ok(None);
        }
        self.make_owner()?;
        self.have_document()?;
        let invitation = self.invite(FIRST_PERSON)?;
        Ok(Some(invitation))
    }

    /// The number of the document of this name.
    pub fn find(&self, name: &str) -> Option<usize> {
        for (number, document) in self.documents.iter().enumerate() {
            if !document.is_gone() && document.name() == name {
                return Some(number);
            }
        }
        None
    }

    // Makes the first document, of the folder's name.
    fn make_first(&mut self) -> Result<(), HouseFault> {
        let name = String::from_str(self.alloc, first_document_name(self.folder.as_str()))?;
        self.make_document(name.as_str())
    }

    // Makes the folder of the document that was put last, or takes that away.
    fn make_last(&mut self, name: &str, identity: &Identity) -> Result<(), HouseFault> {
        match make_folder(self.rt, self.folder.as_str(), name, identity) {
            Ok(()) => Ok(()),
            Err(_) => {
                drop(self.documents.pop());
                Err(HouseFault::Failed)
            }
        }
    }

    // Makes a document of this name, which none has.
    fn make_document(&mut self, name: &str) -> Result<(), HouseFault> {
        let identity = new_identity(self.rt)?;
        let owned = String::from_str(self.alloc, name)?;
        self.documents
            .push(D::new(owned, identity, Vec::new(self.alloc)))?;
        self.make_last(name, &identity)
    }
}
