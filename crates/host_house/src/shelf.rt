//! Calls that touch one of a house's documents, and leave the others.
ghost use Rattle.std.specs.Prelude.{◌≡◌, IfOk, IsSome};
ghost use Rattle.host_house.specs.Household.{OthersStay, StaysOpen, IsClosedAtAll};

use crate::seals::{open_sealed, seal_document};
use host_core::{LinkId, Role};
use host_interface::{HouseDocument, OpenFault};
use host_link::{Claim, Ending};
use host_people::People;

/// A device of a person that comes to a document, and what it says of itself.
#[derive(Clone, Copy)]
pub(crate) struct Entrant<'c> {
    pub(crate) people: &'c People,
    pub(crate) person: u16,
    pub(crate) role: Role,
    pub(crate) claim: &'c Claim,
}

/// Opens the document of a number, unless it is open.
pub(crate) fn open_at<'a, D: HouseDocument<'a>>(
    rt: &'a HostRuntime,
    folder: &str,
    documents: &mut [D],
    number: usize,
) -> Result<(), OpenFault>
    ensures { OthersStay number documents.old documents.new }
{
    if number >= documents.len() {
        return Err(OpenFault::Damaged);
    }
    open_sealed(rt, folder, &mut documents[number])
}

// Opens a document, unless it is open, and admits a device.
fn let_in<'a, D: HouseDocument<'a>>(
    rt: &'a HostRuntime,
    folder: &str,
    document: &mut D,
    entrant: &Entrant<'_>,
) -> Result<LinkId, Ending> {
    if open_sealed(rt, folder, document).is_err() {
        return Err(Ending::NoDocument);
    }
    document.admit(entrant.people, entrant.person, entrant.role, entrant.claim)
}

/// Admits a device to the document of a number, which is opened.
pub(crate) fn admit_at<'a, D: HouseDocument<'a>>(
    rt: &'a HostRuntime,
    folder: &str,
    documents: &mut [D],
    number: usize,
    entrant: &Entrant<'_>,
) -> Result<LinkId, Ending>
    ensures { OthersStay number documents.old documents.new }
{
    if number >= documents.len() {
        return Err(Ending::NoDocument);
    }
    let_in(rt, folder, &mut documents[number], entrant)
}

// Saves and seals a document, if it can be saved.
fn save_and_seal<'a, D: HouseDocument<'a>>(
    rt: &HostRuntime,
    folder: &str,
    document: &mut D,
) -> Result<(), Ending>
    ensures { IsSome (D.past document.old) → IsSome (D.past document.new) }
{
    match document.commit() {
        Ok(_) => {
            seal_document(rt, folder, document);
            Ok(())
        }
        Err(why) => Err(why),
    }
}

/// Saves and seals the document of a number, if it can be saved. It stays open, if it was.
pub(crate) fn save_at<'a, D: HouseDocument<'a>>(
    rt: &HostRuntime,
    folder: &str,
    documents: &mut [D],
    number: usize,
) -> Result<(), Ending>
    ensures others { OthersStay number documents.old documents.new }
    ensures open { StaysOpen D.past number documents.old documents.new }
{
    if number >= documents.len() {
        return Err(Ending::NoDocument);
    }
    save_and_seal(rt, folder, &mut documents[number])
}

// Saves, seals and closes a document, if it can be saved.
fn save_and_shut<'a, D: HouseDocument<'a>>(
    rt: &HostRuntime,
    folder: &str,
    document: &mut D,
) -> Result<(), Ending> {
    match save_and_seal(rt, folder, document) {
        Ok(()) => {
            document.shut();
            Ok(())
        }
        Err(why) => Err(why),
    }
}

/// Saves, seals and closes the document of a number, if it can be saved.
pub(crate) fn shut_at<'a, D: HouseDocument<'a>>(
    rt: &HostRuntime,
    folder: &str,
    documents: &mut [D],
    number: usize,
) -> Result<(), Ending>
    ensures { OthersStay number documents.old documents.new }
{
    if number >= documents.len() {
        return Err(Ending::NoDocument);
    }
    save_and_shut(rt, folder, &mut documents[number])
}

/// Seals what is saved of the documents that are open.
pub(crate) fn seal_all<'a, D: HouseDocument<'a>>(
    rt: &HostRuntime,
    folder: &str,
    documents: &mut [D],
)
    ensures { documents.new ≡ documents.old }
{
    for number in 0..documents.len() {
        seal_document(rt, folder, &mut documents[number]);
    }
}

/// Closes a device in the documents that are open.
pub(crate) fn close_in_all<'a, D: HouseDocument<'a>>(documents: &mut [D], site: u16)
    ensures { IsClosedAtAll D.past site documents.new }
{
    for number in 0..documents.len() {
        documents[number].close_device(site);
    }
}

/// Closes the document of a number as one that can't be opened.
pub(crate) fn give_up_at<'a, D: HouseDocument<'a>>(
    documents: &mut [D],
    number: usize,
    fault: OpenFault,
)
    ensures { OthersStay number documents.old documents.new }
{
    if number < documents.len() {
        documents[number].give_up(fault);
    }
}
