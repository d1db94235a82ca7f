//! A document that is renewed. All is made and in its place before anything is closed.
ghost use Rattle.std.specs.Prelude.{◌≡◌, OnErr, IsSome};
ghost use Rattle.host_house.specs.Household.{OthersStay, StaysOpen};

use crate::fault::HouseFault;
use crate::folder::new_identity;
use crate::formers::with_former;
use crate::renewal::{
    Renewal, Renewed, clear_coming, make_coming, make_count, place, remove_certificate,
    write_certificate, write_coming,
};
use crate::seals::{open_sealed, seal_document};
use host_interface::{HouseDocument, OpenFault};
use host_link::Ending;
use host_renewal::{Former, RenewalFault};
use host_seal::Seal;
use sha2::{Digest, Sha256};
use std::io;

// Opens a document, unless it is open, and saves it.
fn open_saved<'a, D: HouseDocument<'a>>(
    rt: &'a HostRuntime,
    folder: &str,
    document: &mut D,
) -> Result<(), HouseFault>
    ensures { IsSome (D.past document.old) → IsSome (D.past document.new) }
{
    if open_sealed(rt, folder, document).is_err() {
        return Err(HouseFault::Renewal(RenewalFault::NotOpen));
    }
    match document.commit() {
        Ok(_) => Ok(()),
        Err(Ending::NoMemory) => Err(HouseFault::NoMemory),
        Err(_) => Err(HouseFault::Failed),
    }
}

// Writes the certificate of a document into its folder, and gives its digest.
fn certificate_digest<'a, D: HouseDocument<'a>>(
    rt: &HostRuntime,
    folder: &str,
    document: &D,
) -> Result<[u8; 32], HouseFault> {
    let certificate = document.journal(rt.alloc(), true)?;
    write_certificate(rt, folder, document.name(), &certificate)?;
    Ok(Sha256::digest(certificate.as_slice()))
}

// What is told of a document whose renewal takes its place. Its certificate is written into its folder.
fn certified<'a, D: HouseDocument<'a>>(
    rt: &HostRuntime,
    folder: &str,
    document: &mut D,
) -> Result<Former, HouseFault>
    ensures { document.new ≡ document.old }
{
    let Some(seal) = document.whole_seal(rt.alloc())? else {
        return Err(HouseFault::Renewal(RenewalFault::NotOpen));
    };
    let certificate = certificate_digest(rt, folder, document)?;
    Ok(Former {
        identity: document.identity(),
        seal,
        certificate,
    })
}

// Makes the steps of the renewal of a document, and gives their seal.
fn made_steps<'a, D: HouseDocument<'a>>(
    rt: &HostRuntime,
    folder: &str,
    document: &D,
) -> Result<Seal, HouseFault> {
    let steps = make_coming(rt, folder, document.name(), &document.identity())?;
    Ok(document.make_renewal(rt, steps)?)
}

// Makes the renewal of a document that is open and saved: its steps, and what it is besides.
fn made<'a, D: HouseDocument<'a>>(
    rt: &HostRuntime,
    folder: &str,
    document: &mut D,
) -> Result<Renewal, HouseFault>
    ensures { document.new ≡ document.old }
{
    let identity = new_identity(rt)?;
    let seal = made_steps(rt, folder, document)?;
    let former = certified(rt, folder, document)?;
    let formers = with_former(rt.alloc(), document.formers(), former)?;
    Ok(Renewal {
        identity,
        seal,
        formers,
    })
}

// Writes a renewal that was made, has it count, and then take its document's place.
fn placed<'a, D: HouseDocument<'a>>(
    rt: &HostRuntime,
    folder: &str,
    document: &mut D,
    renewal: &Renewal,
) -> io::Result<Renewed>
    ensures { document.new ≡ document.old }
{
    write_coming(rt, folder, document.name(), renewal)?;
    seal_document(rt, folder, document);
    make_count(rt, folder, document.name())?;
    place(rt, folder, document.name(), &document.identity())
}

// Makes the renewal of a document that is open and saved, and has it take its place.
fn made_placed<'a, D: HouseDocument<'a>>(
    rt: &HostRuntime,
    folder: &str,
    document: &mut D,
) -> Result<(Renewal, Renewed), HouseFault>
    ensures { document.new ≡ document.old }
{
    let renewal = made(rt, folder, document)?;
    let renewed = placed(rt, folder, document, &renewal)?;
    Ok((renewal, renewed))
}

// The same of one that may be closed. Where it fails nothing is left of the renewal, and the document is open if it could be opened.
fn made_whole<'a, D: HouseDocument<'a>>(
    rt: &'a HostRuntime,
    folder: &str,
    document: &mut D,
) -> Result<(Renewal, Renewed), HouseFault>
    ensures { IsSome (D.past document.old) → IsSome (D.past document.new) }
{
    open_saved(rt, folder, document)?;
    match made_placed(rt, folder, document) {
        Ok(made) => Ok(made),
        Err(fault) => {
            let _ = clear_coming(rt, folder, document.name());
            let _ = remove_certificate(rt, folder, document.name());
            Err(fault)
        }
    }
}

// Closes a document that was renewed. Where its renewal isn't in its place yet it is never opened again, as it doesn't count any more.
fn give_way<'a, D: HouseDocument<'a>>(document: &mut D, renewal: Renewal, renewed: Renewed) {
    match renewed {
        Renewed::InPlace => document.give_way(renewal.identity, renewal.formers),
        Renewed::AtNextStart => {
            drop(renewal);
            document.lose(OpenFault::DiskFault);
        }
    }
}

// Renews a document. One that was closed is so again where it isn't renewed, and one that was open stays open.
fn renew_document<'a, D: HouseDocument<'a>>(
    rt: &'a HostRuntime,
    folder: &str,
    document: &mut D,
) -> Result<Renewed, HouseFault>
    ensures { OnErr result (IsSome (D.past document.old) → IsSome (D.past document.new)) }
{
    let was_open = document.is_open();
    match made_whole(rt, folder, document) {
        Ok((renewal, renewed)) => {
            give_way(document, renewal, renewed);
            Ok(renewed)
        }
        Err(fault) => {
            if !was_open {
                document.shut();
            }
            Err(fault)
        }
    }
}

/// Renews the document of a number, which is closed then. Where it isn't renewed it stays open, if it was.
pub(crate) fn renew_at<'a, D: HouseDocument<'a>>(
    rt: &'a HostRuntime,
    folder: &str,
    documents: &mut [D],
    number: usize,
) -> Result<Renewed, HouseFault>
    ensures others { OthersStay number documents.old documents.new }
    ensures open { OnErr result (StaysOpen D.past number documents.old documents.new) }
{
    if number >= documents.len() {
        return Err(HouseFault::NoDocument);
    }
    renew_document(rt, folder, &mut documents[number])
}
