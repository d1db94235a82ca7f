//! What a house tells of its documents and keys.

use super::House;
use crate::chain::put_former_line;
use crate::fault::HouseFault;
use crate::formers::{FormersFile, read_formers};
use hex::encode;
use host_interface::HouseDocument;
use host_people::Holder;
use host_renewal::Former;
use std::alloc::{AllocError, Global};
use std::collections::BTreeMap;

/// What was found of the documents of a house.
#[derive(Drop)]
pub struct Verified {
    /// A line for each document, and behind it one for each former document.
    pub text: String,
    /// Whether each former document is what it was.
    pub is_chain_whole: bool,
}

// The word for whether a key is open.
fn key_word(holder: &Holder) -> &'static str {
    if holder.is_open { "open" } else { "closed" }
}

// A line for each of these keys, behind line ends: what it is, its number, its person, and whether it is open.
fn put_keys(
    alloc: Global,
    kind: &str,
    keys: &BTreeMap<u16, Holder>,
    text: &mut String,
) -> Result<(), AllocError> {
    for (number, holder) in keys {
        let person = holder.person;
        let state = key_word(holder);
        let line = format!(in alloc; "\n{kind} {number} {person} {state}")?;
        text.push_str(line.as_str())?;
    }
    Ok(())
}

// The line of a document, behind a line end.
fn document_line<'a, D: HouseDocument<'a>>(
    alloc: Global,
    document: &D,
) -> Result<String, AllocError> {
    let name = document.name();
    let digits = encode(alloc, document.identity().as_slice())?;
    let state = document.state_word();
    format!(in alloc; "\ndocument {name} {digits} {state}")
}

impl<'a, D> House<'a, D> {
    // `keys`, with a line for each invitation and each device, with its number and its person.
    pub(super) fn keys(&self) -> Result<String, AllocError> {
        let mut text = String::from_str(self.alloc, "keys")?;
        let people = self.people();
        put_keys(self.alloc, "invitation", people.invitations(), &mut text)?;
        put_keys(self.alloc, "device", people.devices(), &mut text)?;
        Ok(text)
    }
}

impl<'a, D: HouseDocument<'a>> House<'a, D> {
    // Opens a document, tells what it has, and closes it. Nothing is saved.
    fn verify_document(&mut self, number: usize) -> Result<String, HouseFault> {
        let _ = self.open_document(number);
        let Some(document) = self.documents.get_mut(number) else {
            return Err(HouseFault::NoDocument);
        };
        let name = document.name();
        let found = document.found(self.alloc)?;
        let line = format!(in self.alloc; "{name}: {found}\n")?;
        document.shut();
        Ok(line)
    }

    // Looks at these former documents of the one of a name, and says whether each is what it was.
    fn verify_row(
        &self,
        name: &str,
        formers: &[Former],
        text: &mut String,
    ) -> Result<bool, HouseFault> {
        let mut is_whole = true;
        for former in formers {
            let folder = self.folder.as_str();
            let is_same = put_former_line::<D>(self.rt, folder, name, former, text)?;
            is_whole = is_whole && is_same;
        }
        Ok(is_whole)
    }

    // Looks at the former documents of the one of a name, and says whether each is what it was.
    fn verify_formers(&self, name: &str, text: &mut String) -> Result<bool, HouseFault> {
        match read_formers(self.rt, self.folder.as_str(), name)? {
            FormersFile::Row(row) => self.verify_row(name, &row, text),
            FormersFile::Damaged => {
                let line = format!(in self.alloc; "{name} before: damaged\n")?;
                text.push_str(line.as_str())?;
                Ok(false)
            }
        }
    }

    // Looks at the document of a number, and at its former ones.
    fn verify_all_of(&mut self, number: usize, found: &mut Verified) -> Result<(), HouseFault> {
        let line = self.verify_document(number)?;
        found.text.push_str(line.as_str())?;
        let Some(document) = self.documents.get(number) else {
            return Ok(());
        };
        let is_whole = self.verify_formers(document.name(), &mut found.text)?;
        found.is_chain_whole = found.is_chain_whole && is_whole;
        Ok(())
    }

    /// Opens each document and closes it again, and tells what was found, a line each: `NAME: STATE, COUNT messages`, and where
    /// these aren't what was sealed, how many were, and that a copy is to be restored. Behind it stands a line for each former document,
    /// `NAME before IDENTITY: STATE, COUNT messages`. Nothing is saved, and nothing sealed.
    pub fn verify(&mut self) -> Result<Verified, HouseFault> {
        let mut found = Verified {
            text: String::new(self.alloc),
            is_chain_whole: true,
        };
        for number in 0..self.documents.len() {
            self.verify_all_of(number, &mut found)?;
        }
        Ok(found)
    }

    /// `documents`, with a line `document NAME IDENTITY STATE` for each.
    pub fn documents_text(&self) -> Result<String, AllocError> {
        let mut text = String::from_str(self.alloc, "documents")?;
        for document in self.documents() {
            if !document.is_gone() {
                let line = document_line(self.alloc, document)?;
                text.push_str(line.as_str())?;
            }
        }
        Ok(text)
    }
}
