//! Orders about documents of a house.
ghost use Rattle.std.specs.Prelude.{OnErr};
ghost use Rattle.host_house.specs.Household.{StaysOpen};

use super::House;
use crate::done::Consequence;
use crate::fault::HouseFault;
use crate::folder::{archive_folder, move_folder};
use crate::renewal::refuse_awaited;
use crate::shelf::save_at;
use host_interface::HouseDocument;
use host_link::{Ending, HouseOrder};
use std::alloc::AllocError;

/// An answer with a consequence.
pub(super) fn with(
    text: Result<String, HouseFault>,
    consequence: Consequence,
) -> Result<(String, Consequence), HouseFault> {
    match text {
        Ok(text) => Ok((text, consequence)),
        Err(fault) => Err(fault),
    }
}

// A text that answers, of which nothing comes.
fn told(text: Result<String, AllocError>) -> Result<(String, Consequence), HouseFault> {
    match text {
        Ok(text) => Ok((text, Consequence::Nothing)),
        Err(_) => Err(HouseFault::NoMemory),
    }
}

impl<'a, D: HouseDocument<'a>> House<'a, D> {
    // Makes a document of a name that none has.
    fn make_named(&mut self, name: &str) -> Result<String, HouseFault> {
        if self.find(name).is_some() {
            return Err(HouseFault::NoDocument);
        }
        let text = format!(in self.alloc; "made {name}")?;
        self.make_document(name)?;
        Ok(text)
    }

    // Fails where the renewal of a document waits for its place.
    fn refuse_renewed(&self, number: usize) -> Result<(), HouseFault> {
        if let Some(document) = self.documents.get(number) {
            refuse_awaited(self.rt, self.folder.as_str(), document.name())?;
        }
        Ok(())
    }

    // Saves and seals a document, so that its folder can be moved. It stays open until that has moved.
    fn settle_document(&mut self, number: usize) -> Result<(), HouseFault>
        ensures { StaysOpen D.past number self.old.documents self.new.documents }
    {
        self.refuse_renewed(number)?;
        match save_at(self.rt, self.folder.as_str(), &mut self.documents, number) {
            Ok(()) => Ok(()),
            Err(Ending::NoDocument) => Err(HouseFault::NoDocument),
            Err(_) => Err(HouseFault::Failed),
        }
    }

    // Gives the folder of a document another name. The document stays open where that fails.
    fn move_settled(&mut self, number: usize, to: String) -> Result<(), HouseFault>
        ensures { OnErr result (StaysOpen D.past number self.old.documents self.new.documents) }
    {
        let Some(document) = self.documents.get_mut(number) else {
            return Err(HouseFault::NoDocument);
        };
        move_folder(self.rt, self.folder.as_str(), document.name(), to.as_str())?;
        document.shut();
        document.rename(to);
        Ok(())
    }

    // Gives a document another name, which no other has.
    fn move_named(&mut self, number: usize, to: &str) -> Result<String, HouseFault>
        ensures { OnErr result (StaysOpen D.past number self.old.documents self.new.documents) }
    {
        if self.find(to).is_some() {
            return Err(HouseFault::NoDocument);
        }
        let text = format!(in self.alloc; "moved {to}")?;
        let owned = String::from_str(self.alloc, to)?;
        self.settle_document(number)?;
        self.move_settled(number, owned)?;
        Ok(text)
    }

    // Puts a document away. It stays open where its folder can't be moved.
    fn archive_settled(&mut self, number: usize) -> Result<(), HouseFault>
        ensures { OnErr result (StaysOpen D.past number self.old.documents self.new.documents) }
    {
        let Some(document) = self.documents.get_mut(number) else {
            return Err(HouseFault::NoDocument);
        };
        let identity = document.identity();
        archive_folder(self.rt, self.folder.as_str(), document.name(), &identity)?;
        document.put_away();
        Ok(())
    }

    // Puts a document away.
    fn archive_named(&mut self, number: usize) -> Result<String, HouseFault>
        ensures { OnErr result (StaysOpen D.past number self.old.documents self.new.documents) }
    {
        let text = String::from_str(self.alloc, "archived")?;
        self.settle_document(number)?;
        self.archive_settled(number)?;
        Ok(text)
    }

    // Gives the document of a name another one.
    fn move_from(&mut self, from: &str, to: &str) -> Result<(String, Consequence), HouseFault> {
        let Some(number) = self.find(from) else {
            return Err(HouseFault::NoDocument);
        };
        let text = self.move_named(number, to)?;
        Ok((text, Consequence::Moved(number)))
    }

    // Puts the document of a name away.
    fn archive_from(&mut self, name: &str) -> Result<(String, Consequence), HouseFault> {
        let Some(number) = self.find(name) else {
            return Err(HouseFault::NoDocument);
        };
        let text = self.archive_named(number)?;
        Ok((text, Consequence::Moved(number)))
    }

    // Does an order about documents, or tells of them or of the keys.
    pub(super) fn tend_documents(
        &mut self,
        order: HouseOrder<'_>,
    ) -> Result<(String, Consequence), HouseFault> {
        match order {
            HouseOrder::Make { name } => with(self.make_named(name), Consequence::Documents),
            HouseOrder::Move { from, to } => self.move_from(from, to),
            HouseOrder::Archive { name } => self.archive_from(name),
            HouseOrder::Renew { name } => self.renew_named(name),
            HouseOrder::Documents => told(self.documents_text()),
            HouseOrder::Keys => told(self.keys()),
            _ => Err(HouseFault::NoDocument),
        }
    }
}
