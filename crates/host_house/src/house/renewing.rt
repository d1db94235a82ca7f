//! Orders that renew documents of a house.
ghost use Rattle.std.specs.Prelude.{IfOk, OnErr};
ghost use Rattle.host_house.specs.Household.{TouchesDocument, StaysOpen};
ghost use Rattle.host_house.specs.Links.{EndsLinksTo};

use super::House;
use crate::done::Consequence;
use crate::fault::HouseFault;
use crate::renewal::Renewed;
use crate::renewing::renew_at;
use host_interface::HouseDocument;
use std::alloc::AllocError;

impl<'a, D: HouseDocument<'a>> House<'a, D> {
    // What is told of a document that is renewed, and of one that is so from the next start on.
    fn renewal_texts(&self, number: usize) -> Result<(String, String), AllocError> {
        let name = match self.documents.get(number) {
            Some(document) => document.name(),
            None => "",
        };
        let text = format!(in self.alloc; "renewed {name}")?;
        let later = format!(in self.alloc; "renewed {name} at the next start")?;
        Ok((text, later))
    }

    // Renews the document of a number.
    pub(super) fn renew_number(
        &mut self,
        number: usize,
    ) -> Result<(String, Consequence), HouseFault>
        ensures others { TouchesDocument number self.old self.new }
        ensures open { OnErr result (StaysOpen D.past number self.old.documents self.new.documents) }
        ensures links { IfOk result (λ told. EndsLinksTo number told.1) }
    {
        let (text, later) = self.renewal_texts(number)?;
        match renew_at(self.rt, self.folder.as_str(), &mut self.documents, number)? {
            Renewed::InPlace => Ok((text, Consequence::Renewed(number))),
            Renewed::AtNextStart => Ok((later, Consequence::Moved(number))),
        }
    }

    // Renews the document of a name.
    pub(super) fn renew_named(&mut self, name: &str) -> Result<(String, Consequence), HouseFault> {
        match self.find(name) {
            Some(number) => self.renew_number(number),
            None => Err(HouseFault::NoDocument),
        }
    }
}
