//! Orders of owners.
ghost use Rattle.std.specs.Prelude.{◌≡◌, ◌∷◌, OnOk};
ghost use Rattle.host_house.specs.Household.{IsClosedEverywhere};

use super::House;
use super::making::with;
use crate::done::{Consequence, Done};
use crate::fault::HouseFault;
use host_core::{LinkId, Role};
use host_interface::{HouseDocument, RowFault};
use host_link::{HouseOrder, read_house_order};
use host_people::{BookFault, Change};
use std::alloc::{AllocError, Global};
use std::str;

// The lines of answers without the last line end.
fn lines_of(answers: &[u8]) -> &str {
    match str::from_utf8(answers) {
        Ok(lines) => lines.trim_end(),
        Err(_) => "",
    }
}

// Makes a row of orders to a document, or asks what one would do.
fn tend_document<'a, D: HouseDocument<'a>>(
    alloc: Global,
    document: &mut D,
    link: LinkId,
    lines: &str,
) -> Result<Vec<u8>, RowFault> {
    match lines.strip_prefix("would ") {
        Some(line) => document.would(alloc, line),
        None => document.order(alloc, link, lines),
    }
}

// What answers a row of orders.
fn row_done(
    alloc: Global,
    number: u32,
    outcome: Result<Vec<u8>, RowFault>,
) -> Result<Done, AllocError> {
    match outcome {
        Ok(answers) => Done::answered(alloc, number, lines_of(&answers), Consequence::Nothing),
        Err(fault) => {
            let words = fault.words(alloc)?;
            Done::refused(alloc, number, words.as_str())
        }
    }
}

// What answers an order about people or documents.
fn order_done(
    alloc: Global,
    number: u32,
    outcome: Result<(String, Consequence), HouseFault>,
) -> Result<Done, AllocError> {
    match outcome {
        Ok((text, consequence)) => Done::answered(alloc, number, text.as_str(), consequence),
        Err(fault) => Done::refused(alloc, number, fault.words()),
    }
}

impl<'a, D> House<'a, D> {
    // Makes a person, and gives its number.
    fn make_person(&mut self, role: Role, name: &str) -> Result<String, HouseFault> {
        let Some(person) = self.people().next_person() else {
            return Err(HouseFault::Book(BookFault::Full));
        };
        let text = format!(in self.alloc; "person {person}")?;
        let name = String::from_str(self.alloc, name)?;
        self.add(Change::Made { person, role, name })?;
        Ok(text)
    }

    // Makes an invitation of a person who is there.
    fn make_invitation(&mut self, person: u16) -> Result<String, HouseFault> {
        if self.role(person).is_none() {
            return Err(HouseFault::Nobody);
        }
        self.invite_by("invitation ", person)
    }

    // Keeps a change, and gives the word for it.
    fn change(&mut self, change: Change, word: &str) -> Result<String, HouseFault>
        ensures { OnOk result (self.new.changes ≡ change ∷ self.old.changes) }
    {
        match String::from_str(self.alloc, word) {
            Ok(text) => {
                self.add(change)?;
                Ok(text)
            }
            Err(_) => {
                drop(change);
                Err(HouseFault::NoMemory)
            }
        }
    }

    // Keeps a change of a person who is there.
    fn change_person(&mut self, person: u16, change: Change) -> Result<String, HouseFault> {
        if self.role(person).is_none() {
            drop(change);
            return Err(HouseFault::Nobody);
        }
        self.change(change, "changed")
    }

    // Gives a person another role.
    fn give_role(&mut self, person: u16, role: Role) -> Result<String, HouseFault> {
        self.change_person(person, Change::GivenRole { person, role })
    }

    // Gives a person another name.
    fn rename_person(&mut self, person: u16, name: &str) -> Result<String, HouseFault> {
        let name = String::from_str(self.alloc, name)?;
        self.change_person(person, Change::Renamed { person, name })
    }

    // Closes an invitation that is there.
    fn close_invitation(&mut self, invitation: u16) -> Result<String, HouseFault> {
        if self.people().invitation(invitation).is_none() {
            return Err(HouseFault::Nobody);
        }
        self.change(Change::Uninvited { invitation }, "closed")
    }

    /// What answers a person who orders and isn't an owner.
    pub fn refuse_order(&self, number: u32) -> Result<Done, AllocError> {
        Done::refused(self.alloc, number, "not an owner")
    }
}

impl<'a, D: HouseDocument<'a>> House<'a, D> {
    // Closes a device that is there, also in the documents that are open. So it is closed everywhere before that is answered.
    fn close_device(&mut self, site: u16) -> Result<String, HouseFault>
        ensures { OnOk result (IsClosedEverywhere D.past site self.new) }
    {
        if self.people().device(site).is_none() {
            return Err(HouseFault::Nobody);
        }
        let text = self.change(Change::Left { site }, "closed")?;
        self.close_in_documents(site);
        Ok(text)
    }

    // Does an order about people, or about documents.
    fn tend_house(&mut self, order: HouseOrder<'_>) -> Result<(String, Consequence), HouseFault> {
        match order {
            HouseOrder::Person { role, name } => {
                with(self.make_person(role, name), Consequence::People)
            }
            HouseOrder::Invite { person } => {
                with(self.make_invitation(person), Consequence::Nothing)
            }
            HouseOrder::SetRole { person, role } => {
                with(self.give_role(person, role), Consequence::Role(person))
            }
            HouseOrder::Rename { person, name } => {
                with(self.rename_person(person, name), Consequence::People)
            }
            HouseOrder::CloseInvitation { invitation } => {
                with(self.close_invitation(invitation), Consequence::Nothing)
            }
            HouseOrder::CloseDevice { site } => {
                with(self.close_device(site), Consequence::Closed(site))
            }
            other => self.tend_documents(other),
        }
    }

    // Makes a row of orders to a document.
    fn tend_text(
        &mut self,
        number: u32,
        document: usize,
        link: LinkId,
        lines: &str,
    ) -> Result<Done, AllocError> {
        let alloc = self.alloc;
        match self.documents.get_mut(document) {
            Some(document) => {
                let outcome = tend_document(alloc, document, link, lines);
                row_done(alloc, number, outcome)
            }
            None => Done::refused(alloc, number, "no such document"),
        }
    }

    // Renews the document that a link leads to, if it leads to one.
    fn renew_here(
        &mut self,
        number: u32,
        place: Option<(usize, LinkId)>,
    ) -> Result<Done, AllocError> {
        match place {
            Some((document, _)) => order_done(self.alloc, number, self.renew_number(document)),
            None => Done::refused(self.alloc, number, "bad line 1"),
        }
    }

    // Does an order about people or documents, and answers it.
    fn house_done(
        &mut self,
        number: u32,
        place: Option<(usize, LinkId)>,
        order: HouseOrder<'_>,
    ) -> Result<Done, AllocError> {
        match order {
            HouseOrder::RenewHere => self.renew_here(number, place),
            other => order_done(self.alloc, number, self.tend_house(other)),
        }
    }

    /// Does what an owner orders under a number, on a link of a document if it is one: the document's number, and the link.
    /// A row is done whole or not at all.
    pub fn tend(
        &mut self,
        number: u32,
        place: Option<(usize, LinkId)>,
        lines: &str,
    ) -> Result<Done, AllocError> {
        if let Some(order) = read_house_order(lines) {
            return self.house_done(number, place, order);
        }
        match place {
            Some((document, link)) => self.tend_text(number, document, link, lines),
            None => Done::refused(self.alloc, number, "bad line 1"),
        }
    }
}
