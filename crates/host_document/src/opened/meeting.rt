//! Telling a host of people.

use super::Opened;
use crate::endings::ending_of;
use host_core::{Device, Role};
use host_link::Ending;
use host_people::{Holder, People};

// How many numbers of a kind there may be: from 0, or from 1 and none at 0.
const MOST_NUMBERS: u32 = 65_536;

// The number behind the last one that was given, in front of which is the next one.
fn end_of(next: Option<u16>) -> u32 {
    match next {
        Some(number) => u32::from(number),
        None => MOST_NUMBERS,
    }
}

// Who holds a site; nobody where it was never given.
fn holder_at(people: &People, number: u32) -> Holder {
    let nobody = Holder {
        person: 0,
        digest: [0; 32],
        is_open: false,
    };
    match u16::try_from(number) {
        Ok(site) => people.device(site).unwrap_or(nobody),
        Err(_) => nobody,
    }
}

impl<'a> Opened<'a> {
    // Tells the host of a person.
    fn tell_person(&mut self) -> Result<(), Ending> {
        match self.host.make_person() {
            Ok(person) => {
                self.next_person = u32::from(person) + 1;
                Ok(())
            }
            Err(refusal) => Err(ending_of(refusal)),
        }
    }

    // Tells the host of the persons of whom it wasn't told.
    fn tell_persons(&mut self, people: &People) -> Result<(), Ending> {
        for _ in self.next_person..end_of(people.next_person()) {
            self.tell_person()?;
        }
        Ok(())
    }

    // Tells the host of a device, which gives it the next site.
    fn tell_device(&mut self, people: &People, holder: Holder) -> Result<(), Ending> {
        let person = holder.person;
        let role = people.role(person).unwrap_or(Role::Reader);
        let digest = holder.digest;
        let device = Device {
            person,
            role,
            digest,
        };
        match self.host.make_device(device) {
            Ok(site) => {
                self.next_site = u32::from(site) + 1;
                if !holder.is_open {
                    self.close_device(site);
                }
                Ok(())
            }
            Err(refusal) => Err(ending_of(refusal)),
        }
    }

    /// Tells the host of people of whom it wasn't told. Persons and sites have the same numbers in each document.
    pub(super) fn meet(&mut self, people: &People) -> Result<(), Ending> {
        self.tell_persons(people)?;
        for number in self.next_site..end_of(people.next_site()) {
            self.tell_device(people, holder_at(people, number))?;
        }
        Ok(())
    }
}
