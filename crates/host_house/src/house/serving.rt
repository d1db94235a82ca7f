//! Devices that show secrets, and their links to documents.
ghost use Rattle.std.specs.Prelude.{◌≡◌, ℕ, None, OnOk, IfOk};
ghost use Rattle.host_people.specs.Holders.{role_of, device_holder};
ghost use Rattle.host_house.specs.Household.{holder_by, MakesInvitation, MakesDevice, HoldsKey, TouchesDocument, IsClosedAtAll};

use super::House;
use crate::fault::HouseFault;
use crate::keys::{digest_of, is_same, new_secret};
use crate::shelf::{Entrant, admit_at, close_in_all, give_up_at, open_at, seal_all, shut_at};
use hex::encode;
use host_core::{LinkId, Role};
use host_interface::{HouseDocument, OpenFault};
use host_link::{Claim, Ending};
use host_people::{BookFault, Change, Digest, Holder, Secret};
use std::alloc::AllocError;

/// A link of a device that was admitted to a document.
#[derive(Clone, Copy, Debug, PartialEq, Eq)]
pub struct Admitted {
    pub link: LinkId,
    pub site: u16,
    pub person: u16,
    pub role: Role,
}

// Why a device isn't made whose change isn't kept.
fn ending_by(fault: HouseFault) -> Ending {
    match fault {
        HouseFault::NoMemory => Ending::NoMemory,
        HouseFault::Book(BookFault::NoMemory) => Ending::NoMemory,
        _ => Ending::DiskFault,
    }
}

impl<'a, D> House<'a, D> {
    // The number and the address of an invitation with this secret, behind these words.
    fn invitation_text(
        &self,
        words: &str,
        invitation: u16,
        secret: &Secret,
    ) -> Result<String, AllocError> {
        let digits = encode(self.alloc, secret.as_slice())?;
        let address = self.address.as_str();
        format!(in self.alloc; "{words}{invitation} {address}#{digits}")
    }

    // Makes an invitation of a person, and gives its number and its address behind these words.
    pub(super) fn invite_by(&mut self, words: &str, person: u16) -> Result<String, HouseFault>
        ensures made { OnOk result (MakesInvitation person self.old.changes self.new.changes) }
        ensures documents { self.new.documents ≡ self.old.documents }
    {
        let Some(invitation) = self.people().next_invitation() else {
            return Err(HouseFault::Book(BookFault::Full));
        };
        let secret = new_secret(self.rt)?;
        let digest = digest_of(&secret);
        let text = self.invitation_text(words, invitation, &secret)?;
        self.add(Change::Invited {
            invitation,
            person,
            digest,
        })?;
        Ok(text)
    }

    /// Makes an invitation of a person, and gives its number and its address. The secret stands behind `#`, so a browser tells
    /// it to no server.
    pub fn invite(&mut self, person: u16) -> Result<String, HouseFault>
        ensures made { OnOk result (MakesInvitation person self.old.changes self.new.changes) }
        ensures documents { self.new.documents ≡ self.old.documents }
    {
        self.invite_by("", person)
    }

    // The person whose open invitation has a secret of this digest. All of them are looked at.
    fn invited(&self, digest: &Digest) -> Option<u16> {
        let mut person = None;
        for (_, holder) in self.people().invitations() {
            if is_same(&holder.digest, digest) && holder.is_open {
                person = Some(holder.person);
            }
        }
        person
    }

    // Keeps a new device of a person, with this secret.
    fn keep_device(&mut self, site: u16, person: u16, own: Secret) -> Result<(u16, Secret), Ending>
        ensures site { IfOk result (λ made. made.0 ≡ site) }
        ensures made { IfOk result (λ made. MakesDevice person made.0 made.1 self.old.changes self.new.changes) }
        ensures documents { self.new.documents ≡ self.old.documents }
    {
        let digest = digest_of(&own);
        let joined = Change::Joined {
            site,
            person,
            digest,
        };
        match self.add(joined) {
            Ok(()) => Ok((site, own)),
            Err(fault) => Err(ending_by(fault)),
        }
    }

    // Makes a device of a person, with a secret of its own.
    fn make_device(&mut self, person: u16) -> Result<(u16, Secret), Ending>
        ensures made { IfOk result (λ made. MakesDevice person made.0 made.1 self.old.changes self.new.changes) }
        ensures new { IfOk result (λ made. device_holder made.0 self.old.changes ≡ None) }
        ensures documents { self.new.documents ≡ self.old.documents }
    {
        let Some(site) = self.people().next_site() else {
            return Err(Ending::TooManyDevices);
        };
        let Ok(own) = new_secret(self.rt) else {
            return Err(Ending::DiskFault);
        };
        self.keep_device(site, person, own)
    }

    /// Makes a device of who shows the secret of an open invitation: its site and its own secret. Both are on the disk then.
    pub fn join(&mut self, secret: &Secret) -> Result<(u16, Secret), Ending>
        ensures made { IfOk result (λ made. (person : ℕ) × MakesDevice person made.0 made.1 self.old.changes self.new.changes) }

        // No device had the site before.
        ensures new { IfOk result (λ made. device_holder made.0 self.old.changes ≡ None) }
        ensures documents { self.new.documents ≡ self.old.documents }
    {
        match self.invited(&digest_of(secret)) {
            Some(person) => self.make_device(person),
            None => Err(Ending::WrongSecret),
        }
    }

    /// Who has a site, if the secret is his device's and it is open.
    pub fn holder(&self, site: u16, secret: &Secret) -> Option<Holder>
        ensures { result ≡ holder_by secret.now (device_holder site self.now.changes) }
    {
        let holder = self.people().device(site)?;
        if is_same(&holder.digest, &digest_of(secret)) && holder.is_open {
            Some(holder)
        } else {
            None
        }
    }

    /// The role of a person; none where there is no such person.
    pub fn role(&self, person: u16) -> Option<Role>
        ensures { result ≡ role_of person self.now.changes }
    {
        self.people().role(person)
    }
}

impl<'a, D: HouseDocument<'a>> House<'a, D> {
    /// Opens a document, unless it is open, if what is saved of it begins with what was sealed.
    pub fn open_document(&mut self, number: usize) -> Result<(), OpenFault>
        ensures { TouchesDocument number self.old self.new }
    {
        open_at(self.rt, self.folder.as_str(), &mut self.documents, number)
    }

    // Admits a link of who holds a device to a document.
    fn admit_holder(
        &mut self,
        number: usize,
        holder: Holder,
        claim: &Claim,
    ) -> Result<Admitted, Ending>
        ensures person { IfOk result (λ admitted. admitted.person ≡ holder.person) }
        ensures others { TouchesDocument number self.old self.new }
    {
        let person = holder.person;
        let role = self.role(person).unwrap_or(Role::Reader);
        let entrant = Entrant {
            people: self.book.people(),
            person,
            role,
            claim,
        };
        let admitted = admit_at(
            self.rt,
            self.folder.as_str(),
            &mut self.documents,
            number,
            &entrant,
        );
        match admitted {
            Ok(link) => Ok(Admitted {
                link,
                site: claim.site,
                person,
                role,
            }),
            Err(why) => Err(why),
        }
    }

    /// Admits a link to a document, which is opened. Where the link knows another one, it is refused.
    pub fn admit(&mut self, number: usize, claim: &Claim) -> Result<Admitted, Ending>
        ensures key { IfOk result (λ admitted. HoldsKey admitted.person claim.now.site claim.now.secret self.old.changes) }
        ensures others { TouchesDocument number self.old self.new }
    {
        match self.holder(claim.site, &claim.secret) {
            Some(holder) => self.admit_holder(number, holder, claim),
            None => Err(Ending::WrongSecret),
        }
    }

    /// Seals and closes a document where nobody is, if it can be saved.
    pub fn shut(&mut self, number: usize)
        ensures { TouchesDocument number self.old self.new }
    {
        let _ = shut_at(self.rt, self.folder.as_str(), &mut self.documents, number);
    }

    /// Seals what is saved of the documents that are open, where the last seals lack some of it. Takes the time of what is new
    /// since then, and writes a file for each.
    pub fn seal(&mut self)
        ensures { self.new ≡ self.old }
    {
        seal_all(self.rt, self.folder.as_str(), &mut self.documents);
    }

    /// Gives a document up that can't be saved any more.
    pub fn give_up(&mut self, number: usize, why: Ending)
        ensures { TouchesDocument number self.old self.new }
    {
        let fault = match why {
            Ending::DiskFault => OpenFault::DiskFault,
            _ => OpenFault::Damaged,
        };
        give_up_at(&mut self.documents, number, fault);
    }

    // Closes a device in the documents that are open.
    pub(super) fn close_in_documents(&mut self, site: u16)
        ensures closed { IsClosedAtAll D.past site self.new.documents }
        ensures changes { self.new.changes ≡ self.old.changes }
    {
        close_in_all(&mut self.documents, site);
    }
}
