//! Links of devices that come to a document.
ghost use Rattle.std.specs.Prelude.{IfOk};
ghost use Rattle.host_interface.specs.Admitted.{IsAdmitted};

use super::Opened;
use crate::endings::ending_of;
use host_core::{Hello, LinkId, Role};
use host_link::{Claim, Ending, Identity};
use host_people::People;
use policy_book::AdminOp;

impl<'a> Opened<'a> {
    // Has a group of a person.
    fn have_group(&mut self, person: u16) -> Result<(), Ending> {
        if self.rules.group(person) {
            return Ok(());
        }
        match self.rule(AdminOp::AddGroup(person)) {
            Ok(_) => Ok(()),
            Err(why) => Err(why),
        }
    }

    // Makes a site a member of its person's group, where it is none.
    fn join_group(&mut self, site: u16, person: u16) -> Result<(), Ending> {
        self.have_group(person)?;
        let member = AdminOp::AddMember {
            group: person,
            user: site,
        };
        match self.rule(member) {
            Ok(_) => Ok(()),
            Err(why) => Err(why),
        }
    }

    // Saves what was made of a user.
    fn save_user(&mut self) -> Result<(), Ending> {
        match self.commit() {
            Ok(_) => Ok(()),
            Err(why) => Err(why),
        }
    }

    // Makes a user of a site, and saves that.
    fn add_user(&mut self, site: u16) -> Result<(), Ending> {
        match self.rule(AdminOp::AddUser(site)) {
            Ok(true) => self.save_user(),
            Ok(false) => Err(Ending::TooManyDevices),
            Err(why) => Err(why),
        }
    }

    // Makes a user of a site that is none, in its person's group, and saves that. It is a user at last, so that what was
    // broken off is made up for at its next link.
    fn make_user(&mut self, site: u16, person: u16) -> Result<(), Ending> {
        if !self.rules.allows(&AdminOp::AddUser(site)) {
            return Err(Ending::TooManyDevices);
        }
        self.join_group(site, person)?;
        self.add_user(site)
    }

    // Has a user of a site, unless it is a reader's.
    fn have_user(&mut self, site: u16, person: u16, role: Role) -> Result<(), Ending> {
        if role == Role::Reader || self.rules.user(site) {
            Ok(())
        } else {
            self.make_user(site, person)
        }
    }

    // Opens a link of a device that the host was told of.
    fn open_link(&mut self, identity: Identity, claim: &Claim) -> Result<LinkId, Ending>
        ensures { IfOk result (λ link. IsAdmitted claim.now link self.new) }
    {
        let hello = Hello {
            document: identity,
            site: claim.site,
            secret: claim.secret,
            from: claim.from,
        };
        match self.host.admit(&hello) {
            Ok(link) => Ok(link),
            Err(refusal) => Err(ending_of(refusal)),
        }
    }

    /// Admits a link of a device of a person, by what it says of itself. A writer's site becomes a user.
    pub(crate) fn admit(
        &mut self,
        people: &People,
        person: u16,
        role: Role,
        identity: Identity,
        claim: &Claim,
    ) -> Result<LinkId, Ending>
        ensures { IfOk result (λ link. IsAdmitted claim.now link self.new) }
    {
        if claim.document.unwrap_or(identity) != identity {
            return Err(Ending::OtherDocument);
        }
        self.meet(people)?;
        self.have_user(claim.site, person, role)?;
        self.open_link(identity, claim)
    }
}
