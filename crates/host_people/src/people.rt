//! The people of a host.
ghost use Rattle.std.specs.Prelude.{◌≡◌, List, [], ◌∷◌, None, true, IfSome, OnOk, OnErr};
ghost use Rattle.std.specs.Ordering.{nat_cmp};
ghost use Rattle.std.specs.BTreeMap.{get};
ghost use Rattle.host_people.specs.declared.change.Change.{Change};
ghost use Rattle.host_people.specs.Holders.{role_of, invitation_holder, device_holder, AreOfChanges};

use crate::change::{Change, Digest, copy_of};
use element_name::NoMemory;
use ghost_list::GhostList;
use host_core::Role;
use std::alloc::Global;
use std::collections::BTreeMap;
use std::marker::Model;

/// Who holds a secret: a person, by an invitation or a device. What was closed is known on, so that its number isn't given
/// again.
#[derive(Clone, Copy, Debug, PartialEq, Eq)]
pub struct Holder {
    pub person: u16,
    pub digest: Digest,
    pub is_open: bool,
}

/// The people of a host. Contracts see the changes that made them, the newest first.
#[derive(Drop)]
pub struct People {
    roles: BTreeMap<u16, Role>,
    names: BTreeMap<u16, String>,
    invitations: BTreeMap<u16, Holder>,
    devices: BTreeMap<u16, Holder>,
    past: GhostList<Change>,
}

impl Model for People {
    ghost Value = { List Change };

    ghost view = { λ p. p.past.items };

    ghost invariant = { λ p. AreOfChanges p.past.items p.roles p.invitations p.devices };
}

// The number behind the greatest of these, from 1; none where there is none left.
fn number_behind<T>(known: &BTreeMap<u16, T>) -> Option<u16>
    ensures { IfSome result (λ number. get nat_cmp known.now number ≡ None) }
{
    match known.last_key_value() {
        Some((last, _)) => last.checked_add(1),
        None => Some(1),
    }
}

// Who holds a secret that was just made.
fn new_holder(person: u16, digest: Digest) -> Holder
    ensures { result ≡ record { person = person; digest = digest; is_open = true } }
{
    Holder {
        person,
        digest,
        is_open: true,
    }
}

impl People {
    /// Nobody. It takes no memory.
    pub fn new(alloc: Global) -> People
        ensures { result ≡ [] }
    {
        People {
            roles: BTreeMap::new(alloc),
            names: BTreeMap::new(alloc),
            invitations: BTreeMap::new(alloc),
            devices: BTreeMap::new(alloc),
            past: GhostList::new(),
        }
    }

    /// The role of a person; none where there is no such person.
    pub fn role(&self, person: u16) -> Option<Role>
        ensures { result ≡ role_of person self.now }
    {
        self.roles.get(&person).copied()
    }

    /// All persons' roles, by their numbers.
    pub fn roles(&self) -> &BTreeMap<u16, Role> {
        &self.roles
    }

    /// The name of a person; empty where there is no such person.
    pub fn name(&self, person: u16) -> &str {
        match self.names.get(&person) {
            Some(name) => name.as_str(),
            None => "",
        }
    }

    /// Who holds an invitation; none where it was never made.
    pub fn invitation(&self, invitation: u16) -> Option<Holder>
        ensures { result ≡ invitation_holder invitation self.now }
    {
        self.invitations.get(&invitation).copied()
    }

    /// All invitations, by their numbers.
    pub fn invitations(&self) -> &BTreeMap<u16, Holder> {
        &self.invitations
    }

    /// Who holds a device; none where no device of this site was made.
    pub fn device(&self, site: u16) -> Option<Holder>
        ensures { result ≡ device_holder site self.now }
    {
        self.devices.get(&site).copied()
    }

    /// All devices, by their sites.
    pub fn devices(&self) -> &BTreeMap<u16, Holder> {
        &self.devices
    }

    /// A number for a new person, behind all that were given; none where there is none left.
    pub fn next_person(&self) -> Option<u16>
        ensures { IfSome result (λ person. role_of person self.now ≡ None) }
    {
        number_behind(&self.roles)
    }

    /// A number for a new invitation.
    pub fn next_invitation(&self) -> Option<u16>
        ensures { IfSome result (λ invitation. invitation_holder invitation self.now ≡ None) }
    {
        number_behind(&self.invitations)
    }

    /// A site for a new device.
    pub fn next_site(&self) -> Option<u16>
        ensures { IfSome result (λ site. device_holder site self.now ≡ None) }
    {
        number_behind(&self.devices)
    }

    // A person is made.
    fn made(&mut self, person: u16, role: Role, name: &String) -> Result<(), NoMemory>
        ensures ok { OnOk result (self.new ≡ Change.Made person role name.now ∷ self.old) }
        ensures err { OnErr result (self.new ≡ self.old) }
    {
        self.names.insert(person, copy_of(name)?)?;
        self.roles.insert(person, role)?;
        self.past = self.past.changed(&(person, role, name));
        Ok(())
    }

    // A person is given another role.
    fn given_role(&mut self, person: u16, role: Role)
        ensures { self.new ≡ Change.GivenRole person role ∷ self.old }
    {
        if let Some(known) = self.roles.get_mut(&person) {
            *known = role;
        }
        self.past = self.past.changed(&(person, role));
    }

    // A person is given another name.
    fn renamed(&mut self, person: u16, name: &String) -> Result<(), NoMemory>
        ensures ok { OnOk result (self.new ≡ Change.Renamed person name.now ∷ self.old) }
        ensures err { OnErr result (self.new ≡ self.old) }
    {
        self.names.insert(person, copy_of(name)?)?;
        self.past = self.past.changed(&(person, name));
        Ok(())
    }

    // An invitation is made.
    fn invited(&mut self, invitation: u16, person: u16, digest: Digest) -> Result<(), NoMemory>
        ensures ok { OnOk result (self.new ≡ Change.Invited invitation person digest ∷ self.old) }
        ensures err { OnErr result (self.new ≡ self.old) }
    {
        self.invitations
            .insert(invitation, new_holder(person, digest))?;
        self.past = self.past.changed(&(invitation, person, digest));
        Ok(())
    }

    // An invitation is closed.
    fn uninvited(&mut self, invitation: u16)
        ensures { self.new ≡ Change.Uninvited invitation ∷ self.old }
    {
        if let Some(holder) = self.invitations.get_mut(&invitation) {
            holder.is_open = false;
        }
        self.past = self.past.changed(&invitation);
    }

    // A device is made.
    fn joined(&mut self, site: u16, person: u16, digest: Digest) -> Result<(), NoMemory>
        ensures ok { OnOk result (self.new ≡ Change.Joined site person digest ∷ self.old) }
        ensures err { OnErr result (self.new ≡ self.old) }
    {
        self.devices.insert(site, new_holder(person, digest))?;
        self.past = self.past.changed(&(site, person, digest));
        Ok(())
    }

    // A device is closed.
    fn left(&mut self, site: u16)
        ensures { self.new ≡ Change.Left site ∷ self.old }
    {
        if let Some(holder) = self.devices.get_mut(&site) {
            holder.is_open = false;
        }
        self.past = self.past.changed(&site);
    }

    /// Makes a change. One of what isn't there changes nothing but the list of changes.
    pub fn apply(&mut self, change: &Change) -> Result<(), NoMemory>
        ensures ok { OnOk result (self.new ≡ change.now ∷ self.old) }
        ensures err { OnErr result (self.new ≡ self.old) }
    {
        match change {
            Change::Made { person, role, name } => self.made(*person, *role, name)?,
            Change::GivenRole { person, role } => self.given_role(*person, *role),
            Change::Renamed { person, name } => self.renamed(*person, name)?,
            Change::Invited {
                invitation,
                person,
                digest,
            } => self.invited(*invitation, *person, *digest)?,
            Change::Uninvited { invitation } => self.uninvited(*invitation),
            Change::Joined {
                site,
                person,
                digest,
            } => self.joined(*site, *person, *digest)?,
            Change::Left { site } => self.left(*site),
        }
        Ok(())
    }
}
