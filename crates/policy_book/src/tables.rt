//! The lists of a policy, and their change by an operation.
ghost use Rattle.std.specs.Prelude.{◌≡◌, true, length, map, position, ◌==◌, nat_lt, [], insert, remove, ◌<◌, ◌≤◌, IfOk, OnOk, OnErr};
ghost use Rattle.element_name.specs.Numbered.{is_rising, put_by, without};
ghost use Rattle.policy_book.specs.Policy.{IsWithinLimits, IsLegal, policy_after, with_members};
ghost use Rattle.policy_book.specs.Tables.{policy_in_tables};

use crate::auth::Extent;
use crate::copied::copies;
use crate::numbered::{put, take_out};
use crate::op::AdminOp;
use crate::parts::{Group, Members, NumberedAuth, Object};
use crate::shared::SharedAuth;
use element_name::NoMemory;

/// The lists of a policy: all but the authorizations ascend by their numbers.
#[derive(Drop)]
pub struct Tables {
    pub users: Vec<u16>,
    pub objects: Vec<Object>,
    pub groups: Vec<Group>,
    pub auths: Vec<NumberedAuth>,
}

impl Tables {
    /// Takes the memory that the operation wants, and then changes the one list that it speaks of.
    pub fn change(&mut self, version: u32, op: &AdminOp) -> Result<(), NoMemory>
        requires limits { IsWithinLimits (policy_in_tables self.old) }
        requires legal { IsLegal (policy_in_tables self.old) op.now }
        ensures ok { OnOk result (policy_in_tables self.new ≡ policy_after (policy_in_tables self.old) version op.now) }
        ensures err { OnErr result (policy_in_tables self.new ≡ policy_in_tables self.old) }
    {
        match op {
            AdminOp::AddUser(u) => put(&mut self.users, *u)?,
            AdminOp::DelUser(u) => take_out(&mut self.users, *u),
            AdminOp::AddObj(n, extent) => put_object(&mut self.objects, *n, extent)?,
            AdminOp::DelObj(n) => take_out(&mut self.objects, *n),
            AdminOp::AddGroup(g) => put_group(&mut self.groups, *g)?,
            AdminOp::DelGroup(g) => take_out(&mut self.groups, *g),
            AdminOp::AddMember { group, user } => put_member(&mut self.groups, *group, *user)?,
            AdminOp::DelMember { group, user } => take_out_member(&mut self.groups, *group, *user),
            AdminOp::AddAuth(place, auth) => put_auth(&mut self.auths, *place, version, auth)?,
            AdminOp::DelAuth(place) => take_out_auth(&mut self.auths, *place),
            AdminOp::Validate(_) => {}
        }
        Ok(())
    }
}

impl Tables {
    pub fn copied(&self) -> Result<Tables, NoMemory>
        ensures { IfOk result (λ t. policy_in_tables t ≡ policy_in_tables self.now) }
    {
        Ok(Tables {
            users: Vec::from_slice(*self.users.allocator(), self.users.as_slice())?,
            objects: copies(*self.objects.allocator(), self.objects.as_slice())?,
            groups: copies(*self.groups.allocator(), self.groups.as_slice())?,
            auths: copies(*self.auths.allocator(), self.auths.as_slice())?,
        })
    }
}

fn put_object(objects: &mut Vec<Object>, number: u16, extent: &Extent) -> Result<(), NoMemory>
    ensures ok { OnOk result (objects.new.items ≡ put_by (λ o. o.number)
        (record { number = number; extent = extent.now }) objects.old.items) }
    ensures err { OnErr result (objects.new.items ≡ objects.old.items) }
{
    let extent = extent.copied()?;
    put(objects, Object { number, extent })
}

fn put_group(groups: &mut Vec<Group>, number: u16) -> Result<(), NoMemory>
    ensures ok { OnOk result (groups.new.items ≡ put_by (λ o. o.number) (record { number = number; members = [] }) groups.old.items) }
    ensures err { OnErr result (groups.new.items ≡ groups.old.items) }
{
    let members = Members::new(*groups.allocator());
    put(groups, Group { number, members })
}

fn place_of(groups: &[Group], number: u16) -> Option<usize>
    ensures { result ≡ position (λ g. g.number == number) groups.now }
{
    groups.iter().position(|g| g.number == number)
}

fn put_member(groups: &mut Vec<Group>, group: u16, user: u16) -> Result<(), NoMemory>
    requires { is_rising nat_lt (map (λ g. g.number) groups.old.items) ≡ true }
    ensures ok { OnOk result (groups.new.items ≡ map (with_members group (put_by (λ n. n) user)) groups.old.items) }
    ensures err { OnErr result (groups.new.items ≡ groups.old.items) }
{
    match place_of(groups, group) {
        Some(place) => groups[place].members.put(user),
        None => Ok(()),
    }
}

fn take_out_member(groups: &mut Vec<Group>, group: u16, user: u16)
    requires { is_rising nat_lt (map (λ g. g.number) groups.old.items) ≡ true }
    ensures { groups.new.items ≡ map (with_members group (without (λ n. n) user)) groups.old.items }
{
    if let Some(place) = place_of(groups, group) {
        groups[place].members.take_out(user);
    }
}

fn put_auth(
    auths: &mut Vec<NumberedAuth>,
    place: u16,
    version: u32,
    auth: &SharedAuth,
) -> Result<(), NoMemory>
    requires { place ≤ length auths.old.items }
    ensures ok { OnOk result (auths.new.items ≡ insert auths.old.items place (record { number = version; auth = auth.now })) }
    ensures err { OnErr result (auths.new.items ≡ auths.old.items) }
{
    let auth = auth.shared()?;
    let number = version;
    auths.insert(usize::from(place), NumberedAuth { number, auth })?;
    Ok(())
}

fn take_out_auth(auths: &mut Vec<NumberedAuth>, place: u16)
    requires { place < length auths.old.items }
    ensures { auths.new.items ≡ remove auths.old.items place }
{
    auths.remove(usize::from(place));
}
