//! Policies.
ghost use Rattle.std.specs.Prelude.{◌≡◌, IfOk, IfErr, OnOk, OnErr, ◌==◌, [], ◌∷◌, not, nat_le, nat_lt, length, slice_get, option_map};
ghost use Rattle.element_name.specs.Cases.{when, first_of};
ghost use Rattle.std.specs.List.{list_any};
ghost use Rattle.std.specs.Option.{option_copied};
ghost use Rattle.policy_book.specs.Policy.{IsWithinLimits, IsLegal, IsRefusal, first_policy, policy_after, is_user, extent_of};
ghost use Rattle.policy_book.specs.Policy.{members_of, is_object};
ghost use Rattle.policy_book.specs.Policy.{is_group, is_member, is_full, is_full_group, policy_fault};
ghost use Rattle.policy_book.specs.Reach.{reach_of, reach_of_legal, lacks_objects, names_object, is_vacuous, narrowed_reach};

use crate::auth::{Auth, Extent};
use crate::fault::{ApplyFault, EntryFault};
use crate::limits::MAX_OF_KIND;
use crate::numbered::find;
use crate::op::AdminOp;
use crate::parts::{Group, Members, NumberedAuth, Object};
use crate::ranges::operation_in_range;
use crate::reach::Reach;
use crate::tables::Tables;
use element_name::NoMemory;
use std::alloc::Global;
use std::marker::Model;

/// Users, objects, groups, and the authorizations in the order of matching.
///
/// A policy has at most [`MAX_OF_KIND`] of a kind, so each call looks through a few short lists. An object or a group
/// is found by its number in a time logarithmic in their count.
#[derive(Drop)]
pub struct Policy {
    tables: Tables,
}

impl Model for Policy {
    ghost use Rattle.policy_book.specs.Policy as spec;
    ghost use Rattle.policy_book.specs.Tables.{policy_in_tables};

    ghost Value = { spec.Policy };

    ghost view = { λ p. policy_in_tables p.tables };

    ghost invariant = { λ p. spec.IsWithinLimits (policy_in_tables p.tables) };
}

impl Policy {
    /// The policy of version 0: user 0 and object 0, which is all elements, and nobody else is granted anything.
    pub fn first(alloc: Global) -> Result<Policy, NoMemory>
        ensures { IfOk result (λ p. p ≡ first_policy) }
    {
        let all = Object {
            number: 0,
            extent: Extent::All,
        };
        let tables = Tables {
            users: vec![in alloc; 0]?,
            objects: vec![in alloc; all]?,
            groups: Vec::new(alloc),
            auths: Vec::new(alloc),
        };
        Ok(Policy { tables })
    }

    /// A policy that equals this one. Its lists have the same allocators.
    pub fn copied(&self) -> Result<Policy, NoMemory>
        ensures { IfOk result (λ p. p ≡ self.now) }
    {
        Ok(Policy {
            tables: self.tables.copied()?,
        })
    }

    /// Whether there is a user of this number.
    pub fn user(&self, u: u16) -> bool
        ensures { result ≡ is_user self.now u }
    {
        self.tables.users.iter().any(|x| *x == u)
    }

    /// The extent of the object of this number.
    pub fn extent(&self, number: u16) -> Option<&Extent>
        ensures { option_copied result ≡ extent_of self.now number }
    {
        find(&self.tables.objects, number).map(|o| &o.extent)
    }

    fn object(&self, number: u16) -> bool
        ensures { result ≡ is_object self.now number }
    {
        self.extent(number).is_some()
    }

    /// Whether there is a group of this number.
    pub fn group(&self, number: u16) -> bool
        ensures { result ≡ is_group self.now number }
    {
        self.members(number).is_some()
    }

    /// Whether there is such a group with this member, who may be no user.
    pub fn member(&self, group: u16, user: u16) -> bool
        ensures { result ≡ is_member self.now group user }
    {
        match self.members(group) {
            Some(members) => members.has(user),
            None => false,
        }
    }

    fn members(&self, number: u16) -> Option<&Members>
        ensures { option_copied result ≡ members_of self.now number }
    {
        find(&self.tables.groups, number).map(|g| &g.members)
    }

    fn is_full_group(&self, number: u16) -> bool
        ensures { result ≡ is_full_group self.now number }
    {
        match self.members(number) {
            Some(members) => members.len() >= MAX_OF_KIND,
            None => false,
        }
    }

    /// How many authorizations there are.
    pub fn auths(&self) -> u32
        ensures value { result ≡ length self.now.auths }
        ensures limits { IsWithinLimits self.now }
    {
        self.tables.auths.len() as u32
    }

    /// The authorization at a place, from 0, behind its number.
    pub fn auth(&self, place: u32) -> Option<(u32, &Auth)>
        ensures number { option_map (λ a. a.0) result ≡ option_map (λ a. a.number) (slice_get self.now.auths place) }
        ensures value { option_map (λ a. a.1.now) result ≡ option_map (λ a. a.auth) (slice_get self.now.auths place) }
    {
        match self.tables.auths.get(place as usize) {
            Some(a) => Some((a.number, a.auth.get())),
            None => None,
        }
    }

    /// The authorizations in the order of matching.
    pub fn as_slice(&self) -> &[NumberedAuth]
        ensures value { result.now ≡ self.now.auths }
        ensures limits { IsWithinLimits self.now }
    {
        self.tables.auths.as_slice()
    }

    /// The numbers of the users, in ascending order.
    pub fn users(&self) -> &[u16]
        ensures value { result.now ≡ self.now.users }
        ensures limits { IsWithinLimits self.now }
    {
        self.tables.users.as_slice()
    }

    /// The objects, in ascending order of their numbers.
    pub fn objects(&self) -> &[Object]
        ensures value { result.now ≡ self.now.objects }
        ensures limits { IsWithinLimits self.now }
    {
        self.tables.objects.as_slice()
    }

    /// The groups, in ascending order of their numbers.
    pub fn groups(&self) -> &[Group]
        ensures value { result.now ≡ self.now.groups }
        ensures limits { IsWithinLimits self.now }
    {
        self.tables.groups.as_slice()
    }

    /// The first fault of an operation on this policy; none where it is legal. Whether a name was
    /// validated before, only the log knows.
    pub fn legal(&self, op: &AdminOp) -> Option<EntryFault>
        ensures { result ≡ policy_fault self.now op.now }
    {
        match op {
            AdminOp::AddUser(u) => self.add_user_fault(*u),
            AdminOp::DelUser(u) => self.del_user_fault(*u),
            AdminOp::AddObj(n, _) => self.add_object_fault(*n),
            AdminOp::DelObj(n) => fault_if(self.extent(*n).is_none(), EntryFault::NoObject),
            AdminOp::AddGroup(g) => self.add_group_fault(*g),
            AdminOp::DelGroup(g) => fault_if(!self.group(*g), EntryFault::NoGroup),
            AdminOp::AddMember { group, user } => self.add_member_fault(*group, *user),
            AdminOp::DelMember { group, user } => self.del_member_fault(*group, *user),
            AdminOp::AddAuth(place, _) => self.add_auth_fault(*place),
            AdminOp::DelAuth(place) => {
                let len = self.auths();
                fault_if(u32::from(*place) >= len, EntryFault::BadPlace(len))
            }
            AdminOp::Validate(_) => None,
        }
    }

    fn add_user_fault(&self, u: u16) -> Option<EntryFault>
        ensures { result ≡ first_of (
            when (is_user self.now u) EntryFault.UserThere
            ∷ when (is_full self.now.users) (EntryFault.TooMany MAX_OF_KIND)
            ∷ []) }
    {
        if self.user(u) {
            return Some(EntryFault::UserThere);
        }
        full_fault(self.tables.users.len())
    }

    fn del_user_fault(&self, u: u16) -> Option<EntryFault>
        ensures { result ≡ first_of (when (not (is_user self.now u)) EntryFault.NoUser ∷ when (u == 0) EntryFault.IsAdministrator ∷ []) }
    {
        if !self.user(u) {
            return Some(EntryFault::NoUser);
        }
        fault_if(u == 0, EntryFault::IsAdministrator)
    }

    fn add_object_fault(&self, n: u16) -> Option<EntryFault>
        ensures { result ≡ first_of (
            when (is_object self.now n) EntryFault.ObjectThere
            ∷ when (is_full self.now.objects) (EntryFault.TooMany MAX_OF_KIND)
            ∷ []) }
    {
        if self.extent(n).is_some() {
            return Some(EntryFault::ObjectThere);
        }
        full_fault(self.tables.objects.len())
    }

    fn add_group_fault(&self, g: u16) -> Option<EntryFault>
        ensures { result ≡ policy_fault self.now (AdminOp.AddGroup g) }
    {
        if self.tables.groups.len() >= MAX_OF_KIND {
            return full_fault(MAX_OF_KIND);
        }
        fault_if(self.group(g), EntryFault::GroupThere)
    }

    fn add_member_fault(&self, group: u16, user: u16) -> Option<EntryFault>
        ensures { result ≡ policy_fault self.now (AdminOp.AddMember group user) }
    {
        if self.is_full_group(group) {
            return full_fault(MAX_OF_KIND);
        }
        if !self.group(group) {
            return Some(EntryFault::NoGroup);
        }
        fault_if(self.member(group, user), EntryFault::MemberThere)
    }

    fn del_member_fault(&self, group: u16, user: u16) -> Option<EntryFault>
        ensures { result ≡ policy_fault self.now (AdminOp.DelMember group user) }
    {
        if !self.group(group) {
            return Some(EntryFault::NoGroup);
        }
        fault_if(!self.member(group, user), EntryFault::NoMember)
    }

    fn add_auth_fault(&self, place: u16) -> Option<EntryFault>
        ensures { result ≡ first_of (
            when (nat_lt (length self.now.auths) place) (EntryFault.BadPlace (length self.now.auths))
            ∷ when (is_full self.now.auths) (EntryFault.TooMany MAX_OF_KIND)
            ∷ []) }
    {
        let len = self.auths();
        if u32::from(place) > len {
            return Some(EntryFault::BadPlace(len));
        }
        full_fault(len as usize)
    }

    /// Changes the policy by a legal operation, which makes this version.
    ///
    /// Memory is taken first, so that neither refusal changes anything.
    pub fn apply(&mut self, version: u32, op: &AdminOp) -> Result<(), ApplyFault>
        ensures legal { OnOk result (IsLegal self.old op.now) }
        ensures change { OnOk result (self.new ≡ policy_after self.old version op.now) }
        ensures refusal { IfErr result (IsRefusal (policy_fault self.old op.now)) }
        ensures unchanged { OnErr result (self.new ≡ self.old) }
    {
        if let Some(fault) = self.legal(op) {
            return Err(ApplyFault::Illegal(fault));
        }
        self.apply_legal(version, op)?;
        Ok(())
    }

    /// Does what `apply` does with a legal operation, and doesn't look whether it is one. Fails where memory is wanting.
    pub fn apply_legal(&mut self, version: u32, op: &AdminOp) -> Result<(), NoMemory>
        requires { IsLegal self.old op.now }
        ensures change { OnOk result (self.new ≡ policy_after self.old version op.now) }
        ensures unchanged { OnErr result (self.new ≡ self.old) }
    {
        operation_in_range(op);
        self.tables.change(version, op)?;
        Ok(())
    }

    /// Whose requests a legal operation may deny: nobody else's are to be judged anew after it.
    pub fn reach(&self, op: &AdminOp) -> Reach
        requires { IsLegal self.now op.now }
        ensures { result ≡ reach_of self.now op.now }
    {
        self.reach_of_change(op)
    }

    /// Whose requests a legal operation may deny, by what is there: nobody's where it adds or removes an authorization
    /// none of whose objects is there, which matches nothing, or an object that no authorization names; and otherwise
    /// as [`Policy::reach`] says. Takes no memory, and a look-up of each of at most [`MAX_NUMBERS`](crate::MAX_NUMBERS)
    /// objects, or a pass over the authorizations.
    pub fn narrowed_reach(&self, op: &AdminOp) -> Reach
        requires { IsLegal self.now op.now }
        ensures { result ≡ narrowed_reach self.now op.now }
    {
        if self.is_vacuous(op) {
            return Reach::Nobody;
        }
        self.reach(op)
    }

    fn is_vacuous(&self, op: &AdminOp) -> bool
        ensures { result ≡ is_vacuous self.now op.now }
    {
        match op {
            AdminOp::AddAuth(_, auth) => self.lacks_objects(auth.get()),
            AdminOp::DelAuth(place) => match self.tables.auths.get(usize::from(*place)) {
                Some(a) => self.lacks_objects(a.auth.get()),
                None => false,
            },
            AdminOp::AddObj(object, _) => !self.names_object(*object),
            AdminOp::DelObj(object) => !self.names_object(*object),
            AdminOp::AddUser(_)
            | AdminOp::DelUser(_)
            | AdminOp::AddGroup(_)
            | AdminOp::DelGroup(_)
            | AdminOp::AddMember { .. }
            | AdminOp::DelMember { .. }
            | AdminOp::Validate(_) => false,
        }
    }

    fn names_object(&self, object: u16) -> bool
        ensures { result ≡ names_object self.now object }
    {
        let auths = &self.tables.auths;
        auths.iter().any(|a| a.auth.get().objects.has(object))
    }

    fn lacks_objects(&self, auth: &Auth) -> bool
        ensures { result ≡ lacks_objects self.now auth.now }
    {
        !self.has_any_object(auth.objects.as_slice())
    }

    fn has_any_object(&self, objects: &[u16]) -> bool
        ensures { result ≡ list_any (is_object self.now) objects.now }
    {
        for object in objects {
            if self.object(*object) {
                return true;
            }
        }
        false
    }

    fn reach_of_change(&self, op: &AdminOp) -> Reach
        ensures { result ≡ reach_of_legal self.now op.now }
    {
        match op {
            AdminOp::AddUser(_) | AdminOp::AddGroup(_) | AdminOp::Validate(_) => Reach::Nobody,
            AdminOp::DelUser(user) => Reach::of_one(*user),
            AdminOp::AddMember { user, .. } => Reach::of_one(*user),
            AdminOp::DelMember { user, .. } => Reach::of_one(*user),
            AdminOp::AddObj(..) | AdminOp::DelObj(_) | AdminOp::DelGroup(_) => Reach::Everyone,
            AdminOp::AddAuth(_, auth) => Reach::of_added(auth.get()),
            AdminOp::DelAuth(place) => match self.tables.auths.get(usize::from(*place)) {
                Some(a) => Reach::of_removed(a.auth.get()),
                None => Reach::Everyone,
            },
        }
    }
}

fn fault_if(test: bool, fault: EntryFault) -> Option<EntryFault>
    ensures { result ≡ when test fault }
{
    if test { Some(fault) } else { None }
}

// That no more of a kind may join so many.
fn full_fault(count: usize) -> Option<EntryFault>
    ensures { result ≡ when (nat_le MAX_OF_KIND count) (EntryFault.TooMany MAX_OF_KIND) }
{
    fault_if(
        count >= MAX_OF_KIND,
        EntryFault::TooMany(MAX_OF_KIND as u32),
    )
}
