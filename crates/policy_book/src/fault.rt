//! Why an entry isn't legal, or a policy isn't changed.
ghost use Rattle.std.specs.Prelude.{◌≡◌};
ghost use Rattle.policy_book.specs.Fault.{fault_number};

use element_name::NoMemory;

/// The first fault of an operation on a policy and its log, in the order in which the faults are numbered, from 1.
#[derive(Clone, Copy, Debug, PartialEq, Eq)]
pub enum EntryFault {
    /// The user to be added is one.
    UserThere,
    /// The user to be removed is none.
    NoUser,
    /// User 0 is the administrator, and stays.
    IsAdministrator,
    /// The object's number is taken.
    ObjectThere,
    /// The object to be removed is none.
    NoObject,
    /// The place isn't in the list of authorizations, which is this long.
    BadPlace(u32),
    /// As many of the kind stand as may.
    TooMany(u32),
    /// The log validated the name at this version.
    ValidatedAt(u32),
    /// The group's number is taken.
    GroupThere,
    /// There is no such group.
    NoGroup,
    /// The member to be added is one.
    MemberThere,
    /// The member to be removed is none.
    NoMember,
}

impl EntryFault {
    /// Its number, from 1. Where several faults hold, that of the least number is told.
    pub fn number(self) -> u32
        ensures { result ≡ fault_number self }
    {
        match self {
            EntryFault::UserThere => 1,
            EntryFault::NoUser => 2,
            EntryFault::IsAdministrator => 3,
            EntryFault::ObjectThere => 4,
            EntryFault::NoObject => 5,
            EntryFault::BadPlace(_) => 6,
            EntryFault::TooMany(_) => 7,
            EntryFault::ValidatedAt(_) => 8,
            EntryFault::GroupThere => 9,
            EntryFault::NoGroup => 10,
            EntryFault::MemberThere => 11,
            EntryFault::NoMember => 12,
        }
    }
}

/// Why an operation didn't change a policy, which is as before.
#[derive(Clone, Copy, Debug, PartialEq, Eq)]
pub enum ApplyFault {
    /// It isn't legal, by this first fault.
    Illegal(EntryFault),
    /// It is legal, and memory was wanting.
    NoMemory,
}

impl From<NoMemory> for ApplyFault {
    ghost use Rattle.std.specs.Prelude.{◌≡◌};
    ghost use Rattle.policy_book.specs.declared.fault.ApplyFault.TheVariants as faults;

    ghost from_gives = { λ e f. f ≡ faults.NoMemory };

    fn from(_e: NoMemory) -> ApplyFault {
        ApplyFault::NoMemory
    }
}
