//! What the types of an operation's parts keep.
//!
//! An enum has no invariant of its own. Each function here looks at the parts of a value, whose types
//! have one, so that its caller knows that all of them are in their ranges. It does nothing else.
ghost use Rattle.std.specs.Prelude.{IsTrue};
ghost use Rattle.policy_book.specs.Lists.{is_short, is_name};
ghost use Rattle.policy_book.specs.Operation.{is_extent, is_user_set, is_auth, is_operation};

use crate::auth::{Auth, Extent, UserSet};
use crate::op::AdminOp;
use element_name::Name;

fn short_in_range(n: u16)
    ensures { IsTrue (is_short n) }
{
    let _ = n;
}

fn name_in_range(name: Name)
    ensures { IsTrue (is_name name) }
{
    let _ = name.stamp();
}

fn extent_in_range(extent: &Extent)
    ensures { IsTrue (is_extent extent.now) }
{
    match extent {
        Extent::All => {}
        Extent::Span(first, last) => {
            name_in_range(*first);
            name_in_range(*last);
        }
        Extent::Elems(names) => {
            let _ = names.len();
        }
        Extent::By(user) => {
            short_in_range(*user);
        }
    }
}

fn users_in_range(users: &UserSet)
    ensures { IsTrue (is_user_set users.now) }
{
    match users {
        UserSet::All => {}
        UserSet::Listed(numbers) | UserSet::Groups(numbers) => {
            let _ = numbers.len();
        }
    }
}

fn auth_in_range(auth: &Auth)
    ensures { IsTrue (is_auth auth.now) }
{
    users_in_range(&auth.users);
    let _ = auth.rights.insert();
    let _ = auth.objects.len();
}

pub fn operation_in_range(op: &AdminOp)
    ensures { IsTrue (is_operation op.now) }
{
    match op {
        AdminOp::AddUser(n)
        | AdminOp::DelUser(n)
        | AdminOp::DelObj(n)
        | AdminOp::AddGroup(n)
        | AdminOp::DelGroup(n)
        | AdminOp::DelAuth(n) => {
            short_in_range(*n);
        }
        AdminOp::AddMember { group, user } | AdminOp::DelMember { group, user } => {
            short_in_range(*group);
            short_in_range(*user);
        }
        AdminOp::AddObj(n, extent) => {
            short_in_range(*n);
            extent_in_range(extent);
        }
        AdminOp::AddAuth(place, auth) => {
            short_in_range(*place);
            auth_in_range(auth.get());
        }
        AdminOp::Validate(name) => name_in_range(*name),
    }
}
