//! The operations that make a policy anew, and the peer that issues them.
ghost use Rattle.std.specs.Prelude.{◌≡◌, [], ◌∷◌, ◌++◌, ◌≤◌, length, map, fold, IfOk, OnOk};
ghost use Rattle.std.specs.List.{flat_map};
ghost use Rattle.policy_book.specs.declared.limits.TheConstants.{MAX_OF_KIND};
ghost use Rattle.peer_core.specs.After.{peer_after};
ghost use Rattle.peer_renewal.specs.Operations.{users_made, members_made, group_made, objects_made, auths_made, operations_of};

use element_name::NoMemory;
use peer_core::Peer;
use peer_step::Step;
use policy_book::{AdminOp, Group, NumberedAuth, Object, Policy};
use std::alloc::Global;

// The administrator is there.
fn push_user(ops: &mut Vec<AdminOp>, user: u16) -> Result<(), NoMemory>
    ensures { OnOk result (ops.new.items ≡ ops.old.items ++ users_made (user ∷ [])) }
{
    if user != 0 {
        ops.push(AdminOp::AddUser(user))?;
    }
    Ok(())
}

fn push_users(ops: &mut Vec<AdminOp>, users: &[u16]) -> Result<(), NoMemory>
    ensures { OnOk result (ops.new.items ≡ ops.old.items ++ users_made users.now) }
{
    for user in users {
        push_user(ops, *user)?;
    }
    Ok(())
}

fn push_members(ops: &mut Vec<AdminOp>, group: u16, members: &[u16]) -> Result<(), NoMemory>
    ensures { OnOk result (ops.new.items ≡ ops.old.items ++ members_made group members.now) }
{
    for user in members {
        ops.push(AdminOp::AddMember { group, user: *user })?;
    }
    Ok(())
}

fn push_group(ops: &mut Vec<AdminOp>, group: &Group) -> Result<(), NoMemory>
    ensures { OnOk result (ops.new.items ≡ ops.old.items ++ group_made group.now) }
{
    ops.push(AdminOp::AddGroup(group.number))?;
    push_members(ops, group.number, group.members.as_slice())
}

fn push_groups(ops: &mut Vec<AdminOp>, groups: &[Group]) -> Result<(), NoMemory>
    ensures { OnOk result (ops.new.items ≡ ops.old.items ++ flat_map group_made groups.now) }
{
    for group in groups {
        push_group(ops, group)?;
    }
    Ok(())
}

fn push_objects(ops: &mut Vec<AdminOp>, objects: &[Object]) -> Result<(), NoMemory>
    ensures { OnOk result (ops.new.items ≡ ops.old.items ++ objects_made objects.now) }
{
    for object in objects {
        let extent = object.extent.copied()?;
        ops.push(AdminOp::AddObj(object.number, extent))?;
    }
    Ok(())
}

fn push_auths(ops: &mut Vec<AdminOp>, auths: &[NumberedAuth]) -> Result<(), NoMemory>
    requires { length auths.now ≤ MAX_OF_KIND }
    ensures { OnOk result (ops.new.items ≡ ops.old.items ++ auths_made 0 auths.now) }
{
    for (place, numbered) in auths.iter().enumerate() {
        let auth = numbered.auth.shared()?;
        ops.push(AdminOp::AddAuth(place as u16, auth))?;
    }
    Ok(())
}

/// The operations that make a policy of that of version 0, with these objects. Takes memory for each, and shares the
/// authorizations.
pub(crate) fn operations(
    alloc: Global,
    policy: &Policy,
    objects: &[Object],
) -> Result<Vec<AdminOp>, NoMemory>
    ensures { IfOk result (λ ops. ops.items ≡ operations_of policy.now objects.now) }
{
    let mut ops = Vec::new(alloc);
    push_users(&mut ops, policy.users())?;
    push_groups(&mut ops, policy.groups())?;
    ops.push(AdminOp::DelObj(0))?;
    push_objects(&mut ops, objects)?;
    push_auths(&mut ops, policy.as_slice())?;
    Ok(ops)
}

/// Has a peer issue entries with these operations, one behind another. It goes on behind one that is refused.
#[tactic(auto, using(crate::proofs::OperationLemmas::issued_more))]
pub(crate) fn issue_all(peer: &mut Peer, ops: Vec<AdminOp>) -> Result<(), NoMemory>
    ensures { OnOk result (peer.new ≡ fold peer_after peer.old (map Step.Administer ops.items)) }
{
    for op in ops {
        drop(peer.step(Step::Administer(op))?);
    }
    Ok(())
}
