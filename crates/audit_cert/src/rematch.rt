//! Where another authorization may be the first that matches.
ghost use Rattle.std.specs.Prelude.{IfOk, OnOk};
ghost use Rattle.policy_book.specs.Reach.{reach_of_users, is_reached};
ghost use Rattle.admin_log.specs.VersionTable.{NotesMore};
ghost use Rattle.audit_cert.specs.Rematches.{rematch_reach, IsRematchTable};

use admin_log::{AdminLog, VersionTable};
use element_name::NoMemory;
use policy_book::{AdminOp, Policy, UserSet};
use std::alloc::Global;

// Notes a version for those of whom a set speaks.
fn note_set(table: &mut VersionTable, version: u32, set: &UserSet) -> Result<(), NoMemory>
    ensures { OnOk result (NotesMore table.old table.new version (is_reached (reach_of_users set.now))) }
{
    match set {
        UserSet::Listed(users) => table.note_users(version, users.as_slice()),
        UserSet::All | UserSet::Groups(_) => table.note_all(version),
    }
}

// Notes the version of an operation, by the policy before it.
fn note(
    table: &mut VersionTable,
    version: u32,
    policy: &Policy,
    op: &AdminOp,
) -> Result<(), NoMemory>
    ensures { OnOk result (NotesMore table.old table.new version (is_reached (rematch_reach policy.now op.now))) }
{
    match op {
        AdminOp::AddUser(user) | AdminOp::DelUser(user) => table.note_user(version, *user),
        AdminOp::AddAuth(_, auth) => note_set(table, version, &auth.get().users),
        AdminOp::DelAuth(place) => match policy.auth(u32::from(*place)) {
            Some((_, auth)) => note_set(table, version, &auth.users),
            None => table.note_all(version),
        },
        AdminOp::Validate(_) => Ok(()),
        _ => table.note_all(version),
    }
}

/// The versions of a log at which another authorization may be the first that matches an access of the user than at the
/// one before. Takes time in the number of its entries and in what they list, for each also logarithmic time and that of
/// its change of the policy; and memory for a policy, and 8 bytes for each user that an entry lists.
pub(crate) fn rematch_table(alloc: Global, log: &AdminLog) -> Result<VersionTable, NoMemory>
    ensures { IfOk result (IsRematchTable log.now) }
{
    let mut table = VersionTable::new(alloc);
    let mut policy = log.policy_at(0)?;
    for before in 0..log.len() {
        let version = before + 1;
        if let Some(entry) = log.entry(version) {
            note(&mut table, version, &policy, entry.op())?;
        }
        log.advance(&mut policy, before, version)?;
    }
    Ok(table)
}
