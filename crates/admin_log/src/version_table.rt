//! Versions by the users whom they concern.
ghost use Rattle.std.specs.Prelude.{◌≡◌, ◌≤◌, ◌<◌, ◌==◌, ℕ, true, false, OnOk, OnErr};
ghost use Rattle.std.specs.Ordering.{nat_cmp};
ghost use Rattle.std.specs.BTreeSet.{contains};
ghost use Rattle.policy_book.specs.Lists.{has_number};
ghost use Rattle.policy_book.specs.Reach.{is_reached};
ghost use Rattle.admin_log.specs.VersionTable.{user_version_cmp, is_noted, NotesMore, KeepsNotes};

use element_name::NoMemory;
use policy_book::{Reach, UserRow};
use std::alloc::Global;
use std::collections::BTreeSet;

/// A version, and a user whom it concerns.
#[derive(Clone, Copy, Debug, PartialEq, Eq, PartialOrd, Ord)]
pub struct UserVersion {
    pub user: u16,
    pub version: u32,
}

/// Versions that are noted for single users or for everyone. A note takes 8 bytes, or 4 where it is for everyone.
#[derive(Drop)]
pub struct VersionTable {
    all: BTreeSet<u32>,
    single: BTreeSet<UserVersion>,
}

// The first of these versions from `from` on, or `end` where none is before it.
fn first_of_all(versions: &BTreeSet<u32>, from: u32, end: u32) -> u32
    requires { from ≤ end }
    ensures from { from ≤ result }
    ensures end { result ≤ end }
    ensures none { (v : ℕ) → from ≤ v → v < result → contains nat_cmp versions.now v ≡ false }
{
    match versions.range(from..end).next() {
        Some(version) => *version,
        None => end,
    }
}

// The first of a user's versions from `from` on, or `end` where none is before it.
fn first_of_user(versions: &BTreeSet<UserVersion>, user: u16, from: u32, end: u32) -> u32
    requires { from ≤ end }
    ensures from { from ≤ result }
    ensures end { result ≤ end }
    ensures none { (v : ℕ) → from ≤ v → v < result → contains user_version_cmp versions.now (record { user = user; version = v }) ≡ false }
{
    let first = UserVersion {
        user,
        version: from,
    };
    let past = UserVersion { user, version: end };
    match versions.range(first..past).next() {
        Some(noted) => noted.version,
        None => end,
    }
}

impl VersionTable {
    /// The table of no version. Takes no memory.
    pub fn new(alloc: Global) -> VersionTable
        ensures { (v : ℕ) → (u : ℕ) → is_noted result v u ≡ false }
    {
        VersionTable {
            all: BTreeSet::new(alloc),
            single: BTreeSet::new(alloc),
        }
    }

    /// Notes a version for everyone. Takes logarithmic time.
    pub fn note_all(&mut self, version: u32) -> Result<(), NoMemory>
        ensures ok { OnOk result (NotesMore self.old self.new version (λ u. true)) }
        ensures err { OnErr result (KeepsNotes self.old self.new) }
    {
        self.all.insert(version)?;
        Ok(())
    }

    /// Notes a version for a user. Takes logarithmic time.
    pub fn note_user(&mut self, version: u32, user: u16) -> Result<(), NoMemory>
        ensures ok { OnOk result (NotesMore self.old self.new version (λ u. user == u)) }
        ensures err { OnErr result (KeepsNotes self.old self.new) }
    {
        self.single.insert(UserVersion { user, version })?;
        Ok(())
    }

    /// Notes a version for each of these users. Takes logarithmic time for each. Where memory is wanting, it may be noted
    /// for some of them.
    pub fn note_users(&mut self, version: u32, users: &[u16]) -> Result<(), NoMemory>
        ensures ok { OnOk result (NotesMore self.old self.new version (has_number users.now)) }
        ensures err { OnErr result (KeepsNotes self.old self.new) }
    {
        for user in users {
            self.note_user(version, *user)?;
        }
        Ok(())
    }

    fn note_row(&mut self, version: u32, users: &UserRow) -> Result<(), NoMemory>
        ensures ok { OnOk result (NotesMore self.old self.new version (has_number users.now)) }
        ensures err { OnErr result (KeepsNotes self.old self.new) }
    {
        for i in 0..users.len() {
            if let Some(user) = users.at(i) {
                self.note_user(version, user)?;
            }
        }
        Ok(())
    }

    /// Notes a version for those within a reach, as [`VersionTable::note_users`] does.
    pub(crate) fn note_reach(&mut self, version: u32, reach: &Reach) -> Result<(), NoMemory>
        ensures ok { OnOk result (NotesMore self.old self.new version (is_reached reach.now)) }
        ensures err { OnErr result (KeepsNotes self.old self.new) }
    {
        match reach {
            Reach::Nobody => Ok(()),
            Reach::Users(users) => self.note_row(version, users),
            Reach::Everyone => self.note_all(version),
        }
    }

    /// The first version from `from` on that is noted for the user or for everyone, or `end` where none is before it.
    /// Takes logarithmic time.
    pub fn next(&self, user: u16, from: u32, end: u32) -> u32
        requires { from ≤ end }
        ensures from { from ≤ result }
        ensures end { result ≤ end }
        ensures none { (v : ℕ) → from ≤ v → v < result → is_noted self.now v user ≡ false }
    {
        let end = first_of_all(&self.all, from, end);
        first_of_user(&self.single, user, from, end)
    }
}
