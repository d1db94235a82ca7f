//! Whose edits an operation would undo.
ghost use Rattle.std.specs.Prelude.{◌≡◌, ◌<◌, ◌++◌, ℕ, unwrap_or, flat_map, OnOk, IfOk, IfSome};
ghost use Rattle.std.specs.Ordering.{nat_cmp};
ghost use Rattle.std.specs.BTreeMap.{get, IsOrdered};
ghost use Rattle.host_interface.specs.Foreseen.{names_by, user_line, AreUserLines};

use element_name::{Name, NoMemory};
use line_write::{put, put_number_word};
use std::alloc::Global;
use std::collections::BTreeMap;

// How many of these names each user has who has some.
fn count_names(alloc: Global, names: &[Name]) -> Result<BTreeMap<u16, u64>, NoMemory>
    ensures number { IfOk result (λ counts. (user : ℕ) → unwrap_or (get nat_cmp counts user) 0 ≡ names_by names.now user) }
    ensures some { IfOk result (λ counts. (user : ℕ) → IfSome (get nat_cmp counts user) (λ count. 0 < count)) }
{
    let mut counts = BTreeMap::new(alloc);
    for name in names {
        *counts.entry(name.site())?.or_insert(0) += 1;
    }
    Ok(counts)
}

// Appends the line of a user and a number. Where memory is wanting a part may stand there.
fn put_user(lines: &mut Vec<u8>, user: u16, count: u64) -> Result<(), NoMemory>
    ensures { OnOk result (lines.new.items ≡ lines.old.items ++ user_line user count) }
{
    put(lines, b"of")?;
    put_number_word(lines, u64::from(user))?;
    put_number_word(lines, count)?;
    put(lines, b"\n")
}

// The lines of users with their numbers.
fn lines_of(alloc: Global, counts: &BTreeMap<u16, u64>) -> Result<Vec<u8>, NoMemory>
    ensures lines { IfOk result (λ lines. lines.items ≡ flat_map (λ entry. user_line entry.0 entry.1) counts.now.entries) }
    ensures ordered { IsOrdered nat_cmp counts.now }
{
    let mut lines = Vec::new(alloc);
    for (user, count) in counts {
        put_user(&mut lines, *user, *count)?;
    }
    Ok(lines)
}

/// A line for each user who has some of these names, by ascending users, with how many. Takes time in the names times
/// the logarithm of the users. Fails where memory is wanting.
pub(crate) fn user_lines(alloc: Global, names: &[Name]) -> Result<Vec<u8>, NoMemory>
    ensures { IfOk result (λ lines. AreUserLines names.now lines.items) }
{
    let counts = count_names(alloc, names)?;
    let lines = lines_of(alloc, &counts);
    drop(counts);
    lines
}
