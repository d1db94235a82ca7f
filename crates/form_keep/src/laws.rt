//! What the clauses of a run say together. The function does nothing: it stands for its statement.
ghost use Rattle.form_keep.specs.Laws.{KeepCompleteness};

use peer_disk::Disk;

/// A run during which nothing failed, over good lines and a disk with a store and with room, answered and kept all, or
/// found no memory.
pub fn completeness<D: Disk>()
    ensures { (disk : D) → KeepCompleteness (D.may_leave disk) }
{
    peer_store::laws::one_list();
    peer_store::laws::no_store();
}
