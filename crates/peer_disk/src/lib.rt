//! Disks, each of one file, and files of records on them, which survive a crash at any moment.
//!
//! A disk is seen as what a read gives and what a crash may leave. Between two syncs a crash may leave anything in the
//! ranges that were written. So a contract over a disk can speak of every moment of a call: of what a crash during it
//! might have left. [`MemDisk`] is a disk in memory, which keeps its calls and fails at listed ones; [`FileDisk`] stands
//! at the edge, over a file of the system.
//!
//! A file of records is a list of bodies, to which one is added, or several at once. A record is a gate, a length and a
//! body. The gate behind the last record stands closed on the disk before anything is written behind it, and is opened
//! by a write of its own, after the bodies are on the disk. So a crash in the middle of [`put`] leaves the bodies from
//! before it, with the new one or without, one in the middle of [`put_all`] leaves them with all new ones or with none,
//! and no checksum is trusted.
//!
//! It knows bytes at places of one file, the time between two syncs, and gates, lengths and bodies of bytes.
//! It must not know what a body means, nor steps or peers.
#![tactic(auto)]

mod add;
mod disk;
mod fault;
mod file_disk;
mod gate;
pub mod laws;
mod layout;
mod lent;
mod make;
mod mem_disk;
mod record;
mod records;
mod synced;
mod walk;
mod whole;

pub use add::{put, put_all};
pub use disk::Disk;
pub use fault::LoadFault;
pub use file_disk::FileDisk;
pub use layout::{BESIDE_BODY, FIRST_GATE};
pub use make::create;
pub use mem_disk::{DiskCall, DiskWrite, MemDisk};
pub use record::Record;
pub use records::Records;
pub use walk::{Ending, Loaded};
pub use whole::load;
