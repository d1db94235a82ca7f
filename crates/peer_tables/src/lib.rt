//! A journal, and the tables that a peer keeps of it: the log, the elements in text order, and the states with the cells. They are
//! what the definitions make of the whole journal, whatever message joins it. Nothing here knows of steps or of what is
//! held.
//!
//! It knows the journal, and each table as a function of it.
//! It must not know steps and their answers, and messages that are held.
#![tactic(auto)]

mod advance;
mod item;
mod items;
mod join;
mod journal;
pub mod laws;
mod missing;
mod packed_key;
mod sweep;
mod text;

pub use advance::validated_by;
pub use item::JournalItem;
pub use journal::Journal;
pub use sweep::{OneThread, Sweep};
