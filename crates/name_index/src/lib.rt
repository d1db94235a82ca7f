//! Ordered maps from small keys to small values, and sets of small keys, in chunks, and maps from names to values of any
//! type over them.
//!
//! It knows keys that are ordered and copied, and names in eight bytes.
//! It must not know what a key or a value stands for.
#![tactic(auto)]

mod chunk;
mod map;
mod names;
mod packed;
mod set;

pub use map::ChunkMap;
pub use names::NameMap;
pub use packed::PackedName;
pub use set::ChunkSet;
