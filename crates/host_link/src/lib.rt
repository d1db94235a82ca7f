//! The words of a link: what a link says to a host, what a host says to a link, and why a link is closed.
//!
//! It knows texts and values. It knows no socket, no peer and no file.
#![tactic(auto)]

mod ending;
pub mod laws;
mod limits;
mod naming;
mod opening;
mod order;
mod said;
mod telling;

pub use ending::{ALL_ENDINGS, ENDINGS, Ending};
pub use limits::{FRAMES_AT_ONCE, MAX_CARET, MAX_MESSAGE, MAX_NAME, MAX_REASON, PROTOCOL};
pub use naming::{is_document_name, is_person_name};
pub use opening::{Claim, Identity, NotOpening, Opening, read_opening};
pub use order::{HouseOrder, read_house_order};
pub use said::{Said, read_said};
pub use telling::{caret_text, device_text, people_text, welcome_text};
