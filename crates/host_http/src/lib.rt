//! What a host is asked over HTTP, and what it answers: heads of requests, routes, the files of a page.
//!
//! It knows bytes, names and files. It knows no socket, no document and no person: who may see what stands at a route is
//! decided above.
#![tactic(auto)]

mod answer;
mod credential;
mod head;
pub mod laws;
mod limits;
mod origins;
mod pages;
mod route;

pub use answer::{Status, body_head, moved_answer, status_answer};
pub use credential::{Credential, SECRET_DIGITS};
pub use head::{Asked, read_head};
pub use limits::{MAX_HEAD, MAX_HEADERS};
pub use origins::Origins;
pub use pages::{PageFile, Pages};
pub use route::{Part, Route, Routes};
