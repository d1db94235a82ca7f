//! Requests to edit a shared text, which lists of them are histories, and requests and pieces in little memory.
//!
//! It knows names, pieces and edits, and what a history may hold.
//! It must not know policies and verdicts, who holds a request, or how it is spelled.
#![tactic(auto)]

mod edit;
pub mod laws;
mod lent_edit;
mod lent_piece;
mod lent_request;
mod packed_piece;
mod packed_request;
mod piece;
mod request;
mod row;

pub use edit::{Edit, Right};
pub use lent_edit::LentEdit;
pub use lent_piece::LentPiece;
pub use lent_request::LentRequest;
pub use packed_piece::{PackedPiece, SHORT_PIECE};
pub use packed_request::PackedRequest;
pub use piece::{MAX_PIECE, Piece, is_text};
pub use request::{MAX_REQUESTS, Request, RequestFault};
