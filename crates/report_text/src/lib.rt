//! The lines of what a peer answers and holds, and of a stream's frames that are no messages.
//!
//! A call fails where memory is wanting, and has then appended nothing, but for `answer_line_of`, `put_frame_kind` and the
//! closing lines.
//!
//! It knows a peer's answer to a step, its text, what it holds, and bytes that are no message.
//! It must not know who asks for the report.
#![tactic(auto)]

mod answer;
mod closing;
mod frame;

pub use answer::answer_line_of;
pub use closing::{closing_lines, closing_lines_of, held_lines};
pub use frame::{end_line, frame_fault_line, put_frame_kind, turn_line};
