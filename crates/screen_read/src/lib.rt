//! Published text: a screen publishes the text of a shared peer, and a reader on another thread reads it and never waits.
//!
//! It knows a shared peer's text, pages, and what their reader was told.
//! It must not know lines, and who steps beside it.
#![tactic(auto)]

mod fail;
mod page;
mod reader;
mod roll;
mod rule;
mod screen;
mod shown;
mod told;
mod writer;

pub use fail::ScreenFail;
pub use page::Page;
pub use reader::ScreenReader;
pub use screen::Screen;
pub use told::Told;
