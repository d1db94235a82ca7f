//! Why nothing was published.

/// Why no page was published. The pages stay as they were.
#[derive(Clone, Copy, Debug, PartialEq, Eq)]
pub enum ScreenFail {
    /// The run has as many steps as it may. No step was made.
    RunFull,
    /// No memory. The step that asks for the text may have been made.
    NoMemory,
}
