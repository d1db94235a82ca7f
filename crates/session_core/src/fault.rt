//! Why sessions are cut.

use edit_frame::FrameFault;

/// Why a session was cut. The first fault ends it.
#[derive(Clone, Copy, Debug, PartialEq, Eq)]
pub enum SessionFault {
    /// The link failed, and counted a fault.
    LinkFault,
    /// The other end closed the link before an end came.
    Closed,
    /// A message came that is no frame. The offset is 0.
    BadFrame(FrameFault),
    /// The run of the shared peer has as many steps as it may.
    RunFull,
    /// Memory was wanting. No contract says when it is.
    NoMemory,
}
