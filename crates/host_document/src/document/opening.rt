//! Where a document is opened from, and why one isn't.
ghost use Rattle.std.specs.Prelude.{◌≡◌, None, Some, IfOk, IsSome};
ghost use Rattle.host_interface.specs.Sealing.{IsOpenedBy};

use super::{Document, Standing};
use crate::opened::Opened;
use host_interface::OpenFault;
use host_seal::Seal;
use std::alloc::{AllocError, Global};

// Where the steps of a document stand.
fn steps_path(alloc: Global, folder: &str, name: &str) -> Result<String, AllocError> {
    format!(in alloc; "{folder}/{name}/steps")
}

impl<'a> Document<'a> {
    // The host of its text, which stands in the folder.
    pub(super) fn open_text(
        &self,
        rt: &'a HostRuntime,
        folder: &str,
        seal: Option<Seal>,
    ) -> Result<Opened<'a>, OpenFault>
        ensures { IfOk result (λ opened. IsOpenedBy seal (Some opened)) }
    {
        match steps_path(rt.alloc(), folder, self.name.as_str()) {
            Ok(path) => Opened::open(rt, path, self.identity, seal),
            Err(_) => Err(OpenFault::NoMemory),
        }
    }

    // Why it is never opened, if it isn't.
    pub(super) fn bar(&self) -> Option<OpenFault>
        ensures { IsSome result → self.now ≡ None }
    {
        match &self.opened {
            Some(_) => None,
            None => match self.standing {
                Standing::Gone => Some(OpenFault::Damaged),
                Standing::Lost(fault) => Some(fault),
                _ => None,
            },
        }
    }
}
