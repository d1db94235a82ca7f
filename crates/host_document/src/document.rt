//! A document: closed as long as nobody is there, and else the host of its text.
ghost use Rattle.std.specs.Prelude.{◌≡◌};

mod house;
mod opening;
mod ordering;
mod renewing;

use crate::opened::Opened;
use host_interface::OpenFault;
use host_link::Identity;
use host_renewal::Former;
use std::marker::Model;
use std::mem;

// What stands for an identity that is lost.
const NO_IDENTITY: Identity = [0; 16];

// How a document stands that isn't open.
#[derive(Clone, Copy)]
enum Standing {
    Closed,
    Broken(OpenFault),
    // Its identity is lost, or it doesn't count any more, so it isn't opened.
    Lost(OpenFault),
    Gone,
}

/// A document of a folder. Contracts see what has happened at its host since it was opened, the newest first, and none
/// where it isn't open.
pub struct Document<'a> {
    name: String,
    identity: Identity,
    // The documents whose place it has taken.
    formers: Vec<Former>,
    // The host of its text, while it is open.
    opened: Option<Opened<'a>>,
    // How it stands else.
    standing: Standing,
}

impl<'a> Model for Document<'a> {
    ghost use Rattle.std.specs.Prelude.{List, Option};
    ghost use Rattle.host_core.specs.declared.event.HostEvent.{HostEvent};

    ghost Value = { Option (List HostEvent) };

    ghost view = { λ d. d.opened };
}

// By hand, so that it goes by one call: a crate above proves nothing of its parts.
impl Drop for Document<'_> {
    fn drop(self) {
        let Document {
            name,
            identity: _,
            formers,
            opened,
            standing: _,
        } = self;
        drop(name);
        drop(formers);
        drop(opened);
    }
}

impl<'a> Document<'a> {
    // Why it couldn't be opened, if it couldn't.
    fn fault(&self) -> Option<OpenFault> {
        match self.standing {
            Standing::Broken(fault) => Some(fault),
            Standing::Lost(fault) => Some(fault),
            _ => None,
        }
    }

    // Puts another host of its text in the place of the one that it has, or none.
    fn replace_host(&mut self, opened: Option<Opened<'a>>)
        ensures { self.new ≡ opened.entry }
    {
        drop(mem::replace(&mut self.opened, opened));
    }
}
