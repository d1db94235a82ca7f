//! Held messages behind pointers.
ghost use Rattle.std.specs.Prelude.{◌≡◌, IfOk, IfErr};
ghost use Rattle.hold_back.specs.declared.fault.HoldFault.TheVariants.{NoMemory as no_memory};

use crate::awaited::Awaited;
use crate::fault::HoldFault;
use crate::held::Held;
use crate::need::Need;
use edit_message::Message;
use std::alloc::Global;
use std::marker::Model;

/// A held message, in less room.
#[derive(Drop)]
struct Stored {
    message: Message,
    awaited: Awaited,
}

/// A held message behind a pointer: little moves where one is taken out of a row of them.
#[derive(Drop)]
pub(crate) struct Parcel {
    inside: Box<Stored>,
}

impl Model for Parcel {
    ghost use Rattle.hold_back.specs.declared.held.Held.{Held};
    ghost use Rattle.hold_back.specs.Index.{need_awaited};

    ghost Value = { Held };

    ghost view = { λ p. record { message = p.inside.value.message; need = need_awaited p.inside.value.awaited } };
}

impl Parcel {
    pub(crate) fn new(alloc: Global, held: Held) -> Result<Parcel, HoldFault>
        ensures ok { IfOk result (λ p. p ≡ held) }
        ensures err { IfErr result (λ fault. fault ≡ no_memory) }
    {
        let awaited = Awaited::of_need(&held.need);
        let message = held.message;
        match Box::new(alloc, Stored { message, awaited }) {
            Ok(inside) => Ok(Parcel { inside }),
            Err(_) => Err(HoldFault::NoMemory),
        }
    }

    pub(crate) fn message(&self) -> &Message
        ensures { result.now ≡ self.now.message }
    {
        &self.inside.message
    }

    pub(crate) fn into_held(self) -> Held
        ensures { result ≡ self }
    {
        let Stored { message, awaited } = Box::into_inner(self.inside);
        let need = awaited.need();
        Held { message, need }
    }

    pub(crate) fn need(&self) -> Option<Need>
        ensures { result ≡ self.now.need }
    {
        self.inside.awaited.need()
    }

    // It waits under this need, or is woken where there is none.
    pub(crate) fn wait(&mut self, need: Option<Need>)
        ensures { self.new ≡ record { message = self.old.message; need = need } }
    {
        self.inside.awaited = Awaited::of_need(&need);
    }
}
