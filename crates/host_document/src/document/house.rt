//! What a house asks of a document.

use super::renewing::claims_former;
use super::{Document, NO_IDENTITY, Standing};
use crate::renewal::renewal_in;
use crate::text::{journal_of, text_of};
use edit_message::Message;
use element_name::NoMemory;
use host_core::{LinkId, Role};
use host_interface::{HouseDocument, OpenFault, RowFault};
use host_link::{Claim, Ending, Identity};
use host_people::People;
use host_renewal::{Former, RenewalFault};
use host_seal::Seal;
use peer_step::{Answer, Step};
use std::alloc::{AllocError, Global};
use std::mem;

impl<'a> HouseDocument<'a> for Document<'a> {
    ghost past = { λ d. d };

    fn new(name: String, identity: Identity, formers: Vec<Former>) -> Document<'a> {
        Document {
            name,
            identity,
            formers,
            opened: None,
            standing: Standing::Closed,
        }
    }

    fn lost(name: String, fault: OpenFault, formers: Vec<Former>) -> Document<'a> {
        Document {
            name,
            identity: NO_IDENTITY,
            formers,
            opened: None,
            standing: Standing::Lost(fault),
        }
    }

    fn name(&self) -> &str {
        self.name.as_str()
    }

    fn identity(&self) -> Identity {
        self.identity
    }

    fn formers(&self) -> &[Former] {
        &self.formers
    }

    fn rename(&mut self, name: String) {
        self.name = name;
    }

    fn is_open(&self) -> bool {
        self.opened.is_some()
    }

    fn is_gone(&self) -> bool {
        match &self.opened {
            Some(_) => false,
            None => matches!(self.standing, Standing::Gone),
        }
    }

    fn state_word(&self) -> &'static str {
        match self.standing {
            Standing::Closed if self.opened.is_some() => "open",
            Standing::Closed => "closed",
            Standing::Broken(fault) => fault.word(),
            Standing::Lost(fault) => fault.word(),
            Standing::Gone => "gone",
        }
    }

    fn found(&self, alloc: Global) -> Result<String, AllocError> {
        match self.fault() {
            Some(fault) => fault.told(alloc),
            None => {
                let state = self.state_word();
                let saved = self.saved();
                format!(in alloc; "{state}, {saved} messages")
            }
        }
    }

    fn open(
        &mut self,
        rt: &'a HostRuntime,
        folder: &str,
        seal: Option<Seal>,
    ) -> Result<(), OpenFault> {
        if self.is_open() {
            return Ok(());
        }
        if let Some(fault) = self.bar() {
            return Err(fault);
        }
        match self.open_text(rt, folder, seal) {
            Ok(opened) => {
                self.replace_host(Some(opened));
                self.standing = Standing::Closed;
                Ok(())
            }
            Err(fault) => {
                self.give_up(fault);
                Err(fault)
            }
        }
    }

    fn shut(&mut self) {
        self.replace_host(None);
    }

    fn give_up(&mut self, fault: OpenFault) {
        self.shut();
        if self.bar().is_none() {
            self.standing = Standing::Broken(fault);
        }
    }

    fn lose(&mut self, fault: OpenFault) {
        self.shut();
        self.standing = Standing::Lost(fault);
    }

    fn put_away(&mut self) {
        self.shut();
        self.standing = Standing::Gone;
    }

    fn admit(
        &mut self,
        people: &People,
        person: u16,
        role: Role,
        claim: &Claim,
    ) -> Result<LinkId, Ending> {
        if claims_former(&self.formers, claim) {
            return Err(Ending::Renewed);
        }
        let identity = self.identity;
        match &mut self.opened {
            Some(opened) => opened.admit(people, person, role, identity, claim),
            None => Err(Ending::NoDocument),
        }
    }

    fn close(&mut self, link: LinkId) {
        match &mut self.opened {
            Some(opened) => opened.close(link),
            None => {}
        }
    }

    fn close_device(&mut self, site: u16) {
        match &mut self.opened {
            Some(opened) => opened.close_device(site),
            None => {}
        }
    }

    fn take(&mut self, link: LinkId, message: Message) -> Result<Answer, Ending> {
        let Some(opened) = &mut self.opened else {
            drop(message);
            return Err(Ending::NoDocument);
        };
        opened.ask(link, Step::Receive(message))
    }

    fn tell(&mut self, link: LinkId) -> Result<bool, Ending> {
        match &mut self.opened {
            Some(opened) => opened.tell(link),
            None => Err(Ending::NoDocument),
        }
    }

    fn lacks(&self, link: LinkId) -> bool {
        match &self.opened {
            Some(opened) => opened.lacks(link),
            None => false,
        }
    }

    fn next_item(&mut self, link: LinkId) -> Result<Option<Message>, Ending> {
        match &mut self.opened {
            Some(opened) => opened.next_item(link),
            None => Err(Ending::NoDocument),
        }
    }

    fn would(&self, alloc: Global, line: &str) -> Result<Vec<u8>, RowFault> {
        match &self.opened {
            Some(opened) => opened.would(alloc, line.as_bytes()),
            None => Err(RowFault::Ended(Ending::NoDocument)),
        }
    }

    fn order(&mut self, alloc: Global, link: LinkId, lines: &str) -> Result<Vec<u8>, RowFault> {
        match self.order_open(alloc, link, lines) {
            Ok(answers) => Ok(answers),
            Err(halt) => {
                if halt.is_torn {
                    self.shut();
                    return Err(halt.fault);
                }
                Err(halt.fault)
            }
        }
    }

    fn commit(&mut self) -> Result<bool, Ending> {
        match &mut self.opened {
            Some(opened) => opened.commit(),
            None => Ok(false),
        }
    }

    fn saved(&self) -> u32 {
        match &self.opened {
            Some(opened) => opened.saved(),
            None => 0,
        }
    }

    fn next_seal(&mut self, alloc: Global) -> Result<Option<Seal>, NoMemory> {
        match &mut self.opened {
            Some(opened) => opened.next_seal(alloc),
            None => Ok(None),
        }
    }

    fn whole_seal(&mut self, alloc: Global) -> Result<Option<Seal>, NoMemory> {
        match &mut self.opened {
            Some(opened) => Ok(Some(opened.seal(alloc)?)),
            None => Ok(None),
        }
    }

    fn note_sealed(&mut self, seal: &Seal) {
        match &mut self.opened {
            Some(opened) => opened.note_sealed(seal),
            None => {}
        }
    }

    fn text(&self, alloc: Global) -> Result<Vec<u8>, NoMemory> {
        match &self.opened {
            Some(opened) => text_of(alloc, opened.peer()),
            None => Ok(Vec::new(alloc)),
        }
    }

    fn journal(&self, alloc: Global, is_certified: bool) -> Result<Vec<u8>, NoMemory> {
        match &self.opened {
            Some(opened) => journal_of(alloc, opened.peer(), opened.saved(), is_certified),
            None => Ok(Vec::new(alloc)),
        }
    }

    fn make_renewal(&self, rt: &HostRuntime, path: String) -> Result<Seal, RenewalFault> {
        match &self.opened {
            Some(opened) => renewal_in(rt, path, opened.peer()),
            None => Err(RenewalFault::NotOpen),
        }
    }

    fn give_way(&mut self, identity: Identity, formers: Vec<Former>) {
        self.shut();
        self.identity = identity;
        drop(mem::replace(&mut self.formers, formers));
        self.standing = Standing::Closed;
    }
}
