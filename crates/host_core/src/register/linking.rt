//! Links that are opened and closed.
ghost use Rattle.std.specs.Prelude.{◌≡◌, ◌∷◌, ℕ, Some, None, IsSome, unwrap_or, OnOk, OnErr, IfOk, IfErr, IfSome, option_map};
ghost use Rattle.std.specs.Ordering.{nat_cmp};
ghost use Rattle.std.specs.BTreeMap.{get};
ghost use Rattle.host_core.specs.Past.{device_of, links_opened, open_link};
ghost use Rattle.host_core.specs.Refusals.{has_secret, hello_refusal};
ghost use Rattle.host_core.specs.Outside.{IsForOrWantsMemory};

use super::Register;
use crate::digest::same_bytes;
use crate::event::{Device, Hello, HostEvent, LinkId, OpenLink, Role};
use crate::limits::MAX_OPENED;
use crate::refusal::Refusal;
use element_name::NoMemory;
use sha2::{Digest, Sha256};
use std::collections::BTreeMap;

// Whether the secret is that of the device.
fn has_secret(secret: &[u8; 16], device: &Device) -> bool
    ensures { result ≡ has_secret secret.now device.now }
{
    let digest = Sha256::digest(secret);
    same_bytes(&device.digest, &digest)
}

// Makes a place for a count at a site.
fn make_place(counts: &mut BTreeMap<u16, u32>, site: u16) -> Result<(), NoMemory>
    ensures same { (u : ℕ) → unwrap_or (get nat_cmp counts.new u) 0 ≡ unwrap_or (get nat_cmp counts.old u) 0 }
    ensures stay { (u : ℕ) → IsSome (get nat_cmp counts.old u) → IsSome (get nat_cmp counts.new u) }
    ensures place { OnOk result (IsSome (get nat_cmp counts.new site)) }
{
    if counts.get(&site).is_none() {
        counts.insert(site, 0)?;
    }
    Ok(())
}

impl Register {
    // The role by which a hello opens a link, or why it opens none.
    fn role_for(&self, hello: &Hello) -> Result<Role, Refusal>
        ensures role { IfOk result (λ role. option_map (λ d. d.role) (device_of hello.now.site self.now) ≡ Some role) }
        ensures none { OnOk result (hello_refusal self.now hello.now ≡ None) }
        ensures refused { IfErr result (λ refusal. hello_refusal self.now hello.now ≡ Some refusal) }
    {
        if !same_bytes(&self.document, &hello.document) {
            return Err(Refusal::OtherDocument);
        }
        let Some(device) = self.devices.get(&hello.site) else {
            return Err(Refusal::WrongSecret);
        };
        if !has_secret(&hello.secret, device) {
            return Err(Refusal::WrongSecret);
        }
        if hello.from > self.saved {
            return Err(Refusal::AheadOfHost);
        }
        if self.opened >= MAX_OPENED {
            return Err(Refusal::NumbersUsedUp);
        }
        Ok(device.role)
    }

    /// Opens a link by its hello. An older link of its site is closed by that.
    pub fn admit(&mut self, hello: &Hello) -> Result<LinkId, Refusal>
        ensures opened { OnOk result (self.new ≡ HostEvent.LinkOpened hello.now ∷ self.old) }
        ensures link { IfOk result (λ link. link ≡ record { site = hello.now.site; number = links_opened self.old }) }
        ensures refused { IfSome (hello_refusal self.old hello.now) (λ refusal. result ≡ Err refusal) }
        ensures cause { IfErr result (λ refusal. IsForOrWantsMemory refusal (hello_refusal self.old hello.now)) }
        ensures unchanged { OnErr result (self.new ≡ self.old) }
    {
        let role = self.role_for(hello)?;
        let number = self.opened;
        let new = OpenLink {
            number,
            role,
            from: hello.from,
            mark: hello.from,
        };
        if make_place(&mut self.denied, hello.site).is_err() {
            return Err(Refusal::NoMemory);
        }
        if self.links.insert(hello.site, new).is_err() {
            return Err(Refusal::NoMemory);
        }
        self.opened += 1;
        self.past = self.past.changed(hello);
        Ok(LinkId {
            site: hello.site,
            number,
        })
    }

    /// Closes a link. Takes no memory.
    pub fn close(&mut self, link: LinkId) -> Result<(), Refusal>
        ensures closed { OnOk result (self.new ≡ HostEvent.LinkClosed link ∷ self.old) }
        ensures refused { IfErr result (λ refusal. (refusal ≡ Refusal.NoLink) × (open_link self.old link ≡ None)) }
        ensures unchanged { OnErr result (self.new ≡ self.old) }
    {
        if self.open_link(link).is_none() {
            return Err(Refusal::NoLink);
        }
        self.links.remove(&link.site);
        self.past = self.past.changed(&link);
        Ok(())
    }
}
