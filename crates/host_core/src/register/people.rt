//! People and their devices.
ghost use Rattle.std.specs.Prelude.{◌≡◌, ◌∷◌, None, OnOk, OnErr, IfOk, IfErr, IfSome, Some};
ghost use Rattle.host_core.specs.Past.{device_of};
ghost use Rattle.host_core.specs.Refusals.{person_refusal, device_refusal};
ghost use Rattle.host_core.specs.Outside.{IsForOrWantsMemory};

use super::Register;
use crate::event::{Device, HostEvent};
use crate::limits::{MAX_PEOPLE, MAX_SITES};
use crate::refusal::Refusal;

impl Register {
    /// Makes a person, and gives it a number that none was given before. Takes no memory.
    pub fn make_person(&mut self) -> Result<u16, Refusal>
        ensures made { IfOk result (λ person. self.new ≡ HostEvent.PersonMade person ∷ self.old) }
        ensures refused { IfErr result (λ refusal. person_refusal self.old ≡ Some refusal) }
        ensures unchanged { OnErr result (self.new ≡ self.old) }
    {
        if self.people >= MAX_PEOPLE {
            return Err(Refusal::NumbersUsedUp);
        }
        let person = self.people as u16;
        self.people += 1;
        self.past = self.past.changed(&person);
        Ok(person)
    }

    fn device_refusal(&self, person: u16) -> Option<Refusal>
        ensures { result ≡ device_refusal self.now person }
    {
        if u32::from(person) >= self.people {
            return Some(Refusal::NoPerson);
        }
        if self.sites >= MAX_SITES {
            return Some(Refusal::NumbersUsedUp);
        }
        None
    }

    /// Makes a device of a person, and gives it a site that none was given before.
    pub fn make_device(&mut self, device: Device) -> Result<u16, Refusal>
        ensures made { IfOk result (λ site. self.new ≡ HostEvent.DeviceMade site device ∷ self.old) }
        ensures refused { IfSome (device_refusal self.old device.person) (λ refusal. result ≡ Err refusal) }
        ensures cause { IfErr result (λ refusal. IsForOrWantsMemory refusal (device_refusal self.old device.person)) }
        ensures unchanged { OnErr result (self.new ≡ self.old) }
    {
        if let Some(refusal) = self.device_refusal(device.person) {
            return Err(refusal);
        }
        let site = (self.sites + 1) as u16;
        if self.devices.insert(site, device).is_err() {
            return Err(Refusal::NoMemory);
        }
        self.sites += 1;
        self.past = self.past.changed(&(site, device));
        Ok(site)
    }

    /// Gives a device another secret, of this digest, and closes its link. Takes no memory.
    pub fn change_secret(&mut self, site: u16, digest: [u8; 32]) -> Result<(), Refusal>
        ensures changed { OnOk result (self.new ≡ HostEvent.SecretChanged site digest ∷ self.old) }
        ensures refused { IfErr result (λ refusal. (refusal ≡ Refusal.NoDevice) × (device_of site self.old ≡ None)) }
        ensures unchanged { OnErr result (self.new ≡ self.old) }
    {
        let Some(device) = self.devices.get_mut(&site) else {
            return Err(Refusal::NoDevice);
        };
        device.digest = digest;
        self.links.remove(&site);
        self.past = self.past.changed(&(site, digest));
        Ok(())
    }

    /// Closes a device for good, and its link. Takes no memory.
    pub fn close_device(&mut self, site: u16) -> Result<(), Refusal>
        ensures closed { OnOk result (self.new ≡ HostEvent.DeviceClosed site ∷ self.old) }
        ensures refused { IfErr result (λ refusal. (refusal ≡ Refusal.NoDevice) × (device_of site self.old ≡ None)) }
        ensures unchanged { OnErr result (self.new ≡ self.old) }
    {
        if self.devices.remove(&site).is_none() {
            return Err(Refusal::NoDevice);
        }
        self.links.remove(&site);
        self.past = self.past.changed(&site);
        Ok(())
    }
}
