//! A door over memory.
ghost use Rattle.std.specs.Prelude.{◌≡◌, ℕ, ◌+◌, ◌≤◌, ◌<◌, ◌↔◌, ◌∷◌, [], Some, All, Contains, IsErr, IfOk, IfSome, IfNone};
ghost use Rattle.std.specs.Prelude.{length, vec_len, slice_get, slice_set};
ghost use Rattle.edit_io.specs.Causes.{next_count};
ghost use Rattle.edit_io.specs.Link.{with_last};
ghost use Rattle.edit_io.specs.Door.{failed_by, given_by, hurt_by, IsUnused, HasRoom};
ghost use Rattle.edit_io.specs.Lobby.{standing, IsUnusedPlace, LineFails, GivesNext, lobby_after, lobby_after_listen, lobby_after_back};

use crate::door::Door;
use crate::fail::Failed;
use crate::mem_link::MemLink;
use std::marker::Model;

/// A door over memory, which gives its links in their order, puts those that come back into the emptied
/// places, in order, and fails at listed calls and where no link is left.
#[derive(Drop)]
pub struct MemDoor {
    links: Vec<Option<MemLink>>,
    given: usize,
    returned: usize,
    fails: Vec<u64>,
    calls: u64,
    faults: u64,
    hurt: u64,
}

impl Model for MemDoor {
    ghost use Rattle.std.specs.Prelude.{take, drop};
    ghost use Rattle.edit_io.specs.Lobby.{Lobby, standing, IsLobby};

    ghost Value = { Lobby };

    ghost view = { λ s. record {
      used = standing (take s.returned s.links.items);
      waiting = standing (drop s.given s.links.items);
      given = s.given;
      returned = s.returned;
      fails = s.fails.items;
      calls = s.calls;
      faults = s.faults;
      hurt = s.hurt;
    } };

    ghost invariant = { λ s. IsLobby s.links.items s.given s.returned s.hurt };
}

impl MemDoor {
    /// A door with these links. The calls of `listen`, `accept` and `connect` whose numbers, counted
    /// together from 1, are listed in `fails` fail. It takes no memory.
    pub fn new(links: Vec<Option<MemLink>>, fails: Vec<u64>) -> MemDoor
        requires { All IsUnusedPlace links.items }
        ensures { result ≡ record {
          used = [];
          waiting = standing links.items;
          given = 0;
          returned = 0;
          fails = fails.items;
          calls = 0;
          faults = 0;
          hurt = 0;
        } }
    {
        MemDoor {
            links,
            given: 0,
            returned: 0,
            fails,
            calls: 0,
            faults: 0,
            hurt: 0,
        }
    }

    /// The link that came back as this one, counted from 0; none where fewer came back.
    pub fn used(&self, number: usize) -> Option<&MemLink>
        ensures some { IfSome result (λ link. slice_get self.now.used number ≡ Some link.now) }
        ensures none { IfNone result (length self.now.used ≤ number) }
    {
        if number >= self.returned {
            return None;
        }
        self.links[number].as_ref()
    }

    // The next link, or a failure.
    fn next_link(&mut self) -> Result<MemLink, Failed>
        requires { HasRoom self.old.faults self.old.given }
        ensures unused { IfOk result (λ line. IsUnused line.faults line.closes (Some line.got) (Some line.sent)) }
        ensures fails { IsErr result ↔ LineFails self.old }
        ensures next { GivesNext self.old.waiting result }
        ensures after { self.new ≡ lobby_after self.old result }
    {
        self.calls = self.calls.saturating_add(1);
        if self.fails.contains(&self.calls) {
            self.faults += 1;
            return Err(Failed);
        }
        if self.given == self.links.len() {
            self.faults += 1;
            return Err(Failed);
        }
        match take_at(&mut self.links, self.given) {
            Some(link) => {
                self.given += 1;
                Ok(link)
            }
            None => unreachable!(),
        }
    }
}

// Takes the link out of a place.
fn take_at(links: &mut Vec<Option<MemLink>>, at: usize) -> Option<MemLink>
    requires { at < vec_len links.old }
    ensures taken { slice_get links.old.items at ≡ Some result }
    ensures after { links.new.items ≡ slice_set links.old.items at None }
{
    links[at].take()
}

// Puts a link into a place.
fn put_at(links: &mut Vec<Option<MemLink>>, at: usize, link: MemLink)
    requires { at < vec_len links.old }
    ensures { links.new.items ≡ slice_set links.old.items at (Some link) }
{
    links[at] = Some(link);
}

impl Door for MemDoor {
    type Line = MemLink;

    ghost faults = { λ s. s.faults };

    ghost given = { λ s. s.given };

    ghost returned = { λ s. s.returned };

    ghost hurt = { λ s. s.hurt };

    ghost used = { λ s. Some s.used };

    /// Listens on nothing, or fails where this call is listed.
    ///
    /// It takes time in the length of the list of failing calls.
    fn listen(&mut self, _port: u16) -> Result<(), Failed>
        requires { HasRoom self.old.faults self.old.given }
        ensures faults { self.new.faults ≡ self.old.faults + failed_by result }
        ensures given { self.new.given ≡ self.old.given }
        ensures returned { self.new.returned ≡ self.old.returned }
        ensures hurt { self.new.hurt ≡ self.old.hurt }
        ensures used { Some self.new.used ≡ Some self.old.used }

        // Beyond the trait: which calls fail, and what the door is afterwards.
        ensures fails { IsErr result ↔ Contains self.old.fails (next_count self.old.calls) }
        ensures after { self.new ≡ lobby_after_listen self.old result }
    {
        self.calls = self.calls.saturating_add(1);
        if self.fails.contains(&self.calls) {
            self.faults += 1;
            return Err(Failed);
        }
        Ok(())
    }

    /// Gives the next link, or fails where this call is listed or no link is left.
    ///
    /// It takes time in the length of the list of failing calls.
    fn accept(&mut self) -> Result<MemLink, Failed>
        requires { HasRoom self.old.faults self.old.given }
        ensures unused { IfOk result (λ line. IsUnused line.faults line.closes (Some line.got) (Some line.sent)) }
        ensures faults { self.new.faults ≡ self.old.faults + failed_by result }
        ensures given { self.new.given ≡ self.old.given + given_by result }
        ensures returned { self.new.returned ≡ self.old.returned }
        ensures hurt { self.new.hurt ≡ self.old.hurt }
        ensures used { Some self.new.used ≡ Some self.old.used }

        // Beyond the trait: which calls fail, which link comes, and what the door is afterwards.
        ensures fails { IsErr result ↔ LineFails self.old }
        ensures next { GivesNext self.old.waiting result }
        ensures after { self.new ≡ lobby_after self.old result }
    {
        self.next_link()
    }

    /// Gives the next link as `accept` does, whatever the port.
    fn connect(&mut self, _port: u16) -> Result<MemLink, Failed>
        requires { HasRoom self.old.faults self.old.given }
        ensures unused { IfOk result (λ line. IsUnused line.faults line.closes (Some line.got) (Some line.sent)) }
        ensures faults { self.new.faults ≡ self.old.faults + failed_by result }
        ensures given { self.new.given ≡ self.old.given + given_by result }
        ensures returned { self.new.returned ≡ self.old.returned }
        ensures hurt { self.new.hurt ≡ self.old.hurt }
        ensures used { Some self.new.used ≡ Some self.old.used }

        // Beyond the trait: which calls fail, which link comes, and what the door is afterwards.
        ensures fails { IsErr result ↔ LineFails self.old }
        ensures next { GivesNext self.old.waiting result }
        ensures after { self.new ≡ lobby_after self.old result }
    {
        self.next_link()
    }

    /// Puts the link into the first place that is free for it. It takes no memory.
    fn back(&mut self, line: MemLink)
        requires { self.old.returned < self.old.given }
        ensures faults { self.new.faults ≡ self.old.faults }
        ensures given { self.new.given ≡ self.old.given }
        ensures returned { self.new.returned ≡ self.old.returned + 1 }
        ensures hurt { self.new.hurt ≡ self.old.hurt + hurt_by line.faults }
        ensures used { Some self.new.used ≡ with_last (Some self.old.used) (line ∷ []) }

        // Beyond the trait: what the door is afterwards.
        ensures after { self.new ≡ lobby_after_back self.old line }
    {
        self.hurt += line.faults().min(1);
        put_at(&mut self.links, self.returned, line);
        self.returned += 1;
    }
}
