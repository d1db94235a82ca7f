//! The loop: the standard input, the link and the clock, in one thread.
ghost use Rattle.std.specs.Prelude.{◌≡◌, ◌≤◌, true, OnOk, IfSome, IsSome, IsTrue};
ghost use Rattle.follow_talk.specs.Saying.{IsSavedAndTold};

use crate::address::Address;
use crate::device::{Device, Mark};
use crate::inlet::Inlet;
use crate::input::{Input, NextLine};
use crate::opening::{FileKeeper, keep_device, known_device, known_talk};
use crate::output::write;
use crate::setting::Setting;
use crate::stage::Stage;
use crate::told::{or_status, words_of};
use follow_talk::{Stop, Talk};
use host_core::Keeper;
use line_engine::Status;
use std::alloc::Global;
use std::sync::Wait;
use std::time::Instant;
use std::{io, mem};

// How long a turn waits for events, in milliseconds.
const WAIT: u64 = 250;

// How often at most it is noted how far the device came with the host.
const MARKS: u64 = 1_000;

/// A follower and its link.
#[derive(Drop)]
pub struct Edge<'a> {
    pub(crate) rt: &'a HostRuntime,
    pub(crate) alloc: Global,
    pub(crate) address: Address<'a>,
    file: &'a str,
    pub(crate) device: Option<Device>,
    // There is one once there is a device.
    pub(crate) talk: Option<Talk<FileKeeper<'a>>>,
    pub(crate) stage: Stage,
    /// The milliseconds since it began, and those at which the stage has to have changed.
    pub(crate) now: u64,
    pub(crate) until: u64,
    pub(crate) pause: u64,
    /// How often a link was begun.
    pub(crate) tries: usize,
    /// Whether the last that was told of the link is that the host has no such document.
    pub(crate) is_missing: bool,
    // Whether there is more to do though no event will say so.
    pub(crate) again: bool,
    marked: u64,
}

// Does what the lines ask for that were read. A line that was done is taken.
fn take_lines<K: Keeper>(input: &mut Input, talk: &mut Talk<K>) -> Result<(), Stop> {
    for _ in 0..u64::MAX {
        match input.next_line() {
            NextLine::Line(size) => {
                talk.line(input.line(size))?;
                input.pass(size);
            }
            NextLine::TooLong => return Err(Stop::BadLine),
            NextLine::None => return Ok(()),
        }
    }
    Ok(())
}

// How far a device came.
fn mark_of<K: Keeper>(talk: &Talk<K>) -> Mark {
    Mark {
        known: talk.known(),
        length: talk.follower().peer().journal_len(),
        back: talk.follower().outbox().back(),
    }
}

impl<'a> Edge<'a> {
    // A follower with its device and its peer, if it has these, and no link.
    fn apart_with(
        rt: &'a HostRuntime,
        set: Setting<'a>,
        device: Option<Device>,
        talk: Option<Talk<FileKeeper<'a>>>,
    ) -> Edge<'a> {
        Edge {
            rt,
            alloc: rt.alloc(),
            address: set.address,
            file: set.file,
            device,
            talk,
            stage: Stage::Apart,
            now: 0,
            until: 0,
            pause: 0,
            tries: usize::MAX,
            is_missing: false,
            again: false,
            marked: 0,
        }
    }

    /// A follower of an address that keeps its peer in a file.
    pub fn new(rt: &'a HostRuntime, set: Setting<'a>) -> Result<Edge<'a>, Status> {
        let device = known_device(rt, set)?;
        match known_talk(rt, set.file, &device) {
            Ok(talk) => Ok(Edge::apart_with(rt, set, device, talk)),
            Err(status) => {
                drop(device);
                Err(status)
            }
        }
    }

    /// Keeps the device in its file.
    pub(crate) fn keep_device(&self) -> Result<(), Status> {
        match &self.device {
            Some(device) => keep_device(self.rt, self.file, device),
            None => Ok(()),
        }
    }

    /// Opens the file of the device that was made.
    pub(crate) fn begin(&mut self) -> Result<(), Status> {
        let talk = known_talk(self.rt, self.file, &self.device)?;
        let none = mem::replace(&mut self.talk, talk);
        drop(none);
        Ok(())
    }

    /// Says a line, once all is saved.
    pub(crate) fn say(&mut self, line: &str) -> Result<(), Stop> {
        match &mut self.talk {
            Some(talk) => talk.say(line),
            None => self.say_alone(line),
        }
    }

    // Says a line at once, where there is no peer.
    fn say_alone(&self, line: &str) -> Result<(), Stop> {
        let bytes = format!(in self.alloc; "{line}\n")?;
        let outcome = write(self.rt, bytes.as_str().as_bytes());
        drop(bytes);
        match outcome {
            Ok(()) => Ok(()),
            Err(_) => Err(Stop::DiskFault),
        }
    }

    // Does what the lines ask for that were read.
    fn take_input(&mut self, input: &mut Input) -> Result<(), Status> {
        match &mut self.talk {
            Some(talk) => or_status(take_lines(input, talk)),
            None => Ok(()),
        }
    }

    // How far the device came, if there is more than was noted of it.
    fn news(&self) -> Option<Mark> {
        let (Some(talk), Some(device)) = (&self.talk, &self.device) else {
            return None;
        };
        let mark = mark_of(talk);
        if mark.known == device.mark.known && mark.back == device.mark.back {
            return None;
        }
        Some(mark)
    }

    // Notes how far the device came with the host.
    fn note(&mut self, mark: Mark) -> Result<(), Status> {
        if let Some(device) = &mut self.device {
            device.mark = mark;
        }
        self.marked = self.now;
        self.keep_device()
    }

    // Notes how far the device came with the host, from time to time.
    fn mark(&mut self, is_last: bool) -> Result<(), Status> {
        match self.news() {
            Some(mark) if is_last || self.now >= self.marked.saturating_add(MARKS) => {
                self.note(mark)
            }
            _ => Ok(()),
        }
    }

    // Saves, writes what is told then, and sends what may go then.
    fn end_turn(&mut self) -> Result<(), Status> {
        self.save_and_write()?;
        self.push()?;
        self.mark(false)
    }

    // Saves, and gives what is told then.
    fn saved_lines(&mut self) -> Result<Vec<u8>, Status>
        ensures { OnOk result (IfSome self.old.talk (λ t. IfSome self.new.talk (λ u. IsSavedAndTold t.follower.outbox u.follower.outbox))) }
    {
        match &mut self.talk {
            Some(talk) => or_status(talk.save()),
            None => Ok(Vec::new(self.alloc)),
        }
    }

    // Writes bytes to the standard output, if there are any.
    fn write_some(&self, said: &[u8]) -> Result<(), Status> {
        if said.is_empty() {
            return Ok(());
        }
        match write(self.rt, said) {
            Ok(()) => Ok(()),
            Err(_) => Err(Status::WriteFault),
        }
    }

    // Saves, and writes what is told then.
    fn save_and_write(&mut self) -> Result<(), Status> {
        let said = self.saved_lines()?;
        let outcome = self.write_some(&said);
        drop(said);
        outcome
    }

    // Whether all that came of the input is at the host, and all of the host here.
    fn is_even(&self) -> bool {
        let (Some(talk), Stage::Linked(linked)) = (&self.talk, &self.stage) else {
            return false;
        };
        talk.known() >= linked.saved && (!linked.writes || !talk.follower().owes())
    }

    // The milliseconds since a start.
    fn time_since(&self, start: Instant) -> io::Result<u64> {
        let passed = Instant::now(self.rt)?.saturating_duration_since(start);
        let seconds = passed.as_secs().saturating_mul(1_000);
        Ok(seconds.saturating_add(u64::from(passed.subsec_millis())))
    }

    // How long the next turn may wait.
    fn pause(&self) -> u64
        ensures { result ≤ WAIT }
    {
        if self.again {
            return 0;
        }
        match self.stage {
            Stage::Apart => WAIT.min(self.until.saturating_sub(self.now)),
            _ => WAIT,
        }
    }

    // Waits for what comes, and says whether the input has something.
    fn wait(&mut self, inlet: &mut Inlet, start: Instant) -> Result<bool, Status> {
        let is_ready = inlet.wait(self.pause())?;
        let Ok(now) = self.time_since(start) else {
            return Err(Status::LinkFault);
        };
        self.now = now;
        Ok(is_ready)
    }

    // One turn.
    fn turn(&mut self, inlet: &mut Inlet, start: Instant) -> Result<(), Status> {
        let is_ready = self.wait(inlet, start)?;
        self.again = inlet.read(self.rt, is_ready)?;
        self.take_input(&mut inlet.input)?;
        self.go_on(&inlet.poll)?;
        self.end_turn()
    }

    // Turns, until the run ends.
    fn turns(&mut self, wait: &impl Wait, inlet: &mut Inlet) -> Status {
        let Ok(start) = Instant::now(self.rt) else {
            return Status::LinkFault;
        };
        for _ in wait.forever() {
            if let Err(status) = self.turn(inlet, start) {
                return status;
            }
            if inlet.input.ended && self.is_even() {
                return Status::Done;
            }
        }
        Status::Done
    }

    // Says which line is bad.
    fn tell_bad_line(&mut self, number: u64) -> Result<(), Stop> {
        let line = format!(in self.alloc; "bad line {number}")?;
        let said = self.say(line.as_str());
        drop(line);
        said
    }

    // Says why the run ends, where that has words.
    fn tell_end(&mut self, status: Status, number: u64) -> Result<(), Stop> {
        if status == Status::BadInput {
            return self.tell_bad_line(number);
        }
        match words_of(status) {
            Some(words) => self.say(words),
            None => Ok(()),
        }
    }

    // Saves what was made, writes what is told then, and notes how far the device came.
    fn end_saved(&mut self, status: Status) -> Status {
        if let Err(worse) = self.save_and_write() {
            return worse;
        }
        let _ = self.mark(true);
        status
    }

    // Ends a run at a line of the input, for why it ends. Where the disk failed nothing is saved any more.
    fn end(&mut self, status: Status, number: u64) -> Status {
        if self.tell_end(status, number).is_err() {
            return self.end_saved(Status::NoMemory);
        }
        if status == Status::DiskFault {
            return status;
        }
        self.end_saved(status)
    }

    /// Follows, until the input has ended and all is at the host, or it can't go on.
    pub fn run(&mut self, wait: &impl Wait) -> Status {
        let Some(mut inlet) = Inlet::open(self.rt) else {
            return Status::NoMemory;
        };
        let status = self.turns(wait, &mut inlet);
        let number = inlet.input.number;
        drop(inlet);
        self.end(status, number)
    }
}
