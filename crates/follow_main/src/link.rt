//! Links that came so far.
ghost use Rattle.std.specs.Prelude.{◌≡◌};

use crate::address::Key;
use crate::device::Device;
use crate::dial::{Greeted, Reached, begin, dial, greet, reach};
use crate::edge::Edge;
use crate::socket::{Came, Sent, Socket, next_message, send_text};
use crate::stage::{Linked, Stage};
use crate::told::{or_status, status_of};
use follow_talk::{HostText, Stop, Welcome, read_host_text};
use line_engine::Status;
use mio::Poll;
use mio::net::TcpStream;
use std::mem;

// How long a step of opening a link may take, in milliseconds.
const PATIENCE: u64 = 10_000;

// After how long without a sign a link is gone. A host pings every 20 seconds.
const SILENCE: u64 = 70_000;

// How many messages are read in a turn.
const MOST_READ: u32 = 256;

// The shortest and the longest pause before a link is tried again, in milliseconds.
const SHORT_PAUSE: u64 = 250;

const LONG_PAUSE: u64 = 30_000;

// Why a turn ends otherwise than by going on.
#[derive(Clone, Copy, Debug, PartialEq, Eq)]
pub(crate) enum Turned {
    /// The link is gone.
    Gone,
    /// The run ends.
    Ends(Status),
}

// What the answer to a first message makes of a socket.
#[derive(Clone, Copy, Debug, PartialEq, Eq)]
enum Answered {
    /// It waits for more.
    Waits,
    /// It has a device now, and says who it is.
    Joined,
    /// It was let in, and may send requests or not. The host had saved so many messages.
    Linked { writes: bool, saved: u32 },
}

impl From<Stop> for Turned {
    fn from(stop: Stop) -> Turned {
        Turned::Ends(status_of(stop))
    }
}

impl<'a> Edge<'a> {
    // Begins a link.
    fn dial(&mut self, poll: &Poll) -> Stage {
        self.until = self.now.saturating_add(PATIENCE);
        self.tries = self.tries.wrapping_add(1);
        match dial(self.rt, poll, self.address, self.tries) {
            Ok(stream) => Stage::Dialling(stream),
            Err(_) => self.apart(),
        }
    }

    // What is said first without a device.
    fn join_text(&self) -> Result<String, Stop> {
        let secret = match self.address.key {
            Key::Invitation(secret) => secret,
            _ => "",
        };
        Ok(format!(in self.alloc; "join 1 {secret}")?)
    }

    // How many messages of the host's journal are here.
    fn known(&self) -> u32 {
        match &self.talk {
            Some(talk) => talk.known(),
            None => 0,
        }
    }

    // What is said first by a device.
    fn hello_text(&self, device: &Device) -> Result<String, Stop> {
        let known = self.known();
        let identity = device.identity.as_str();
        let site = device.site;
        let secret = device.secret.as_str();
        Ok(format!(in self.alloc; "hello 1 {identity} {site} {secret} {known}")?)
    }

    // What is said first on a socket: `join` without a device, and `hello` with one.
    fn first_text(&self) -> Result<String, Stop> {
        match &self.device {
            Some(device) => self.hello_text(device),
            None => self.join_text(),
        }
    }

    // Says the first message on a socket.
    fn say_first(&mut self, socket: &mut Socket) -> Result<(), Turned> {
        self.until = self.now.saturating_add(PATIENCE);
        self.again = true;
        let text = self.first_text()?;
        let sent = send_text(self.alloc, socket, text.as_str());
        drop(text);
        match sent {
            Sent::Gone => Err(Turned::Gone),
            _ => Ok(()),
        }
    }

    // A socket on which the first message was said.
    fn open(&mut self, mut socket: Socket) -> Result<Stage, Turned> {
        match self.say_first(&mut socket) {
            Ok(()) => Ok(Stage::Opening(socket)),
            Err(turned) => {
                drop(socket);
                Err(turned)
            }
        }
    }

    // What comes of an upgrade.
    fn greeted(&mut self, greeted: Greeted) -> Result<Stage, Turned> {
        match greeted {
            Greeted::Waits(greeting) => Ok(Stage::Greeting(greeting)),
            Greeted::Open(socket) => self.open(socket),
            Greeted::Missing => Err(self.missing()),
            Greeted::Failed => Err(Turned::Gone),
        }
    }

    // Keeps the device that was made.
    fn take_device(&mut self, site: u16, secret: &str) -> Result<Answered, Status> {
        let Ok(device) = Device::new(self.alloc, site, secret) else {
            return Err(Status::NoMemory);
        };
        let none = mem::replace(&mut self.device, Some(device));
        drop(none);
        self.keep_device()?;
        self.begin()?;
        Ok(Answered::Joined)
    }

    // Keeps the identity of the document, where it wasn't known.
    fn keep_identity(&mut self, identity: &str) -> Result<(), Status> {
        let Some(device) = &mut self.device else {
            return Ok(());
        };
        if device.identity.as_str() == identity {
            return Ok(());
        }
        let Ok(known) = String::from_str(self.alloc, identity) else {
            return Err(Status::NoMemory);
        };
        let unknown = mem::replace(&mut device.identity, known);
        drop(unknown);
        self.keep_device()
    }

    // Says that the host let the link in.
    fn tell_welcome(&mut self, welcome: Welcome<'_>) -> Result<(), Stop> {
        let Welcome {
            site,
            person,
            role,
            ..
        } = welcome;
        let line = format!(in self.alloc; "linked {site} {person} {role}")?;
        let said = self.say(line.as_str());
        drop(line);
        said
    }

    // Takes what a host says to a link that it lets in.
    fn take_welcome(&mut self, welcome: Welcome<'_>) -> Result<Answered, Status> {
        self.pause = 0;
        self.is_missing = false;
        self.until = self.now.saturating_add(SILENCE);
        self.again = true;
        self.keep_identity(welcome.identity)?;
        if let Some(talk) = &mut self.talk {
            talk.link();
            or_status(self.tell_welcome(welcome))?;
        }
        Ok(Answered::Linked {
            writes: welcome.role != "reader",
            saved: welcome.saved,
        })
    }

    // Takes a text that answers the first message.
    fn take_answer(&mut self, text: &str) -> Result<Answered, Turned> {
        let taken = match read_host_text(text) {
            Some(HostText::Device { site, secret }) => self.take_device(site, secret),
            Some(HostText::Welcome(welcome)) => self.take_welcome(welcome),
            _ => return Err(Turned::Gone),
        };
        match taken {
            Ok(answered) => Ok(answered),
            Err(status) => Err(Turned::Ends(status)),
        }
    }

    // Takes what came behind the first message.
    fn answered(&mut self, came: &Came) -> Result<Answered, Turned> {
        match came {
            Came::Text(text) => self.take_answer(text.as_str()),
            Came::Sign => {
                self.again = true;
                Ok(Answered::Waits)
            }
            Came::Nothing => Ok(Answered::Waits),
            Came::Closed { code, words } => Err(self.closed(*code, words.as_str())),
            Came::Frames(_) => Err(Turned::Gone),
            Came::Gone => Err(Turned::Gone),
        }
    }

    // Reads what answers the first message. Who has a device from now on says who it is.
    fn read_answer(&mut self, socket: &mut Socket) -> Result<Answered, Turned> {
        let came = next_message(self.alloc, socket);
        let answered = self.answered(&came);
        drop(came);
        if let Ok(Answered::Joined) = answered {
            self.say_first(socket)?;
        }
        answered
    }

    // Goes on with a socket whose first message was sent.
    fn go_on_opening(&mut self, mut socket: Socket) -> Result<Stage, Turned> {
        match self.read_answer(&mut socket) {
            Ok(Answered::Linked { writes, saved }) => Ok(Stage::Linked(Linked {
                socket,
                writes,
                is_blocked: false,
                saved,
            })),
            Ok(_) => Ok(Stage::Opening(socket)),
            Err(turned) => {
                drop(socket);
                Err(turned)
            }
        }
    }

    // Takes frames, one after another.
    fn take_frames(&mut self, bytes: &[u8]) -> Result<(), Turned> {
        let Some(talk) = &mut self.talk else {
            return Err(Turned::Gone);
        };
        match talk.take_frames(bytes) {
            Ok(true) => Ok(()),
            Ok(false) => Err(Turned::Gone),
            Err(stop) => Err(Turned::from(stop)),
        }
    }

    // Says the lines of news.
    fn take_news(&mut self, text: &str) -> Result<(), Turned> {
        for line in text.split('\n') {
            self.say(line)?;
        }
        Ok(())
    }

    // Takes a text of the host.
    fn take_text(&mut self, text: &str) -> Result<(), Turned> {
        match read_host_text(text) {
            Some(HostText::News(news)) => self.take_news(news),
            _ => Err(Turned::Gone),
        }
    }

    // Takes what came on a link that was let in.
    fn take_message(&mut self, came: &Came) -> Result<(), Turned> {
        match came {
            Came::Frames(bytes) => self.take_frames(bytes),
            Came::Text(text) => self.take_text(text.as_str()),
            Came::Sign => Ok(()),
            Came::Nothing => Ok(()),
            Came::Closed { code, words } => Err(self.closed(*code, words.as_str())),
            Came::Gone => Err(Turned::Gone),
        }
    }

    // Reads what came next on a link that was let in. False where nothing did.
    fn read_next(&mut self, socket: &mut Socket) -> Result<bool, Turned> {
        let came = next_message(self.alloc, socket);
        let is_there = !matches!(came, Came::Nothing);
        let taken = self.take_message(&came);
        drop(came);
        taken?;
        if is_there {
            self.until = self.now.saturating_add(SILENCE);
        }
        Ok(is_there)
    }

    // Reads what came on a link that was let in.
    fn read_linked(&mut self, socket: &mut Socket) -> Result<(), Turned> {
        for _ in 0..MOST_READ {
            if !self.read_next(socket)? {
                return Ok(());
            }
        }
        self.again = true;
        Ok(())
    }

    // Goes on with a link that was let in.
    fn go_on_linked(&mut self, mut linked: Linked) -> Result<Stage, Turned> {
        match self.read_linked(&mut linked.socket) {
            Ok(()) => Ok(Stage::Linked(linked)),
            Err(turned) => {
                drop(linked);
                Err(turned)
            }
        }
    }

    // Goes on with a stream that is connecting.
    fn reached(&mut self, stream: TcpStream) -> Result<Stage, Turned> {
        match reach(stream) {
            Reached::Waits(stream) => Ok(Stage::Dialling(stream)),
            Reached::Connected(stream) => {
                let greeted = begin(self.rt, self.address, stream);
                self.greeted(greeted)
            }
            Reached::Failed => Err(Turned::Gone),
        }
    }

    // Tries to link again, once it is time.
    fn go_on_apart(&mut self, poll: &Poll) -> Stage {
        if self.now < self.until {
            return Stage::Apart;
        }
        self.dial(poll)
    }

    // Goes on with a stage.
    fn step_stage(&mut self, poll: &Poll, stage: Stage) -> Result<Stage, Turned> {
        match stage {
            Stage::Apart => Ok(self.go_on_apart(poll)),
            Stage::Dialling(stream) => self.reached(stream),
            Stage::Greeting(greeting) => self.greeted(greet(greeting)),
            Stage::Opening(socket) => self.go_on_opening(socket),
            Stage::Linked(linked) => self.go_on_linked(linked),
        }
    }

    // Goes on with a stage, unless it took too long.
    fn step_in_time(&mut self, poll: &Poll, stage: Stage) -> Result<Stage, Turned> {
        let was_apart = matches!(stage, Stage::Apart);
        if !was_apart && self.now >= self.until {
            drop(stage);
            return Err(Turned::Gone);
        }
        self.step_stage(poll, stage)
    }

    // There is no link. It is tried again after a pause, which grows.
    fn apart(&mut self) -> Stage
        ensures { result ≡ Stage.Apart }
    {
        self.pause = self.pause.saturating_mul(2).clamp(SHORT_PAUSE, LONG_PAUSE);
        self.until = self.now.saturating_add(self.pause);
        Stage::Apart
    }

    // Puts a stage in the place of the one that was taken out.
    pub(crate) fn put_stage(&mut self, stage: Stage) {
        let none = mem::replace(&mut self.stage, stage);
        drop(none);
    }

    // A link that stood, or was begun, is gone, or the run ends.
    pub(crate) fn turned(&mut self, turned: Turned, was_linked: bool) -> Result<(), Status> {
        if let Turned::Ends(status) = turned {
            return Err(status);
        }
        let apart = self.apart();
        self.put_stage(apart);
        if was_linked {
            or_status(self.say("apart"))?;
        }
        Ok(())
    }

    /// Goes on with the link.
    pub(crate) fn go_on(&mut self, poll: &Poll) -> Result<(), Status> {
        let stage = mem::replace(&mut self.stage, Stage::Apart);
        let was_linked = matches!(stage, Stage::Linked(_));
        match self.step_in_time(poll, stage) {
            Ok(stage) => {
                self.put_stage(stage);
                Ok(())
            }
            Err(turned) => self.turned(turned, was_linked),
        }
    }
}
