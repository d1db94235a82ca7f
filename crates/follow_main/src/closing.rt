//! Closes of a link, and what follows from them.
ghost use Rattle.std.specs.Prelude.{◌≡◌, true};
ghost use Rattle.follow_main.specs.Ends.{is_final};

use crate::edge::Edge;
use crate::link::Turned;
use crate::renewed::RENEWED;
use follow_talk::Stop;
use line_engine::Status;

// The close of a link to a document that isn't there, or can't be opened.
const NO_DOCUMENT: u16 = 4014;

// The closes that aren't mended by linking again.
fn is_final(code: u16) -> bool
    ensures { result ≡ is_final code }
{
    matches!(code, 4000..=4006 | 4013 | 4015 | 4016 | RENEWED)
}

impl<'a> Edge<'a> {
    // Says that a host closed a link.
    fn tell_close(&mut self, code: u16, words: &str) -> Result<(), Stop> {
        let line = format!(in self.alloc; "closed {code} {words}")?;
        let said = self.say(line.as_str());
        drop(line);
        said?;
        if code == RENEWED {
            return self.tell_renewed();
        }
        Ok(())
    }

    // Whether the device was let in to its document once.
    fn knows_document(&self) -> bool {
        match &self.device {
            Some(device) => device.knows_document(),
            None => false,
        }
    }

    // Whether a close ends the run. A document that was there may come back; an address that never led to one is wrong.
    fn ends_by(&self, code: u16) -> bool
        ensures { is_final code ≡ true → result ≡ true }
    {
        is_final(code) || (code == NO_DOCUMENT && !self.knows_document())
    }

    // Tells of a close, and says what it makes of the turn.
    pub(crate) fn closed(&mut self, code: u16, words: &str) -> Turned {
        self.is_missing = code == NO_DOCUMENT;
        match self.tell_close(code, words) {
            Ok(()) if self.ends_by(code) => Turned::Ends(Status::LinkFault),
            Ok(()) => Turned::Gone,
            Err(stop) => Turned::from(stop),
        }
    }

    // The host has no document of this name: as if it had closed a link to it, once.
    pub(crate) fn missing(&mut self) -> Turned {
        if self.is_missing {
            return Turned::Gone;
        }
        self.closed(NO_DOCUMENT, "no such document")
    }
}
