//! Messages of others.
ghost use Rattle.std.specs.Prelude.{◌≡◌, ◌++◌, Some, None, option_map, IfOk, OnOk, OnErr, IsOk, IsTrue};
ghost use Rattle.edit_message.specs.Formed.{is_message};
ghost use Rattle.edit_message.specs.Message.{key_of, find_key};
ghost use Rattle.peer_core.specs.Known.{known_message};
ghost use Rattle.peer_core.specs.Peer.{missing, integrate};
ghost use Rattle.peer_core.specs.Sound.{is_foreign};
ghost use Rattle.peer_core.specs.Waiting.{MayIntegrate};
ghost use Rattle.peer_core.specs.Answers.{answer_receive, answer_missing, answer_taken};
ghost use Rattle.peer_core.specs.After.{changed_by, peer_after, takes_none};
ghost use Rattle.peer_step.specs.Lent.{answer_told, IsAnswerTold};

use super::Peer;
use crate::known::{Known, answer_known, told_known};
use coop_request::LentRequest;
use edit_message::{Key, Message, Missing};
use element_name::NoMemory;
use hold_back::{HoldFault, Need};
use peer_step::{Answer, RequestAnswer, Step};
use peer_tables::Sweep;

impl Peer {
    pub(super) fn receive<W: Sweep>(
        &mut self,
        message: Message,
        sweep: &W,
    ) -> Result<Answer, NoMemory>
        ensures answer { IfOk result (λ answer. answer ≡ answer_receive self.old message) }
        ensures after { OnOk result (self.new ≡ changed_by self.old (Step.Receive message) (answer_receive self.old message)) }
        ensures unchanged { OnErr result (self.new ≡ self.old) }
        ensures takes_none { IsTrue (takes_none (answer_receive self.old message)) → IsOk result }
    {
        if let Some(kept) = self.find(&message.key()) {
            return answer_known(&kept, &message);
        }
        if let Some(refusal) = self.receive_refusal(&message) {
            return Ok(refusal);
        }
        match self.journal.missing(&message) {
            Some(missing) => Ok(self.keep(message, &missing)?.answer()),
            None => self.take(message, sweep),
        }
    }

    /// A request comes, as `step` receives it, where its piece is lent and its answer is told in a few words: so no piece is
    /// moved. Nothing is told where another request of its name is here, which `step` gives. Takes the time and the memory of
    /// `step`, and has its clauses.
    pub fn receive_request(
        &mut self,
        request: &LentRequest<'_>,
    ) -> Result<Option<RequestAnswer>, NoMemory>
        ensures answer { IfOk result (λ told. IsAnswerTold (answer_receive self.old (Message.Coop request.now)) told) }
        ensures after { OnOk result (self.new ≡ peer_after self.old (Step.Receive (Message.Coop request.now))) }
        ensures other { IfOk result (λ told. told ≡ None → self.new ≡ self.old) }
        ensures unchanged { OnErr result (self.new ≡ self.old) }
        ensures takes_none { IsTrue (takes_none (answer_receive self.old (Message.Coop request.now))) → IsOk result }
    {
        if let Some(kept) = self.find(&Key::of_request(request)) {
            return Ok(told_known(&kept, request));
        }
        if let Some(refusal) = self.request_refusal(request) {
            return Ok(Some(refusal));
        }
        match self.journal.missing_request(request) {
            Some(missing) => Ok(Some(self.keep_request(request, &missing)?)),
            None => Ok(Some(RequestAnswer::Taken(self.take_request(request, None)?))),
        }
    }

    // The message of a key in journal or hold.
    fn find(&self, key: &Key) -> Option<Known<'_>>
        ensures { option_map known_message result ≡ find_key key.now (self.now.journal ++ self.now.held) }
    {
        match self.journal.find(*key) {
            Some(kept) => Some(Known::Joined(kept)),
            None => match self.hold.find(*key) {
                Some(held) => Some(Known::Held(held)),
                None => None,
            },
        }
    }

    // A foreign message of a new key is held, since it misses something.
    fn keep(&mut self, message: Message, what: &Missing) -> Result<RequestAnswer, NoMemory>
        requires missing { missing self.old message ≡ Some what.now }
        requires new { find_key (key_of message) (self.old.journal ++ self.old.held) ≡ None }
        requires formed { IsTrue (is_message message) }
        requires foreign { IsTrue (is_foreign self.old.site message) }
        ensures answer { IfOk result (λ told. answer_told told ≡ answer_missing self.old what.now) }
        ensures after { OnOk result (self.new ≡ changed_by self.old (Step.Receive message) (answer_missing self.old what.now)) }
        ensures unchanged { OnErr result (self.new ≡ self.old) }
        ensures takes_none { IsTrue (takes_none (answer_missing self.old what.now)) → IsOk result }
    {
        let need = Need::of(&message, *what);
        match self.hold.keep(message, need) {
            Ok(()) => Ok(RequestAnswer::Held(*what)),
            Err(HoldFault::Full) => Ok(RequestAnswer::HoldFull),
            Err(HoldFault::NoMemory) => Err(NoMemory),
        }
    }

    // The same of a lent request. It stands apart, since a message has room for a piece, which is filled where a function begins.
    #[inline(never)]
    fn keep_request(
        &mut self,
        request: &LentRequest<'_>,
        what: &Missing,
    ) -> Result<RequestAnswer, NoMemory>
        requires missing { missing self.old (Message.Coop request.now) ≡ Some what.now }
        requires new { find_key (key_of (Message.Coop request.now)) (self.old.journal ++ self.old.held) ≡ None }
        requires formed { IsTrue (is_message (Message.Coop request.now)) }
        requires foreign { IsTrue (is_foreign self.old.site (Message.Coop request.now)) }
        ensures answer { IfOk result (λ told. answer_told told ≡ answer_missing self.old what.now) }
        ensures after { OnOk result (self.new ≡ changed_by self.old (Step.Receive (Message.Coop request.now)) (answer_missing self.old what.now)) }
        ensures unchanged { OnErr result (self.new ≡ self.old) }
        ensures takes_none { IsTrue (takes_none (answer_missing self.old what.now)) → IsOk result }
    {
        self.keep(Message::Coop(request.request()), what)
    }

    // The message is integrated.
    fn take<W: Sweep>(&mut self, message: Message, sweep: &W) -> Result<Answer, NoMemory>
        requires { MayIntegrate self.old message }
        ensures answer { IfOk result (λ answer. answer ≡ answer_taken self.old message) }
        ensures after { OnOk result (self.new ≡ integrate self.old message) }
        ensures unchanged { OnErr result (self.new ≡ self.old) }
    {
        match message {
            Message::Coop(request) => Ok(Answer::Taken(self.take_request(&request.lent(), None)?)),
            Message::Admin(entry) => {
                let told = entry.copied()?;
                let undone = self.take_entry(entry, sweep)?;
                Ok(Answer::Advanced(told, undone))
            }
        }
    }
}
