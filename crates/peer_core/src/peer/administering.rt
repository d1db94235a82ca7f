//! The administrator's steps.
ghost use Rattle.std.specs.Prelude.{◌≡◌, ◌<◌, None, IfOk, OnOk, OnErr, IsOk, IsTrue};
ghost use Rattle.element_name.specs.declared.limits.TheConstants.{MAX_VERSION};
ghost use Rattle.coop_request.specs.History.{elements_of};
ghost use Rattle.edit_message.specs.Missing.{missing_end};
ghost use Rattle.admin_log.specs.Log.{entry_fault};
ghost use Rattle.peer_core.specs.Peer.{front, history, log, integrate};
ghost use Rattle.peer_core.specs.Answers.{answer_administer, answer_validate_next, answer_issued, next_entry};
ghost use Rattle.peer_core.specs.After.{changed_by, takes_none};

use super::Peer;
use edit_message::Message;
use element_name::{MAX_VERSION, NoMemory};
use peer_step::{Answer, Step};
use peer_tables::Sweep;
use policy_book::{AdminOp, Entry};

impl Peer {
    pub(super) fn administer<W: Sweep>(
        &mut self,
        op: AdminOp,
        sweep: &W,
    ) -> Result<Answer, NoMemory>
        ensures answer { IfOk result (λ answer. answer ≡ answer_administer self.old op) }
        ensures after { OnOk result (self.new ≡ changed_by self.old (Step.Administer op) (answer_administer self.old op)) }
        ensures unchanged { OnErr result (self.new ≡ self.old) }
        ensures takes_none { IsTrue (takes_none (answer_administer self.old op)) → IsOk result }
    {
        if let Some(refusal) = self.administer_refusal(&op) {
            return Ok(refusal);
        }
        self.issue(op, sweep)
    }

    pub(super) fn validate_next<W: Sweep>(&mut self, sweep: &W) -> Result<Answer, NoMemory>
        ensures answer { IfOk result (λ answer. answer ≡ answer_validate_next self.old) }
        ensures after { OnOk result (self.new ≡ changed_by self.old Step.ValidateNext (answer_validate_next self.old)) }
        ensures unchanged { OnErr result (self.new ≡ self.old) }
        ensures takes_none { IsTrue (takes_none (answer_validate_next self.old)) → IsOk result }
    {
        if let Some(refusal) = self.log_refusal() {
            return Ok(refusal);
        }
        match self.journal.first_tentative() {
            Some(id) => self.issue(AdminOp::Validate(id), sweep),
            None => Ok(Answer::NothingTentative),
        }
    }

    // The entry of the next version is made and joins the journal.
    fn issue<W: Sweep>(&mut self, op: AdminOp, sweep: &W) -> Result<Answer, NoMemory>
        requires administrator { self.old.site ≡ 0 }
        requires room { front self.old < MAX_VERSION }
        requires legal { entry_fault (log self.old) op ≡ None }
        requires ends { missing_end (elements_of (history self.old)) op ≡ None }
        ensures answer { IfOk result (λ answer. answer ≡ answer_issued self.old (next_entry self.old op)) }
        ensures after { OnOk result (self.new ≡ integrate self.old (Message.Admin (next_entry self.old op))) }
        ensures unchanged { OnErr result (self.new ≡ self.old) }
    {
        let Some(entry) = Entry::checked(self.journal.front() + 1, op) else {
            unreachable!()
        };
        let told = entry.copied()?;
        let undone = self.take_entry(entry, sweep)?;
        Ok(Answer::Issued(told, undone))
    }
}
