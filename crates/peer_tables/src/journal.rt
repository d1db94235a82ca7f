//! The journal, with what is kept of it.
ghost use Rattle.std.specs.Prelude.{◌≡◌, ◌<◌, ◌≤◌, [], ◌∷◌, ◌++◌, Some, true, length, slice_get, option_map, is_some, IfOk, OnOk, OnErr};
ghost use Rattle.std.specs.Option.{option_copied};
ghost use Rattle.element_name.specs.declared.limits.TheConstants.{MAX_STAMP, MAX_VERSION};
ghost use Rattle.element_name.specs.Cases.{when};
ghost use Rattle.element_name.specs.Name.{has_name};
ghost use Rattle.element_name.specs.Places.{place_in};
ghost use Rattle.coop_request.specs.declared.request.TheConstants.{MAX_REQUESTS};
ghost use Rattle.coop_request.specs.History.{elements_of, request_of, text_order, FollowsHistory};
ghost use Rattle.policy_book.specs.Entry.{Entry};
ghost use Rattle.edit_message.specs.declared.message.Message.TheVariants.{Coop, Admin};
ghost use Rattle.edit_message.specs.Message.{find_key, requests_of, entries_of};
ghost use Rattle.edit_message.specs.Missing.{missing_end};
ghost use Rattle.auth_match.specs.Coverage.{covers};
ghost use Rattle.admin_log.specs.Log.{policy_of, entry_fault, FollowsLog};
ghost use Rattle.check_local.specs.Local.{with_version};
ghost use Rattle.check_remote.specs.State.{verdict_at};
ghost use Rattle.peer_tables.specs.Derived.{is_full_journal, state_in, cell_in, shown_in, text_in, missing_in, undone_between, greatest_stamp};
ghost use Rattle.peer_tables.specs.Kept.{IsGivenState};
ghost use Rattle.peer_tables.specs.Journal.{FollowsJournal, IsWithin};
ghost use Rattle.peer_tables.specs.Awaiting.{least_awaiting};
ghost use Rattle.peer_tables.specs.Undoing.{AreOfTentative, HaveUndone, next_reach};

use crate::advance::advance;
use crate::item::{JournalItem, item_of};
use crate::items::Items;
use crate::join::{join, judged, validated_state};
use crate::missing::{missed_by_request, missing, missing_end};
use crate::sweep::Sweep;
use crate::text::text_of;
use admin_log::AdminLog;
use auth_match::{Verdict, covers};
use check_local::{LocalVerdict, check_local};
use coop_request::{LentRequest, MAX_REQUESTS};
use edit_message::{Key, Message, Missing};
use elem_show::Cell;
use element_name::{Name, NoMemory};
use peer_step::Text;
use policy_book::{AdminOp, Entry, EntryFault, Extent, Policy, Reach};
use request_state::{State, StateTable, Undone};
use retro_undo::{Taken, list_reach};
use std::alloc::Global;
use std::marker::Model;
use tomb_seq::TombSeq;

/// Messages in order of integration, and what is kept of them: the log, the elements in text order with the
/// marks of those that show, the states with what is counted of each element, and the greatest stamp.
#[derive(Drop)]
pub struct Journal {
    alloc: Global,
    items: Items,
    log: AdminLog,
    seq: TombSeq,
    states: StateTable,
    stamp: u64,
    requests: u32,
}

impl Model for Journal {
    ghost use Rattle.std.specs.Prelude.{List};
    ghost use Rattle.edit_message.specs.declared.message.Message.{Message};
    ghost use Rattle.peer_tables.specs.Kept.{IsKeptOf};

    ghost Value = { List Message };

    ghost view = { λ j. j.items };

    ghost invariant = { λ j. IsKeptOf j.items j.log j.seq j.states j.stamp j.requests };
}

impl Journal {
    /// The journal of nothing.
    pub fn new(alloc: Global) -> Result<Journal, NoMemory>
        ensures { IfOk result (λ journal. journal ≡ []) }
    {
        Ok(Journal {
            alloc,
            items: Items::new(alloc),
            log: AdminLog::new(alloc)?,
            seq: TombSeq::new(alloc),
            states: StateTable::new(alloc),
            stamp: 0,
            requests: 0,
        })
    }

    // ---- readers, which take no memory

    /// How many messages it has.
    #[tactic(auto, using(crate::proofs::KeptLemmas::Reads::within, crate::proofs::KeptLemmas::Reads::sizes))]
    pub fn len(&self) -> u32
        ensures count { result ≡ length self.now }
        ensures within { IsWithin self.now }
    {
        self.items.len() as u32
    }

    /// The message at a place in order of integration.
    pub fn at(&self, i: u32) -> Option<JournalItem<'_>>
        ensures { result ≡ slice_get self.now i }
    {
        self.item(i as usize)
    }

    /// The message of a key: one look-up by the key's hash, and one in the tables where it is there.
    pub fn find(&self, key: Key) -> Option<JournalItem<'_>>
        ensures { result ≡ find_key key self.now }
    {
        self.item(self.items.number(key)?)
    }

    // The message at a place.
    fn item(&self, i: usize) -> Option<JournalItem<'_>>
        ensures { result ≡ slice_get self.now i }
    {
        item_of(&self.states, &self.log, self.items.key(i)?)
    }

    /// Whether it has a message of a key: one look-up by the key's hash.
    pub fn has(&self, key: Key) -> bool
        ensures { result ≡ is_some (find_key key self.now) }
    {
        self.items.number(key).is_some()
    }

    /// The version of its policy.
    pub fn front(&self) -> u32
        ensures count { result ≡ length (entries_of self.now) }
        ensures few { result ≤ MAX_VERSION }
    {
        self.log.len()
    }

    /// Whether it has as many requests as there may be.
    pub fn is_full(&self) -> bool
        ensures { result ≡ is_full_journal self.now }
    {
        self.requests as usize >= MAX_REQUESTS
    }

    /// The greatest stamp of its requests.
    #[tactic(auto, using(crate::proofs::KeptLemmas::Reads::stamps_within))]
    pub fn stamp(&self) -> u64
        ensures greatest { result ≡ greatest_stamp (requests_of self.now) }
        ensures in_range { result ≤ MAX_STAMP }
    {
        self.stamp
    }

    /// The policy of its front.
    pub fn policy(&self) -> &Policy
        ensures { result.now ≡ policy_of (entries_of self.now) }
    {
        self.log.policy()
    }

    /// Whether an extent covers an element.
    #[tactic(auto, using(crate::proofs::KeptLemmas::Reads::read_names))]
    pub fn covers(&self, extent: &Extent, element: Name) -> bool
        requires { has_name (text_order (requests_of self.now)) element ≡ true }
        ensures { result ≡ covers (text_order (requests_of self.now)) extent.now element }
    {
        covers(&self.seq, extent, element)
    }

    /// The fault of an operation as the next entry's.
    pub fn legal(&self, op: &AdminOp) -> Option<EntryFault>
        ensures { result ≡ entry_fault (entries_of self.now) op.now }
    {
        self.log.legal(op)
    }

    /// What a message misses.
    pub fn missing(&self, message: &Message) -> Option<Missing>
        ensures { result ≡ missing_in self.now message.now }
    {
        missing(self.log.len(), &self.seq, message)
    }

    /// What a request misses.
    pub fn missing_request(&self, request: &LentRequest<'_>) -> Option<Missing>
        ensures { result ≡ missing_in self.now (Message.Coop request.now) }
    {
        missed_by_request(self.log.len(), &self.seq, request)
    }

    /// The first end of an operation's span that is no element.
    pub fn missing_end(&self, op: &AdminOp) -> Option<Missing>
        ensures { result ≡ missing_end (elements_of (requests_of self.now)) op.now }
    {
        missing_end(&self.seq, op)
    }

    /// The state of the request of a name.
    #[tactic(auto, using(crate::proofs::KeptLemmas::Reads::read_state))]
    pub fn state(&self, id: Name) -> Option<&State>
        ensures { option_copied result ≡ option_map (state_in (requests_of self.now) (entries_of self.now)) (request_of (requests_of self.now) id) }
    {
        self.states.state(id)
    }

    /// The cell of an element, lent.
    #[tactic(auto, using(crate::proofs::KeptLemmas::Reads::read_cell))]
    pub fn cell(&self, element: Name) -> Option<Cell<'_>>
        ensures { result ≡ cell_in (requests_of self.now) (entries_of self.now) element }
    {
        self.states.cell(element)
    }

    /// How many elements show.
    #[tactic(auto, using(crate::proofs::KeptLemmas::Reads::read_shown, crate::proofs::KeptLemmas::Reads::few_shown))]
    pub fn shown(&self) -> u32
        ensures { result ≡ length (shown_in (requests_of self.now) (entries_of self.now)) }
    {
        self.seq.shown() as u32
    }

    /// The element at a place among those that show.
    #[tactic(auto, using(crate::proofs::KeptLemmas::Reads::read_shown))]
    pub fn shown_at(&self, i: u32) -> Option<Name>
        ensures { result ≡ slice_get (shown_in (requests_of self.now) (entries_of self.now)) i }
    {
        self.seq.shown_at(i as usize)
    }

    /// The place of an element in text order.
    #[tactic(auto, using(crate::proofs::KeptLemmas::Reads::read_names))]
    pub fn place_of(&self, element: Name) -> Option<usize>
        ensures { result ≡ when (has_name (text_order (requests_of self.now)) element) (place_in (text_order (requests_of self.now)) element) }
    {
        self.seq.place_of(element)
    }

    /// The least name of a request that awaits its validation.
    #[tactic(auto, using(crate::proofs::KeptLemmas::Least::journal_awaiting))]
    pub fn first_tentative(&self) -> Option<Name>
        ensures { result ≡ least_awaiting (requests_of self.now) (entries_of self.now) }
    {
        self.states.first_tentative()
    }

    /// The verdict of the front on a request that may be made, at the place that its element will have.
    pub fn verdict(&self, request: &LentRequest<'_>) -> LocalVerdict
        requires { FollowsHistory (requests_of self.now) request.now }
        ensures { result ≡ with_version (length (entries_of self.now))
            (verdict_at (text_order (requests_of self.now ++ request.now ∷ [])) (entries_of self.now) request.now (length (entries_of self.now))) }
    {
        check_local(
            self.log.policy(),
            self.log.len(),
            request.user(),
            request.right(),
            judged(request),
            &self.seq,
        )
    }

    /// The state of a request that may be made and that the front grants: its range is the front alone.
    pub fn granted_state(&self, request: &LentRequest<'_>) -> State
        requires here { request.now.version ≡ length (entries_of self.now) }
        requires granted { verdict_at (text_order (requests_of self.now ++ request.now ∷ [])) (entries_of self.now) request.now (length (entries_of self.now)) ≡ Verdict.Granted }
        ensures { result ≡ state_in (requests_of self.now ++ request.now ∷ []) (entries_of self.now) request.now }
    {
        validated_state(self.log.validated(request.id()))
    }

    // ---- what takes memory

    /// The pieces that show.
    pub fn text(&self) -> Result<Text, NoMemory>
        ensures { IfOk result (λ text. text ≡ text_in (requests_of self.now) (entries_of self.now)) }
    {
        text_of(self.alloc, &self.seq, &self.states)
    }

    /// The elements of the Tentative requests that an entry with this operation may undo; none without an operation.
    pub fn undoable(&self, op: Option<&AdminOp>) -> Result<Vec<Name>, NoMemory>
        ensures tentative { IfOk result (λ elements. AreOfTentative (requests_of self.now) (entries_of self.now) elements.items) }
        ensures undone { IfOk result (λ elements. (e : Entry) → FollowsLog (entries_of self.now) e → option_copied op.entry ≡ Some e.op
            → HaveUndone (requests_of self.now) (entries_of self.now) (entries_of self.now ++ e ∷ []) elements.items) }
    {
        list_reach(self.alloc, Taken::Element, &self.reach(op), &self.states)
    }

    // Whose requests the next entry may deny, if its operation is legal.
    fn reach(&self, op: Option<&AdminOp>) -> Reach
        ensures { result ≡ next_reach (entries_of self.now) (option_copied op.entry) }
    {
        let Some(op) = op else {
            return Reach::Nobody;
        };
        if self.log.legal(op).is_some() {
            return Reach::Nobody;
        }
        self.log.policy().narrowed_reach(op)
    }

    /// Puts a request last, judging it where its state isn't given, and answers its state.
    pub fn push_request(
        &mut self,
        request: &LentRequest<'_>,
        given: Option<State>,
    ) -> Result<State, NoMemory>
        requires follows { FollowsJournal self.old (Coop request.now) }
        requires room { length (requests_of self.old) < MAX_REQUESTS }
        requires given { IsGivenState given (text_order (requests_of self.old ++ request.now ∷ [])) (entries_of self.old) request.now }
        ensures ok { OnOk result (self.new ≡ self.old ++ Coop request.now ∷ []) }
        ensures state { IfOk result (λ state. state ≡ state_in (requests_of self.old ++ request.now ∷ []) (entries_of self.old) request.now) }
        ensures unchanged { OnErr result (self.new ≡ self.old) }
    {
        self.items.push_request(request)?;
        match join(&self.log, &mut self.seq, &mut self.states, request, given) {
            Ok(state) => {
                self.stamp = self.stamp.max(request.id().stamp());
                self.requests += 1;
                Ok(state)
            }
            Err(NoMemory) => {
                self.items.cut_last();
                Err(NoMemory)
            }
        }
    }

    /// Puts an entry last, and answers how many requests it undid.
    pub fn push_entry<W: Sweep>(&mut self, entry: Entry, sweep: &W) -> Result<Undone, NoMemory>
        requires { FollowsJournal self.old (Admin entry) }
        ensures ok { OnOk result (self.new ≡ self.old ++ Admin entry ∷ []) }
        ensures undone { IfOk result (λ undone. undone.count ≡ undone_between (requests_of self.old) (entries_of self.old) (entries_of self.old ++ entry ∷ [])) }
        ensures unchanged { OnErr result (self.new ≡ self.old) }
    {
        self.items.push_entry(&entry)?;
        match advance(
            self.alloc,
            &mut self.log,
            &mut self.seq,
            &mut self.states,
            entry,
            sweep,
        ) {
            Ok(undone) => Ok(undone),
            Err(NoMemory) => {
                self.items.cut_last();
                Err(NoMemory)
            }
        }
    }
}
