//! The table of a shared peer, and the single moves on it.
ghost use Rattle.std.specs.Prelude.{◌≡◌, ◌<◌, [], ◌∷◌, length, false, MatchBool};
ghost use Rattle.peer_lock.specs.Rule.{turned_away, counting, freeing, run_of};
ghost use Rattle.peer_lock.specs.Moves.{Took, HasSlot, Entered, CanCount, CanFree, Looked, Went};

use crate::call::CountedStep;
use crate::fail::{StepFail, TryFail};
use crate::limits::MAX_RUN;
use crate::recorder::Recorder;
use crate::rule::{Count, Free, Grab, Look, OneRun};
use crate::view::View;
use atomic_table::{Seat, Table};
use peer_core::Sweep;
use peer_step::{Answer, Step};
use std::alloc::Global;

// The word that is 0 where the gate is free, and 1 where it is taken.
const GATE: usize = 0;

// The word that counts the steps of the run.
const COUNT: usize = 1;

/// A gate word, a count word, and one slot with the peer. What is in the slot is at home while the gate is free.
#[derive(Drop)]
pub struct LockTable {
    pub(crate) table: Table<Recorder, View, u16, OneRun, Global>,
    ghost sized: { (table.shared.table_id.words ≡ 2) × (table.shared.table_id.slots ≡ 1) },
}

impl LockTable {
    // True where the gate was free. The seat has it then, with the slot.
    fn grab(&self, seat: &mut Seat<Recorder, View>) -> bool
        requires own { seat.old.table_id ≡ self.now.table.shared.table_id }
        requires idle { (seat.old.me.1 ≡ []) × (0 < length seat.old.me.0.numbers) × (seat.old.me.0.hand ≡ false) }
        ensures own { (seat.new.table_id ≡ seat.old.table_id) × (seat.new.id ≡ seat.old.id) }
        ensures moves { MatchBool result (Took seat.old.me seat.new.me) (seat.new.me ≡ (turned_away seat.old.me.0, [])) }
    {
        self.table.shared.compare_exchange::<Grab>(seat, GATE, 0, 1) == 0
    }

    // Makes the step on the peer in the slot.
    fn enter<W: Sweep>(
        &self,
        seat: &mut Seat<Recorder, View>,
        caller: u32,
        step: Step,
        sweep: &W,
    ) -> Result<Answer, StepFail>
        requires own { seat.old.table_id ≡ self.now.table.shared.table_id }
        requires slot { HasSlot seat.old.me }
        ensures own { (seat.new.table_id ≡ seat.old.table_id) × (seat.new.id ≡ seat.old.id) }
        ensures moves { Entered seat.old.me caller step result seat.new.me }
    {
        let recorder = seat.slot_mut(&self.table.shared, 0);
        if recorder.len() >= MAX_RUN {
            return Err(StepFail::RunFull);
        }
        match recorder.make(caller, step, sweep) {
            Ok(answer) => Ok(answer),
            Err(_) => Err(StepFail::NoMemory),
        }
    }

    // How many steps the run has with the one that is counted here.
    fn count(&self, seat: &mut Seat<Recorder, View>) -> u64
        requires own { seat.old.table_id ≡ self.now.table.shared.table_id }
        requires can { CanCount seat.old.me }
        ensures own { (seat.new.table_id ≡ seat.old.table_id) × (seat.new.id ≡ seat.old.id) }
        ensures moves { seat.new.me ≡ (counting seat.old.me.0 (run_of seat.old.me.1), seat.old.me.1) }
        ensures all { result ≡ length seat.new.me.0.seen }
    {
        self.table.shared.fetch_add::<Count>(seat, COUNT, 1) + 1
    }

    fn free(&self, seat: &mut Seat<Recorder, View>)
        requires own { seat.old.table_id ≡ self.now.table.shared.table_id }
        requires can { CanFree seat.old.me }
        ensures own { (seat.new.table_id ≡ seat.old.table_id) × (seat.new.id ≡ seat.old.id) }
        ensures moves { seat.new.me ≡ (freeing seat.old.me.0, []) }
    {
        self.table.shared.store::<Free>(seat, GATE, 0);
    }

    // How many steps were counted.
    pub(crate) fn look(&self, seat: &mut Seat<Recorder, View>) -> u64
        requires own { seat.old.table_id ≡ self.now.table.shared.table_id }
        requires live { 0 < length seat.old.me.0.numbers }
        ensures own { (seat.new.table_id ≡ seat.old.table_id) × (seat.new.id ≡ seat.old.id) }
        ensures moves { Looked seat.old.me result seat.new.me }
    {
        self.table.shared.load::<Look>(seat, COUNT)
    }

    // One try: a grab, and where the gate was free the step, its count and the way back. A step that isn't made is
    // followed by a load of the count, by which the pass knows whether the run is full.
    pub(crate) fn go<W: Sweep>(
        &self,
        seat: &mut Seat<Recorder, View>,
        caller: u32,
        step: Step,
        sweep: &W,
    ) -> Result<CountedStep, TryFail>
        requires own { seat.old.table_id ≡ self.now.table.shared.table_id }
        requires idle { (seat.old.me.1 ≡ []) × (0 < length seat.old.me.0.numbers) × (seat.old.me.0.hand ≡ false) × (seat.old.me.0.olds ≡ []) × (seat.old.me.0.number ≡ caller) }
        ensures own { (seat.new.table_id ≡ seat.old.table_id) × (seat.new.id ≡ seat.old.id) }
        ensures moves { Went seat.old.me caller step result seat.new.me }
    {
        if !self.grab(seat) {
            return Err(TryFail::Busy(step));
        }
        match self.enter(seat, caller, step, sweep) {
            Ok(answer) => {
                let count = self.count(seat);
                self.free(seat);
                Ok(CountedStep { answer, count })
            }
            Err(StepFail::RunFull) => {
                self.look(seat);
                self.free(seat);
                Err(TryFail::RunFull)
            }
            Err(StepFail::NoMemory) => {
                self.look(seat);
                self.free(seat);
                Err(TryFail::NoMemory)
            }
        }
    }
}
