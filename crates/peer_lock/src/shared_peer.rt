//! Shared peers.
ghost use Rattle.std.specs.Prelude.{◌≡◌, ◌≤◌, ◌<◌, ◌+◌, length, false, IfOk};
ghost use Rattle.peer_lock.specs.Answers.{IsSame, WithoutGate, AnswersTry, AnswersStep, ReadsCount, UnitesPasses, ClosesRun};
ghost use Rattle.peer_lock.specs.Dealt.{Dealt};

use crate::dealing::{deal, open};
use crate::fail::{StepFail, TryFail};
use crate::history::History;
use crate::limits::MAX_PASSES;
use crate::lock_table::LockTable;
use crate::many_threads::ManyThreads;
use crate::pass::Pass;
use crate::rule::Unite;
use element_name::NoMemory;
use peer_core::{OneThread, Peer, Sweep};
use peer_step::{Answer, Step};
use std::alloc::Global;
use std::marker::Model;
use std::sync::Wait;
use std::thread;
use std::thread::Threads;

/// One peer that threads share. Each steps it by a pass of its own, one step at a time: what a step is answered is the
/// answer at its place in one run of all steps.
///
/// Contracts see its name alone: no clause names the peer while others may step it. What is known of it stands in the
/// passes. A pass belongs to the shared peer that made it; each call asks for that.
#[derive(Drop)]
pub struct SharedPeer {
    lock: LockTable,
}

impl Model for SharedPeer {
    ghost use Rattle.atomic_table.specs.Seated.{TableId};

    ghost Value = { TableId };

    ghost view = { λ s. s.lock.table.shared.table_id };
}

impl SharedPeer {
    /// A shared peer that begins as the fresh peer of the site, and its passes, numbered from 0 in the list's order.
    pub fn new(alloc: Global, site: u16, passes: u32) -> Result<(SharedPeer, Vec<Pass>), NoMemory>
        requires { (0 < passes) × (passes ≤ MAX_PASSES) }
        ensures { IfOk result (λ r. Dealt r.0 site passes r.1.items) }
    {
        let (lock, seat) = open(alloc, site)?;
        let dealt = deal(&lock, alloc, seat, site, passes)?;
        Ok((SharedPeer { lock }, dealt))
    }

    /// Makes the step if the gate is free, and waits for nobody: one grab of the gate, and then the step, its count and
    /// the way back. A step that another pass makes at that moment gives `Busy`, and the step comes back.
    ///
    /// The gate is held while the step is made: for the time of `Peer::step`, copies of the step and of what is kept of its
    /// answer, and now and then the time in which the run doubles its room. A long step, such as an entry that undoes much, makes other passes'
    /// tries `Busy` for as long.
    pub fn try_step(&self, pass: &mut Pass, step: Step) -> Result<Answer, TryFail>
        requires { pass.old.table ≡ self.now }
        ensures same { IsSame pass.old pass.new }
        ensures gate { WithoutGate pass.old.view pass.new.view }
        ensures one { pass.new.view.tries ≡ pass.old.view.tries + 1 }
        ensures tries { AnswersTry pass.old.view step result pass.new.view }
    {
        self.try_step_by(pass, step, &OneThread)
    }

    // A try as `try_step` makes it, with this sweep. It returns if the sweep does.
    fn try_step_by<W: Sweep>(
        &self,
        pass: &mut Pass,
        step: Step,
        sweep: &W,
    ) -> Result<Answer, TryFail>
        requires { pass.old.table ≡ self.now }
        ensures same { IsSame pass.old pass.new }
        ensures gate { WithoutGate pass.old.view pass.new.view }
        ensures one { pass.new.view.tries ≡ pass.old.view.tries + 1 }
        ensures tries { AnswersTry pass.old.view step result pass.new.view }
    {
        let caller = pass.number;
        let counted = self.lock.go(&mut pass.seat, caller, step, sweep)?;
        pass.known = counted.count;
        Ok(counted.answer)
    }

    /// Tries until the gate is free, and lets other threads run between two tries. It waits for as long as others hold
    /// the gate: one that makes a long step, such as an entry that undoes much, makes all others wait for the whole of
    /// it. No order of turns is promised.
    ///
    /// Where it undoes requests, it takes their verdicts on as many threads as there are processors, and joins them.
    pub fn step<R: Threads + Wait + Sync>(
        &self,
        rt: &R,
        alloc: Global,
        pass: &mut Pass,
        step: Step,
    ) -> Result<Answer, StepFail>
        requires { pass.old.table ≡ self.now }
        ensures same { IsSame pass.old pass.new }
        ensures gate { WithoutGate pass.old.view pass.new.view }
        ensures steps { AnswersStep pass.old.view step result pass.new.view }
    {
        self.step_by(rt, pass, step, &ManyThreads::new(rt, alloc))
    }

    // A step as `step` makes it, with this sweep.
    fn step_by<R: Wait, W: Sweep>(
        &self,
        rt: &R,
        pass: &mut Pass,
        step: Step,
        sweep: &W,
    ) -> Result<Answer, StepFail>
        requires { pass.old.table ≡ self.now }
        ensures same { IsSame pass.old pass.new }
        ensures gate { WithoutGate pass.old.view pass.new.view }
        ensures steps { AnswersStep pass.old.view step result pass.new.view }
    {
        pass.rests();
        let mut left = step;
        for _ in rt.forever() {
            match self.try_step_by(pass, left, sweep) {
                Ok(answer) => return Ok(answer),
                Err(TryFail::Busy(back)) => left = back,
                Err(TryFail::RunFull) => return Err(StepFail::RunFull),
                Err(TryFail::NoMemory) => return Err(StepFail::NoMemory),
            }
            thread::yield_now();
        }
        unreachable!()
    }

    /// How many steps were counted, by one load. Waits for nobody, and takes no memory.
    pub fn seen(&self, pass: &mut Pass) -> u64
        requires { pass.old.table ≡ self.now }
        ensures same { IsSame pass.old pass.new }
        ensures gate { WithoutGate pass.old.view pass.new.view }
        ensures looks { ReadsCount pass.old.view result pass.new.view }
    {
        self.lock.look(&mut pass.seat)
    }

    /// Joins another pass into this one, which has then seen what both had seen, and stands for both. Waits for nobody, and
    /// takes no memory.
    pub fn join(&self, pass: &mut Pass, other: Pass)
        requires own { pass.old.table ≡ self.now }
        requires theirs { other.table ≡ self.now }
        ensures own { (pass.new.table ≡ pass.old.table) × (pass.new.id ≡ pass.old.id) }
        ensures gate { WithoutGate pass.old.view pass.new.view × (other.view.hand ≡ false) }
        ensures joins { UnitesPasses pass.old.view other.view pass.new.view }
    {
        let Pass {
            seat,
            number: _,
            weight,
            known,
        } = other;
        let most = pass.weight + weight;
        let known = pass.known.max(known);
        self.lock
            .table
            .shared
            .join_seat::<Unite>(&mut pass.seat, seat);
        self.lock.look(&mut pass.seat);
        pass.weight = most;
        pass.known = known;
    }

    /// The peer, and the history that leads to it. The pass stands for all: the others were joined into it.
    pub fn close(self, pass: Pass) -> (Peer, History)
        requires own { pass.table ≡ self }
        requires whole { length pass.view.numbers ≡ pass.view.made }
        ensures gate { pass.view.hand ≡ false }
        ensures closes { ClosesRun pass.view result.0 result.1.run }
        ensures site { result.1.site ≡ pass.view.origin }
    {
        let SharedPeer { lock } = self;
        let LockTable { table } = lock;
        let Pass {
            seat,
            number: _,
            weight: _,
            known: _,
        } = pass;
        let mut closed = table.close_with(seat);
        let recorder = closed.take(0);
        closed.free();
        recorder.into_parts()
    }
}
