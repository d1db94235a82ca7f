//! The sweep on several threads, as a peer may be given it.

use par_sweep::par_sweep;
use peer_core::Sweep;
use policy_book::{Policy, Reach};
use request_state::{StateTable, Undone};
use std::alloc::Global;
use std::marker::{PhantomData, Sync};
use std::thread::Threads;
use tomb_seq::TombSeq;

/// The leave of a runtime value to start threads. With it a sweep takes its verdicts on as many threads as there are
/// processors, and joins them.
///
/// In a program whose threads may wait no join is promised to return, and so no step with this sweep.
pub(crate) struct ManyThreads<R> {
    alloc: Global,
    leave: PhantomData<R>,
}

impl<R> Drop for ManyThreads<R> {
    fn drop(self) {
        let ManyThreads { alloc: _, leave: _ } = self;
    }
}

impl<R: Threads> Threads for ManyThreads<R> {}

impl<R: Threads + Sync> ManyThreads<R> {
    pub(crate) fn new(_rt: &R, alloc: Global) -> Self {
        ManyThreads {
            alloc,
            leave: PhantomData,
        }
    }
}

impl<R: Threads + Sync> Sweep for ManyThreads<R> {
    fn sweep(
        &self,
        reach: Reach,
        policy: &Policy,
        version: u32,
        states: &mut StateTable,
        seq: &TombSeq,
    ) -> Undone {
        par_sweep(self, self.alloc, reach, policy, version, states, seq)
    }
}
