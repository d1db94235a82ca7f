//! The two workers of a watch.
ghost use Rattle.std.specs.Prelude.{◌≡◌, ◌≤◌, [], ◌∷◌, List, length, IfOk, IfErr, OnOk};
ghost use Rattle.std.specs.Thread.{IsSync};
ghost use Rattle.peer_core.specs.Peer.{fresh_peer};
ghost use Rattle.peer_lock.specs.Rule.{newcomer};
ghost use Rattle.peer_lock.specs.Run.{peer_after_run, recorded};
ghost use Rattle.screen_read.specs.Pages.{IsNewest};
ghost use Rattle.form_watch.specs.Run.{each_shown, watch_run};
ghost use Rattle.form_watch.specs.Workers.{Opens, IsCurrent, Publishing, StopsShort, HasStopped, HasRead, BothBegin, AreReadPages};

use crate::limits::MAX_LINES;
use crate::reading::read_all;
use crate::writing::publish_all;
use element_name::NoMemory;
use peer_core::Peer;
use peer_lock::{History, Pass, SharedPeer};
use peer_step::Step;
use race_run::Gate;
use screen_read::{Page, Screen, ScreenFail, ScreenReader};
use std::alloc::Global;
use std::sync::Wait;
use std::thread::{Threads, join};

/// What a watch leaves.
#[derive(Drop)]
pub(crate) struct Watched {
    pub(crate) history: History,
    /// The pages that were read, in order.
    pub(crate) pages: Vec<Page>,
    /// The last page that was published.
    pub(crate) newest: Page,
}

// A shared peer with one pass.
fn start(alloc: Global, site: u16) -> Result<(SharedPeer, Pass), NoMemory>
    ensures { IfOk result (λ r. (r.1.table ≡ r.0) × (r.1.view ≡ newcomer 0 1 site)) }
{
    let (shared, mut passes) = SharedPeer::new(alloc, site, 1)?;
    let Some(pass) = passes.pop() else {
        unreachable!()
    };
    Ok((shared, pass))
}

// The screen of a pass, and its reader; or the pass, and why it has none.
fn open<'a, R: Threads + Wait + Sync>(
    rt: &'a R,
    alloc: Global,
    shared: &SharedPeer,
    mut pass: Pass,
) -> Result<(Pass, Screen<'a, R>, ScreenReader), (Pass, ScreenFail)>
    requires { pass.table ≡ shared.now }
    ensures opened { IfOk result (λ r. Opens pass r.0 r.1 r.2) }
    ensures stopped { IfErr result (λ r. StopsShort pass (Step.Show ∷ []) r.0 r.1) }
{
    match Screen::new(rt, alloc, shared, &mut pass) {
        Ok((screen, reader)) => Ok((pass, screen, reader)),
        Err(fail) => Err((pass, fail)),
    }
}

// One worker publishes on a thread of its own, and another reads on one.
fn work_beside<'a, R: Threads + Wait + Sync, G: Gate + Sync>(
    rt: &R,
    alloc: Global,
    shared: &SharedPeer,
    ends: (Pass, Screen<'a, R>, ScreenReader),
    steps: &[Step],
    reads: u32,
    gate: &G,
) -> (
    Result<(Pass, Screen<'a, R>), (Pass, ScreenFail)>,
    Result<(ScreenReader, Vec<Page>), NoMemory>,
)
    requires own { ends.0.table ≡ shared.now }
    requires current { IsCurrent ends.1 ends.0 }
    requires few { length steps.now ≤ MAX_LINES }
    ensures published { IfOk result.0 (λ r. Publishing ends.entry.1 ends.entry.0 steps.now r.1 r.0) }
    ensures stopped { IfErr result.0 (λ r. StopsShort ends.entry.0 (each_shown steps.now) r.0 r.1) }
    ensures many { IfOk result.1 (λ r. length r.1.items ≡ reads) }
    ensures read { IfOk result.1 (λ r. HasRead ends.entry.2 r.1.items r.0) }
{
    let (pass, screen, reader) = ends;
    join(
        rt,
        || -> Result<(Pass, Screen<R>), (Pass, ScreenFail)>
            requires { IsSync R.row × (pass.table ≡ shared.now) × IsCurrent screen pass × (length steps.now ≤ MAX_LINES) }
            ensures published { IfOk result (λ r. Publishing screen.entry pass steps.entry.now r.1 r.0) }
            ensures stopped { IfErr result (λ r. StopsShort pass (each_shown steps.entry.now) r.0 r.1) }
        { publish_all(rt, alloc, shared, pass, screen, steps, gate) },
        || -> Result<(ScreenReader, Vec<Page>), NoMemory>
            ensures many { IfOk result (λ r. length r.1.items ≡ reads) }
            ensures pages { IfOk result (λ r. HasRead reader r.1.items r.0) }
        { read_all(alloc, reader, reads, gate) },
    )
}

// The reader learns what the screen tells, and reads once more; then both end. Gives the last page that was told.
fn settle<R: Wait>(mut screen: Screen<'_, R>, mut reader: ScreenReader) -> Result<Page, NoMemory>
    requires { reader.table ≡ screen.table }
    ensures newest { IfOk result (λ page. IsNewest screen.entry.pages page) }
    ensures read { OnOk result (BothBegin reader.pages screen.entry.pages) }
{
    let told = screen.tell()?;
    let newest = told.newest().again()?;
    reader.learn(told);
    let last = reader.read()?;
    drop(last);
    screen.end(reader);
    Ok(newest)
}

// Ends a watch whose pass stopped: for want of memory. Once its run is closed it is known that it was never full.
fn end_short(shared: SharedPeer, stopped: (Pass, ScreenFail)) -> NoMemory
    requires own { stopped.0.table ≡ shared }
    requires stopped { HasStopped stopped.0 stopped.1 }
{
    let (pass, fail) = stopped;
    let closed = shared.close(pass);
    drop(closed);
    match fail {
        ScreenFail::RunFull => unreachable!(),
        ScreenFail::NoMemory => NoMemory,
    }
}

/// Makes the steps of a list over a shared peer of a site, and publishes the text before the first one and after each; on
/// another thread the pages are read so often.
///
/// It takes the time of the steps, of which each is followed by one that asks for the text, and the memory of the peer, of
/// the run and of the texts that were read.
pub(crate) fn watch<R: Threads + Wait + Sync, G: Gate + Sync>(
    rt: &R,
    alloc: Global,
    site: u16,
    steps: &[Step],
    reads: u32,
    gate: &G,
) -> Result<(Peer, Watched), NoMemory>
    requires { length steps.now ≤ MAX_LINES }
    ensures run { IfOk result (λ w. w.1.history ≡ recorded site (watch_run steps.now)) }
    ensures peer { IfOk result (λ w. w.0 ≡ peer_after_run (fresh_peer site) w.1.history.run) }
    ensures pages { IfOk result (λ w. AreReadPages site reads w.1.history.run w.1.pages.items w.1.newest) }
{
    let (shared, pass) = start(alloc, site)?;
    let ends = match open(rt, alloc, &shared, pass) {
        Ok(ends) => ends,
        Err(stopped) => return Err(end_short(shared, stopped)),
    };
    let (published, read) = work_beside(rt, alloc, &shared, ends, steps, reads, gate);
    let (pass, screen) = match published {
        Ok(published) => published,
        Err(stopped) => return Err(end_short(shared, stopped)),
    };
    let (reader, pages) = read?;
    let newest = settle(screen, reader)?;
    let (peer, history) = shared.close(pass);
    let watched = Watched {
        history,
        pages,
        newest,
    };
    Ok((peer, watched))
}
