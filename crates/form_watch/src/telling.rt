//! What is written of a watch.
ghost use Rattle.std.specs.Prelude.{◌≡◌, ◌++◌, ℕ, List, flat_map, map};
ghost use Rattle.line_engine.specs.Engine.{Says, StatusCause};
ghost use Rattle.line_engine.specs.Output.{bad_line};
ghost use Rattle.peer_core.specs.Peer.{fresh_peer};
ghost use Rattle.peer_lock.specs.Run.{peer_after_run};
ghost use Rattle.report_run.specs.Report.{report};
ghost use Rattle.report_run.specs.Telling.{Tells, TellsCause};
ghost use Rattle.form_watch.specs.Reads.{page_line};
ghost use Rattle.form_watch.specs.Workers.{told_page};
ghost use Rattle.form_watch.specs.Watch.{done_with};

use crate::lines::put_page;
use crate::watching::Watched;
use edit_io::Sink;
use line_engine::{Status, put_bad_line, say};
use peer_core::Peer;
use report_run::report;
use screen_read::Page;
use std::alloc::Global;

// The page that was read, or the last one that was told where it has more steps than that.
fn told_page<'a>(newest: &'a Page, page: &'a Page) -> &'a Page
    ensures { result.now ≡ told_page newest.now page.now }
{
    if newest.steps() < page.steps() {
        newest
    } else {
        page
    }
}

// Writes the line of a page.
fn tell_page<K: Sink>(alloc: Global, page: &Page, sink: &mut K) -> Result<(), Status>
    ensures tells { Tells (K.written sink.old) (K.written sink.new) (page_line page.now) result }
    ensures cause { TellsCause (K.faults sink.old) (K.faults sink.new) result }
{
    let mut line = Vec::new(alloc);
    if let Err(_) = put_page(page, &mut line) {
        return Err(Status::NoMemory);
    }
    match say(sink, &line, Status::Done) {
        Status::Done => Ok(()),
        status => Err(status),
    }
}

// Writes the lines of the pages that were read, in order.
fn tell_pages<K: Sink>(
    alloc: Global,
    pages: &[Page],
    newest: &Page,
    sink: &mut K,
) -> Result<(), Status>
    ensures tells { Tells (K.written sink.old) (K.written sink.new) (flat_map page_line (map (told_page newest.now) pages.now)) result }
    ensures cause { TellsCause (K.faults sink.old) (K.faults sink.new) result }
{
    for page in pages {
        tell_page(alloc, told_page(newest, page), sink)?;
    }
    Ok(())
}

/// Writes the report of a run, and then the lines of the pages that were read beside it.
pub(crate) fn tell_watched<K: Sink>(
    alloc: Global,
    peer: Peer,
    watched: &Watched,
    sink: &mut K,
) -> Status
    requires { peer ≡ peer_after_run (fresh_peer watched.now.history.site) watched.now.history.run }
    ensures says { (written : List ℕ) ×
        Says (K.written sink.old) (K.written sink.new) result
        (done_with (report watched.now.history.site watched.now.history.run
        ++ flat_map page_line (map (told_page watched.now.newest) watched.now.pages.items))) written }
    ensures cause { StatusCause (K.faults sink.old) (K.faults sink.new) result Status.WriteFault }
{
    match report(alloc, peer, &watched.history, sink) {
        Status::Done => match tell_pages(alloc, &watched.pages, &watched.newest, sink) {
            Ok(()) => Status::Done,
            Err(status) => status,
        },
        failed => failed,
    }
}

/// Writes the line that says which line is bad.
pub(crate) fn tell_bad_line<K: Sink>(alloc: Global, number: u64, sink: &mut K) -> Status
    ensures says { (written : List ℕ) × Says (K.written sink.old) (K.written sink.new) result (bad_line number) written }
    ensures cause { StatusCause (K.faults sink.old) (K.faults sink.new) result Status.WriteFault }
{
    let mut line = Vec::new(alloc);
    match put_bad_line(alloc, number, &mut line) {
        Ok(()) => say(sink, &line, Status::BadInput),
        Err(_) => Status::NoMemory,
    }
}
