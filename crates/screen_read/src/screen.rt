//! Screens.
ghost use Rattle.std.specs.Prelude.{◌≡◌, ◌++◌, ◌∷◌, [], ℕ, List, IfOk, OnOk, OnErr};
ghost use Rattle.peer_lock.specs.Answers.{IsSame, WithoutGate};
ghost use Rattle.screen_read.specs.Ends.{board_pages};
ghost use Rattle.screen_read.specs.Screen.{page_after, known_screen, ArePublished, IsPassOf, TriesShow, OpensScreen, Publishes};

use crate::fail::ScreenFail;
use crate::page::Page;
use crate::reader::ScreenReader;
use crate::told::Told;
use crate::writer::{PageWriter, open};
use element_name::NoMemory;
use peer_lock::{Pass, SharedPeer, StepFail};
use peer_step::{Answer, Step, Text};
use std::alloc::Global;
use std::marker::Model;
use std::snapshot::Snapshot;
use std::sync::Wait;
use std::thread::Threads;

/// Publishes the text of a shared peer, by one pass.
///
/// It keeps the handle, since its drop waits for a read that takes a page. Contracts see the name of its board, its pass as it was after the last page,
/// and the pages that were published.
#[derive(Drop)]
pub struct Screen<'a, R: Wait> {
    writer: PageWriter<'a, R>,
    pass: Snapshot<Pass>,
}

impl<'a, R: Wait> Model for Screen<'a, R> {
    ghost use Rattle.screen_read.specs.Screen.{KnownScreen, known_screen, ArePublished};

    ghost Value = { KnownScreen };

    ghost view = { λ s. known_screen s.writer.table s.pass.value s.writer.pages };

    ghost invariant = { λ s. ArePublished s.pass.value.view s.writer.pages };
}

// The text that a peer shows.
fn text_in(answer: Answer) -> Text
    requires { (pieces : List (List ℕ)) × (answer ≡ Answer.Shown pieces) }
    ensures { answer ≡ Answer.Shown result }
{
    match answer {
        Answer::Shown(text) => text,
        _ => unreachable!(),
    }
}

// Asks the shared peer for its text, as a step of the pass.
fn show<R: Threads + Wait + Sync>(
    rt: &R,
    alloc: Global,
    shared: &SharedPeer,
    pass: &mut Pass,
) -> Result<Page, ScreenFail>
    requires { pass.old.table ≡ shared.now }
    ensures same { IsSame pass.old pass.new }
    ensures gate { WithoutGate pass.old.view pass.new.view }
    ensures step { TriesShow pass.old.view result pass.new.view }
    ensures page { IfOk result (λ p. p ≡ page_after pass.new.view.origin pass.new.view.seen) }
{
    let answer = match shared.step(rt, alloc, pass, Step::Show) {
        Ok(answer) => answer,
        Err(StepFail::RunFull) => return Err(ScreenFail::RunFull),
        Err(StepFail::NoMemory) => return Err(ScreenFail::NoMemory),
    };
    match Page::new(alloc, pass.known(), text_in(answer)) {
        Ok(page) => Ok(page),
        Err(_) => Err(ScreenFail::NoMemory),
    }
}

// A screen with its first page.
fn screen_of<'a, R: Wait>(writer: PageWriter<'a, R>, pass: &Pass) -> Screen<'a, R>
    requires { writer.pages ≡ page_after pass.now.view.origin pass.now.view.seen ∷ [] }
    ensures screen { result ≡ known_screen writer.entry.table pass.now writer.entry.pages }
    ensures published { ArePublished result.pass.view result.pages }
{
    Screen {
        writer,
        pass: Snapshot::of(pass),
    }
}

impl<R: Wait> Screen<'_, R> {
    // What was published is of the run that the pass has seen.
    fn stands(&self)
        ensures { ArePublished self.now.pass.view self.now.pages }
    {
        let _writer = &self.writer;
    }

    // Publishes the page of the pass.
    fn follow(&mut self, pass: &Pass, page: Page) -> Result<(), NoMemory>
        requires { ArePublished pass.now.view (self.old.pages ++ page ∷ []) }
        ensures ok { OnOk result (self.new ≡ known_screen self.old.table pass.now (self.old.pages ++ page ∷ [])) }
        ensures err { OnErr result (self.new ≡ self.old) }
    {
        self.writer.publish(page)?;
        self.pass = Snapshot::of(pass);
        Ok(())
    }

    /// The pages so far, for the screen's reader to learn. Fails where there is no memory, or the last text has as many
    /// pages as can be counted.
    pub fn tell(&mut self) -> Result<Told, NoMemory>
        ensures told { IfOk result (λ t. t ≡ board_pages self.old.table self.old.pages) }
        ensures same { self.new ≡ self.old }
        ensures published { ArePublished self.old.pass.view self.old.pages }
    {
        self.stands();
        self.writer.tell()
    }

    /// Ends the screen and its reader.
    pub fn end(self, reader: ScreenReader)
        requires { reader.table ≡ self.table }
    {
        drop(reader);
        drop(self);
    }
}

impl<'a, R: Threads + Wait + Sync> Screen<'a, R> {
    /// A screen of the shared peer, and its reader. Makes one `Show` step with the pass, and publishes its page: it takes
    /// the time of that step.
    pub fn new(
        rt: &'a R,
        alloc: Global,
        shared: &SharedPeer,
        pass: &mut Pass,
    ) -> Result<(Screen<'a, R>, ScreenReader), ScreenFail>
        requires { pass.old.table ≡ shared.now }
        ensures same { IsSame pass.old pass.new }
        ensures gate { WithoutGate pass.old.view pass.new.view }
        ensures step { TriesShow pass.old.view result pass.new.view }
        ensures opens { IfOk result (λ r. OpensScreen pass.new r.0 r.1) }
        ensures published { IfOk result (λ r. ArePublished r.0.pass.view r.0.pages) }
    {
        let page = show(rt, alloc, shared, pass)?;
        let Ok((writer, reader)) = open(rt, alloc, page) else {
            return Err(ScreenFail::NoMemory);
        };
        Ok((screen_of(writer, pass), reader))
    }

    /// Makes one `Show` step with the pass that the screen was made with, publishes its page, and gives the page's steps.
    /// It takes the time of that step, and waits for the gate of the shared peer, and for a read that takes the page before
    /// the last.
    pub fn publish(
        &mut self,
        rt: &R,
        alloc: Global,
        shared: &SharedPeer,
        pass: &mut Pass,
    ) -> Result<u64, ScreenFail>
        requires own { pass.old.table ≡ shared.now }
        requires pass { IsPassOf self.old pass.old }
        ensures same { IsSame pass.old pass.new }
        ensures gate { WithoutGate pass.old.view pass.new.view }
        ensures step { TriesShow pass.old.view result pass.new.view }
        ensures publishes { Publishes self.old pass.new result self.new }
        ensures published { ArePublished self.new.pass.view self.new.pages }
    {
        self.stands();
        let page = show(rt, alloc, shared, pass)?;
        let steps = page.steps();
        match self.follow(pass, page) {
            Ok(()) => Ok(steps),
            Err(_) => Err(ScreenFail::NoMemory),
        }
    }
}
