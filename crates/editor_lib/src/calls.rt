//! The calls. `editor_open` and `editor_restore` want an empty slot, and each other one a slot that has a desk: no call tests
//! that.
ghost use Rattle.std.specs.Prelude.{◌≡◌, Some, None, IsSomeAnd, OnErr, OnOk, length};
ghost use Rattle.std.specs.Fn.{FnOnceReturnsAtMut};
ghost use Rattle.line_read.specs.Step.{step_line};
ghost use Rattle.editor_lib.specs.Code.{GivesCode};
ghost use Rattle.editor_lib.specs.Answers.{answer_to, text_answer, state_answer, sizes_answer, shown_answer, piece_answer, writers_answer, writer_answer, name_answer, count_answer, would_answer};
ghost use Rattle.editor_lib.specs.Desk.{Desk, step_received, Opened, Restored, IsStepped, IsAsked};
ghost use Rattle.editor_lib.specs.Told.{part_told};
ghost use Rattle.editor_lib.specs.Buffer.{with_front};

use crate::code::{Code, number};
use crate::desk::Desk;
use crate::journal::JournalFail;
use crate::question::Question;
use crate::slot::DeskSlot;
use crate::told::ToldPart;
use element_name::NoMemory;
use std::alloc::Global;

// Puts a desk in an empty slot.
fn put_desk(alloc: Global, slot: &mut DeskSlot, desk: Desk) -> Result<(), NoMemory>
    requires { slot.old.value ≡ None }
    ensures ok { OnOk result (slot.new.value ≡ Some desk) }
    ensures unchanged { OnErr result (slot.new.value ≡ None) }
{
    match Box::new(alloc, desk) {
        Ok(boxed) => {
            *slot = DeskSlot::of(boxed);
            Ok(())
        }
        Err(failed) => {
            drop(failed);
            Err(NoMemory)
        }
    }
}

/// Opens the desk of a fresh peer of a site in an empty slot. Gives the number of a code: 0, or 2 and the slot stays empty.
#[unsafe(no_mangle)]
pub extern "C" fn editor_open(alloc: Global, slot: &mut DeskSlot, site: u16) -> u32
    requires { slot.old.value ≡ None }
    ensures { GivesCode result (λ code. Opened code site slot.new.value) }
{
    let Ok(desk) = Desk::new(alloc, site) else {
        return number(Code::NoMemory);
    };
    match put_desk(alloc, slot, desk) {
        Ok(()) => number(Code::Done),
        Err(NoMemory) => number(Code::NoMemory),
    }
}

/// Opens in an empty slot the desk of a site's peer whose journal the bytes are: the frames of its messages, one behind
/// another. Gives the number of a code: 0, or the slot stays empty with 1, where the bytes are no such journal, or 2. Time
/// and memory are the peer's for its journal, and for a while the memory of the messages besides.
#[unsafe(no_mangle)]
pub extern "C" fn editor_restore(
    alloc: Global,
    slot: &mut DeskSlot,
    site: u16,
    frames: &[u8],
) -> u32
    requires { slot.old.value ≡ None }
    ensures { GivesCode result (λ code. Restored code site frames.now slot.new.value) }
{
    let desk = match Desk::restore(alloc, site, frames) {
        Ok(desk) => desk,
        Err(JournalFail::Bad) => return number(Code::Bad),
        Err(JournalFail::NoMemory) => return number(Code::NoMemory),
    };
    match put_desk(alloc, slot, desk) {
        Ok(()) => number(Code::Done),
        Err(NoMemory) => number(Code::NoMemory),
    }
}

// Takes the desk out of its slot, asks it for this, and puts it back. Gives the number of the code that it answers.
fn on_desk<F: FnOnce(&mut Desk) -> Code>(alloc: Global, slot: &mut DeskSlot, ask: F) -> u32
    ghost desk: { Desk }
    requires there { slot.old.value ≡ Some desk }
    requires ask { F.IsAlwaysCallable ask }
    ensures { GivesCode result (λ code. IsSomeAnd slot.new.value (λ after. FnOnceReturnsAtMut F.FnOnce ask desk code after)) }
{
    let mut boxed = std::mem::replace(slot, DeskSlot::empty(alloc)).into_box();
    let code = ask(&mut boxed);
    *slot = DeskSlot::of(boxed);
    number(code)
}

/// Makes the step that a step line says, given without its line end. Gives the number of a code, 0 to 3. Time and memory
/// are the peer's for the step, and the length of the answer.
#[unsafe(no_mangle)]
pub extern "C" fn editor_step(alloc: Global, slot: &mut DeskSlot, line: &[u8]) -> u32
    ghost desk: { Desk }
    requires { slot.old.value ≡ Some desk }
    ensures { IsStepped result (step_line line.now) desk slot.new.value }
{
    on_desk(alloc, slot, |desk: &mut Desk| desk.step(alloc, line))
}

/// Receives the message whose frame is all of the bytes. Gives the number of a code, 0 to 3: 1 where the bytes are the frame
/// of no message. Time and memory are the peer's for the step.
#[unsafe(no_mangle)]
pub extern "C" fn editor_receive(alloc: Global, slot: &mut DeskSlot, frame: &[u8]) -> u32
    ghost desk: { Desk }
    requires { slot.old.value ≡ Some desk }
    ensures { IsStepped result (step_received frame.now) desk slot.new.value }
{
    on_desk(alloc, slot, |desk: &mut Desk| desk.receive(alloc, frame))
}

// Asks the desk of a slot. Gives the number of the code with which it answers.
fn ask(alloc: Global, slot: &mut DeskSlot, question: Question<'_>) -> u32
    ghost desk: { Desk }
    requires { slot.old.value ≡ Some desk }
    ensures { IsAsked result (answer_to question.entry desk.peer) desk slot.new.value }
{
    let mut boxed = std::mem::replace(slot, DeskSlot::empty(alloc)).into_box();
    let code = boxed.ask(alloc, question);
    *slot = DeskSlot::of(boxed);
    number(code)
}

/// Puts the bytes of the text that the peer shows in place of the answer. Gives the number of a code: 0 or 2. Takes time in
/// the length of the text.
#[unsafe(no_mangle)]
pub extern "C" fn editor_show(alloc: Global, slot: &mut DeskSlot) -> u32
    ghost desk: { Desk }
    requires { slot.old.value ≡ Some desk }
    ensures { IsAsked result (text_answer desk.peer) desk slot.new.value }
{
    ask(alloc, slot, Question::Text)
}

/// Puts the line of the state of the request of a name in place of the answer, and no bytes where the peer has no such
/// request. Gives the number of a code: 0, 1 where the bytes spell no name, or 2. Takes time logarithmic in the requests.
#[unsafe(no_mangle)]
pub extern "C" fn editor_state(alloc: Global, slot: &mut DeskSlot, name: &[u8]) -> u32
    ghost desk: { Desk }
    requires { slot.old.value ≡ Some desk }
    ensures { IsAsked result (state_answer desk.peer name.now) desk slot.new.value }
{
    ask(alloc, slot, Question::State(name))
}

/// Puts the sizes of the pieces of that text, a byte each, in place of the answer. Gives the number of a code: 0 or 2. Takes
/// time in the length of the text.
#[unsafe(no_mangle)]
pub extern "C" fn editor_sizes(alloc: Global, slot: &mut DeskSlot) -> u32
    ghost desk: { Desk }
    requires { slot.old.value ≡ Some desk }
    ensures { IsAsked result (sizes_answer desk.peer) desk slot.new.value }
{
    ask(alloc, slot, Question::Sizes)
}

/// Puts the number of elements that show in place of the answer. Gives the number of a code: 0 or 2. Takes constant time.
#[unsafe(no_mangle)]
pub extern "C" fn editor_count(alloc: Global, slot: &mut DeskSlot) -> u32
    ghost desk: { Desk }
    requires { slot.old.value ≡ Some desk }
    ensures { IsAsked result (shown_answer desk.peer) desk slot.new.value }
{
    ask(alloc, slot, Question::Count)
}

/// Puts the bytes of the piece that shows at a place, from 0, in place of the answer, and no bytes where none shows there.
/// Gives the number of a code: 0 or 2. Takes the time of `editor_name_at`.
#[unsafe(no_mangle)]
pub extern "C" fn editor_piece_at(alloc: Global, slot: &mut DeskSlot, place: u32) -> u32
    ghost desk: { Desk }
    requires { slot.old.value ≡ Some desk }
    ensures { IsAsked result (piece_answer desk.peer place) desk slot.new.value }
{
    ask(alloc, slot, Question::PieceAt(place))
}

/// Puts the sites of who wrote the pieces that show, in their order, two bytes each, in place of the answer. Gives the number
/// of a code: 0 or 2. Takes the time of `editor_writer_at` for each.
#[unsafe(no_mangle)]
pub extern "C" fn editor_writers(alloc: Global, slot: &mut DeskSlot) -> u32
    ghost desk: { Desk }
    requires { slot.old.value ≡ Some desk }
    ensures { IsAsked result (writers_answer desk.peer) desk slot.new.value }
{
    ask(alloc, slot, Question::Writers)
}

/// Puts the site of who wrote what shows at a place, from 0, in place of the answer, and no bytes where nothing shows there.
/// Gives the number of a code: 0 or 2. Takes the time of `editor_name_at`, and of a pass over the updates of the element there.
#[unsafe(no_mangle)]
pub extern "C" fn editor_writer_at(alloc: Global, slot: &mut DeskSlot, place: u32) -> u32
    ghost desk: { Desk }
    requires { slot.old.value ≡ Some desk }
    ensures { IsAsked result (writer_answer desk.peer place) desk slot.new.value }
{
    ask(alloc, slot, Question::WriterAt(place))
}

/// Puts the name of the element that shows at a place, from 0, in place of the answer, and no bytes where none shows there.
/// Gives the number of a code: 0 or 2. Takes a step for each group of blocks of elements, and a pass over a block.
#[unsafe(no_mangle)]
pub extern "C" fn editor_name_at(alloc: Global, slot: &mut DeskSlot, place: u32) -> u32
    ghost desk: { Desk }
    requires { slot.old.value ≡ Some desk }
    ensures { IsAsked result (name_answer desk.peer place) desk slot.new.value }
{
    ask(alloc, slot, Question::NameAt(place))
}

/// Puts the number of elements that show up to the one of a name in place of the answer, and no bytes where the peer has no
/// such element. Gives the number of a code: 0, 1 where the bytes spell no name, or 2. Takes the time of `editor_name_at`,
/// times the logarithm of the elements that show.
#[unsafe(no_mangle)]
pub extern "C" fn editor_shown_up_to(alloc: Global, slot: &mut DeskSlot, name: &[u8]) -> u32
    ghost desk: { Desk }
    requires { slot.old.value ≡ Some desk }
    ensures { IsAsked result (count_answer desk.peer name.now) desk slot.new.value }
{
    ask(alloc, slot, Question::ShownUpTo(name))
}

/// Puts the names of the requests that steps would undo in place of the answer, in order of integration, a line each with its
/// line end. The bytes are the step lines, with a line end between two of them, and no bytes are no steps. No step is made. Gives
/// the number of a code: 0, 1 where a line is no step line, or 2. Takes for a while the time and memory of a second peer of the
/// journal, which makes the steps.
#[unsafe(no_mangle)]
pub extern "C" fn editor_would(alloc: Global, slot: &mut DeskSlot, lines: &[u8]) -> u32
    ghost desk: { Desk }
    requires { slot.old.value ≡ Some desk }
    ensures { IsAsked result (would_answer desk.peer lines.now) desk slot.new.value }
{
    ask(alloc, slot, Question::Would(lines))
}

// Copies bytes to the front of a buffer, if they fit.
fn copy_front(bytes: &[u8], out: &mut [u8]) -> usize
    ensures len { result ≡ length bytes.now }
    ensures copied { out.new ≡ with_front bytes.now out.old }
{
    if bytes.len() <= out.len() {
        out[..bytes.len()].copy_from_slice(bytes);
    }
    bytes.len()
}

// Copies a part of what was told to the front of a buffer, if it fits, and gives its length.
fn copy_told(alloc: Global, slot: &mut DeskSlot, part: ToldPart, out: &mut [u8]) -> usize
    ghost desk: { Desk }
    requires { slot.old.value ≡ Some desk }
    ensures unchanged { slot.new.value ≡ Some desk }
    ensures len { result ≡ length (part_told part desk.told) }
    ensures copied { out.new ≡ with_front (part_told part desk.told) out.old }
{
    let boxed = std::mem::replace(slot, DeskSlot::empty(alloc)).into_box();
    let len = copy_front(boxed.told().part(part), out);
    *slot = DeskSlot::of(boxed);
    len
}

/// Copies the answer to the front of a buffer, if it fits, and gives its length. Takes time in it.
#[unsafe(no_mangle)]
pub extern "C" fn editor_answer(alloc: Global, slot: &mut DeskSlot, out: &mut [u8]) -> usize
    ghost desk: { Desk }
    requires { slot.old.value ≡ Some desk }
    ensures unchanged { slot.new.value ≡ Some desk }
    ensures len { result ≡ length desk.told.answer }
    ensures copied { out.new ≡ with_front desk.told.answer out.old }
{
    copy_told(alloc, slot, ToldPart::Answer, out)
}

/// Copies the frame of the message that the last step's answer gave to the front of a buffer, if it fits, and gives its
/// length: 0 where the answer gave none.
#[unsafe(no_mangle)]
pub extern "C" fn editor_frame(alloc: Global, slot: &mut DeskSlot, out: &mut [u8]) -> usize
    ghost desk: { Desk }
    requires { slot.old.value ≡ Some desk }
    ensures unchanged { slot.new.value ≡ Some desk }
    ensures len { result ≡ length desk.told.frame }
    ensures copied { out.new ≡ with_front desk.told.frame out.old }
{
    copy_told(alloc, slot, ToldPart::Frame, out)
}

/// Copies the lines of the rows of what the last step changed in the text to the front of a buffer, if they fit, and gives
/// their length. Takes time in it.
#[unsafe(no_mangle)]
pub extern "C" fn editor_rows(alloc: Global, slot: &mut DeskSlot, out: &mut [u8]) -> usize
    ghost desk: { Desk }
    requires { slot.old.value ≡ Some desk }
    ensures unchanged { slot.new.value ≡ Some desk }
    ensures len { result ≡ length desk.told.rows }
    ensures copied { out.new ≡ with_front desk.told.rows out.old }
{
    copy_told(alloc, slot, ToldPart::Rows, out)
}

/// Closes the desk of a slot, and gives back its memory.
#[unsafe(no_mangle)]
pub extern "C" fn editor_close(alloc: Global, slot: &mut DeskSlot)
    ghost desk: { Desk }
    requires { slot.old.value ≡ Some desk }
    ensures { slot.new.value ≡ None }
{
    let old = std::mem::replace(slot, DeskSlot::empty(alloc));
    drop(old.into_box());
}
