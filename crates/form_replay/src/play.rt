//! A script's lines on a world.
ghost use Rattle.std.specs.Prelude.{◌≡◌, ◌<◌, true, false, [], None, Some, length, IsTrue, IfOk, OnOk, IsErrOf};
ghost use Rattle.peer_step.specs.Lent.{local_edit_lent};
ghost use Rattle.form_replay.specs.Replay.{reply_turn, script_turn};

use crate::reply::put_reply;
use element_name::NoMemory;
use line_engine::Lines;
use line_spelling::LineFail;
use line_write::{put_edit_answer_line, put_request_answer_line};
use peer_step::Step;
use replay_net::{Line, World};
use script_text::{Given, OwnEdit, script_edit, script_give, script_line};
use std::alloc::Global;
use std::marker::Model;

/// A script's world, which its first line begins.
#[derive(Drop)]
pub struct Replay {
    world: Option<World>,
}

impl Model for Replay {
    ghost use Rattle.std.specs.Prelude.{Option};
    ghost use Rattle.replay_net.specs.World as spec;

    ghost Value = { Option spec.World };

    ghost view = { λ r. r.world };
}

impl Replay {
    /// Before the first line.
    pub fn new() -> Replay
        ensures { result ≡ None }
    {
        Replay { world: None }
    }
}

// The world that a script's first line begins.
#[cold]
#[inline(never)]
fn open(alloc: Global, line: &[u8]) -> Result<World, LineFail>
    ensures ok { IfOk result (λ world. script_turn None line.now ≡ Some (record { reply = []; world = Some world })) }
    ensures bad { IsErrOf result LineFail.Bad → script_turn None line.now ≡ None }
{
    match script_line(alloc, line, true, 0)? {
        Line::Peers(count) => World::new(alloc, count).or(Err(LineFail::NoMemory)),
        Line::Local(_, _) | Line::Give { .. } | Line::Hand(_, _) | Line::StateOf(_, _) => {
            Err(LineFail::Bad)
        }
    }
}

// Plays a later line that is an own edit, and appends what it is answered.
fn play_edit(world: &mut World, own: OwnEdit<'_>, out: &mut Vec<u8>) -> Result<(), NoMemory>
    requires there { own.peer < length world.old.peers }
    requires empty { out.old.items ≡ [] }
    ensures { OnOk result (reply_turn world.old (Line.Local own.entry.peer (Step.Edit (local_edit_lent own.entry.edit))) ≡ record { reply = out.new.items; world = Some world.new }) }
{
    let told = world.edit(own.peer, own.edit)?;
    put_edit_answer_line(out, told.number, told.answer)?;
    Ok(())
}

// Plays a later line that gives an issued request, and appends what it is answered. False where it is to be played as any line:
// nothing is changed or appended then.
fn play_give(world: &mut World, given: Given, out: &mut Vec<u8>) -> Result<bool, NoMemory>
    requires there { given.peer < length world.old.peers }
    requires empty { out.old.items ≡ [] }
    ensures played { IfOk result (λ played. IsTrue played → reply_turn world.old (Line.Give given.message given.peer) ≡ record { reply = out.new.items; world = Some world.new }) }
    ensures not_played { IfOk result (λ played. played ≡ false → (world.new ≡ world.old) × (out.new.items ≡ [])) }
{
    match world.give_request(given.message, given.peer) {
        Ok(Some(told)) => {
            put_request_answer_line(out, told)?;
            Ok(true)
        }
        Ok(None) => Ok(false),
        Err(NoMemory) => Err(NoMemory),
    }
}

// Plays any later line, and appends what it is answered. It stands apart from `play`, since its line and its reply have room
// for pieces, which is filled where a function begins.
#[inline(never)]
fn play_any(
    alloc: Global,
    world: &mut World,
    line: &[u8],
    out: &mut Vec<u8>,
) -> Result<(), LineFail>
    requires { out.old.items ≡ [] }
    ensures ok { OnOk result (script_turn (Some world.old) line.now ≡ Some (record { reply = out.new.items; world = Some world.new })) }
    ensures bad { IsErrOf result LineFail.Bad →
        (script_turn (Some world.old) line.now ≡ None) × (world.new ≡ world.old) × (out.new.items ≡ []) }
{
    let line = script_line(alloc, line, false, world.peers())?;
    let Ok(reply) = world.line(line) else {
        return Err(LineFail::NoMemory);
    };
    put_reply(out, &reply).or(Err(LineFail::NoMemory))
}

// Plays a later line, and appends what it is answered.
fn play(alloc: Global, world: &mut World, line: &[u8], out: &mut Vec<u8>) -> Result<(), LineFail>
    requires { out.old.items ≡ [] }
    ensures ok { OnOk result (script_turn (Some world.old) line.now ≡ Some (record { reply = out.new.items; world = Some world.new })) }
    ensures bad { IsErrOf result LineFail.Bad →
        (script_turn (Some world.old) line.now ≡ None) × (world.new ≡ world.old) × (out.new.items ≡ []) }
{
    match script_edit(line, world.peers()) {
        Some(own) => play_edit(world, own, out).or(Err(LineFail::NoMemory)),
        None => play_other(alloc, world, line, out),
    }
}

// Plays a later line that is no own edit, and appends what it is answered.
fn play_other(
    alloc: Global,
    world: &mut World,
    line: &[u8],
    out: &mut Vec<u8>,
) -> Result<(), LineFail>
    requires { out.old.items ≡ [] }
    ensures ok { OnOk result (script_turn (Some world.old) line.now ≡ Some (record { reply = out.new.items; world = Some world.new })) }
    ensures bad { IsErrOf result LineFail.Bad →
        (script_turn (Some world.old) line.now ≡ None) × (world.new ≡ world.old) × (out.new.items ≡ []) }
{
    if let Some(given) = script_give(line, world.peers()) {
        if play_give(world, given, out).or(Err(LineFail::NoMemory))? {
            return Ok(());
        }
    }
    play_any(alloc, world, line, out)
}

impl Lines for Replay {
    ghost use Rattle.form_replay.specs.Replay.{script_turn, script_closing};

    ghost turn = { script_turn };

    ghost closing = { script_closing };

    fn line(&mut self, alloc: Global, line: &[u8], out: &mut Vec<u8>) -> Result<(), LineFail> {
        match &mut self.world {
            Some(world) => play(alloc, world, line, out),
            None => {
                self.world = Some(open(alloc, line)?);
                Ok(())
            }
        }
    }

    fn close(&self, _alloc: Global, _out: &mut Vec<u8>) -> Result<(), LineFail> {
        match self.world {
            Some(_) => Ok(()),
            None => Err(LineFail::Bad),
        }
    }
}
