//! What a peer answers to a frame.
ghost use Rattle.std.specs.Prelude.{◌≡◌, ◌++◌, not, flat_map, OnOk, IfOk};
ghost use Rattle.peer_step.specs.Answers.{is_quiet};
ghost use Rattle.peer_core.specs.Answers.{answer_of, answer_settle};
ghost use Rattle.peer_core.specs.After.{peer_after};
ghost use Rattle.edit_frame.specs.Lent.{frame_lent};
ghost use Rattle.form_feed.specs.Turn.{settle_told, all_settle_steps, message_told, message_turn, frame_turn};

use crate::telling::{Nobody, Telling};
use coop_request::LentRequest;
use edit_frame::LentFrame;
use edit_message::Message;
use element_name::NoMemory;
use peer_core::Peer;
use peer_step::{Answer, Step};
use policy_book::Entry;
use report_text::{end_line, turn_line};

// Makes a step, and tells its answer. It stands apart from `receive`, since a step and an answer have room for pieces, which is
// filled where a function begins.
#[inline(never)]
fn tell_step<T: Telling>(peer: &mut Peer, step: Step, to: &mut T) -> Result<(), NoMemory>
    ensures told { OnOk result (T.told to.new ≡ T.told to.old ++ T.line (answer_of peer.old step)) }
    ensures peer { OnOk result (peer.new ≡ peer_after peer.old step) }
{
    let answer = peer.step(step)?;
    let told = to.tell(&answer);
    drop(answer);
    told
}

// Tells a settle step's answer but for Quiet, and says whether it is another one.
fn tell_settled<T: Telling>(answer: &Answer, to: &mut T) -> Result<bool, NoMemory>
    ensures due { IfOk result (λ due. due ≡ not (is_quiet answer.now)) }
    ensures told { OnOk result (T.told to.new ≡ T.told to.old ++ settle_told T.line answer.now) }
{
    if answer.is_quiet() {
        return Ok(false);
    }
    to.tell(answer)?;
    Ok(true)
}

// Settles the first held message that is due, and says whether one was.
fn settle_first<T: Telling>(peer: &mut Peer, to: &mut T) -> Result<bool, NoMemory>
    ensures due { IfOk result (λ due. due ≡ not (is_quiet (answer_settle peer.old))) }
    ensures told { OnOk result (T.told to.new ≡ T.told to.old ++ settle_told T.line (answer_settle peer.old)) }
    ensures peer { OnOk result (peer.new ≡ peer_after peer.old Step.Settle) }
{
    let answer = peer.step(Step::Settle)?;
    let told = tell_settled(&answer, to);
    drop(answer);
    told
}

// Settles what is due, and tells the answers. Where nothing is held no step is made.
fn settle<T: Telling>(peer: &mut Peer, to: &mut T) -> Result<(), NoMemory>
    ensures told { OnOk result (T.told to.new ≡ T.told to.old ++ flat_map T.line (all_settle_steps peer.old).answers) }
    ensures peer { OnOk result (peer.new ≡ (all_settle_steps peer.old).peer) }
{
    'steps: while peer.held_len() > 0 {
        let due = settle_first(peer, to)?;
        if !due {
            return Ok(());
        }
    }
    Ok(())
}

// Receives a request, and tells the answer.
fn receive_request<T: Telling>(
    peer: &mut Peer,
    request: &LentRequest<'_>,
    to: &mut T,
) -> Result<(), NoMemory>
    ensures told { OnOk result (T.told to.new ≡ T.told to.old ++ T.line (answer_of peer.old (Step.Receive (Message.Coop request.now)))) }
    ensures peer { OnOk result (peer.new ≡ peer_after peer.old (Step.Receive (Message.Coop request.now))) }
{
    match peer.receive_request(request)? {
        Some(told) => to.tell_received(told),
        None => tell_step(peer, Step::Receive(Message::Coop(request.request())), to),
    }
}

// Receives a request, settles what is due then, and tells the answers.
fn take_request<T: Telling>(
    peer: &mut Peer,
    request: &LentRequest<'_>,
    to: &mut T,
) -> Result<(), NoMemory>
    ensures told { OnOk result (T.told to.new ≡ T.told to.old ++ message_told T.line peer.old (Message.Coop request.now)) }
    ensures peer { OnOk result (peer.new ≡ (message_turn peer.old (Message.Coop request.now)).after) }
{
    receive_request(peer, request, to)?;
    settle(peer, to)
}

// Receives an entry, settles what is due then, and tells the answers.
fn take_entry<T: Telling>(peer: &mut Peer, entry: Entry, to: &mut T) -> Result<(), NoMemory>
    ensures told { OnOk result (T.told to.new ≡ T.told to.old ++ message_told T.line peer.old (Message.Admin entry)) }
    ensures peer { OnOk result (peer.new ≡ (message_turn peer.old (Message.Admin entry)).after) }
{
    tell_step(peer, Step::Receive(Message::Admin(entry)), to)?;
    settle(peer, to)
}

/// Answers a frame.
#[tactic(auto, unfolding(crate::specs::Turn::frame_turn))]
pub(crate) fn answer_frame(
    peer: &mut Peer,
    frame: LentFrame<'_>,
    out: &mut Vec<u8>,
) -> Result<(), NoMemory>
    ensures reply { OnOk result (out.new.items ≡ out.old.items ++ (frame_turn peer.old (frame_lent frame.entry)).reply) }
    ensures peer { OnOk result (peer.new ≡ (frame_turn peer.old (frame_lent frame.entry)).after) }
{
    match frame {
        LentFrame::Request(request) => take_request(peer, &request, out),
        LentFrame::Entry(entry) => take_entry(peer, entry, out),
        LentFrame::Turn => turn_line(out),
        LentFrame::End => end_line(out),
    }
}

/// Has a peer take a frame in as [`feed_peer`](crate::feed_peer) has it, and writes nothing of what it answers.
///
/// It takes the time and the memory of the peer's steps. After a failure the peer may have made a part of them.
#[tactic(auto, unfolding(crate::specs::Turn::frame_turn))]
pub fn take_untold(peer: &mut Peer, frame: LentFrame<'_>) -> Result<(), NoMemory>
    ensures { OnOk result (peer.new ≡ (frame_turn peer.old (frame_lent frame.entry)).after) }
{
    match frame {
        LentFrame::Request(request) => take_request(peer, &request, &mut Nobody),
        LentFrame::Entry(entry) => take_entry(peer, entry, &mut Nobody),
        LentFrame::Turn | LentFrame::End => Ok(()),
    }
}
