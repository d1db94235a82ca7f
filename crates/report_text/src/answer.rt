//! The line of what a peer answers to a step.
ghost use Rattle.std.specs.Prelude.{◌≡◌, ◌++◌, None, OnOk};
ghost use Rattle.peer_core.specs.Answers.{answer_of};
ghost use Rattle.peer_core.specs.After.{peer_after};
ghost use Rattle.line_spelling.specs.Answers.{answer_line};

use element_name::NoMemory;
use line_write::put_answer_line;
use peer_core::Peer;
use peer_step::Step;

/// Makes a step, and appends the line of its answer. Takes the time of the step, and time in the length of the line. Where
/// it fails, the step may be made or not, and a part of the line may stand in the output.
pub fn answer_line_of(peer: &mut Peer, step: Step, out: &mut Vec<u8>) -> Result<(), NoMemory>
    ensures line { OnOk result (out.new.items ≡ out.old.items ++ answer_line None (answer_of peer.old step)) }
    ensures peer { OnOk result (peer.new ≡ peer_after peer.old step) }
{
    let answer = peer.step(step)?;
    let told = put_answer_line(out, None, &answer);
    drop(answer);
    told
}
