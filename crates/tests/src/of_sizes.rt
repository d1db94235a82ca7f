//! How many bytes a table keeps of what is kept often.
use coop_request::{PackedPiece, PackedRequest};
use edit_message::PackedMessage;
use elem_show::Counts;
use request_state::Kept;

#[test]
fn little_memory(rt: HostRuntime) {
    assert_eq!(rt; size_of::<PackedPiece>(), 24);
    assert_eq!(rt; size_of::<PackedRequest>(), 56);
    assert_eq!(rt; size_of::<PackedMessage>(), 64);
    assert_eq!(rt; size_of::<Kept>(), 72);
    assert_eq!(rt; size_of::<Counts>(), 16);
}
