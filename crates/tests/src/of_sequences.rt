//! Sequences: that elements come and go over many blocks, where there is memory.
use element_name::{Name, Places};
use std::test::Fail;
use tomb_seq::TombSeq;

fn name(stamp: u64) -> Name {
    Name::read(stamp, 0).unwrap_or(Name::start())
}

// Three blocks of elements in front of each other, and all of them taken out again, twice.
#[test]
fn blocks_come_and_go(rt: HostRuntime) -> Result<(), Fail> {
    let mut seq = TombSeq::new(rt.alloc());
    for _ in 0..2u32 {
        for stamp in 1..1300 {
            seq.insert(name(stamp), Name::start())?;
        }
        assert_eq!(rt; seq.len(), 1299);
        for stamp in 1..1300 {
            let gone = name(stamp);
            assert!(rt; seq.has(gone));
            seq.remove(gone);
        }
        assert_eq!(rt; seq.len(), 0);
    }
    Ok(())
}
