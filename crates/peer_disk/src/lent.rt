//! A disk that is lent.
use crate::disk::Disk;
use edit_io::Failed;

impl<D: Disk> Disk for &mut D {
    ghost seen = { λ d. D.seen d.now };

    ghost may_leave = { λ d. D.may_leave d.now };

    ghost moment = { λ d. D.moment d.now };

    ghost left_since = { λ d. D.left_since d.now };

    ghost faults = { λ d. D.faults d.now };

    ghost seen_may_stay = { λ d. D.seen_may_stay d.now };

    ghost counts_now = { λ d time left before now. D.counts_now d.now time left before now };

    ghost only_now = { λ d left since. D.only_now d.now left since };

    fn len(&mut self) -> Result<u64, Failed> {
        Disk::len(&mut **self)
    }

    fn read(&mut self, from: u64, buf: &mut [u8]) -> Result<usize, Failed> {
        Disk::read(&mut **self, from, buf)
    }

    fn write_at(&mut self, from: u64, bytes: &[u8]) -> Result<(), Failed> {
        Disk::write_at(&mut **self, from, bytes)
    }

    fn sync(&mut self) -> Result<(), Failed> {
        Disk::sync(&mut **self)
    }
}
