//! What bytes are kept on.
ghost use Rattle.std.specs.Prelude.{◌≡◌, ◌≤◌, ℕ, List, length, IfOk, IfSome, OnOk, OnErr};
ghost use Rattle.std.specs.declared.option.Option.{Option};
ghost use Rattle.std.specs.Io.{ReadsAtMost};
ghost use Rattle.edit_io.specs.Causes.{HasCause};
ghost use Rattle.peer_disk.specs.Disk.{Only, LeavesAfter, Torn, Elapses, IsUntouched, GivesFrom, Writes};

use edit_io::Failed;

/// A disk with the bytes of one file, of which each call may fail.
pub trait Disk {
    // What a read gives, where the disk tells it.
    ghost seen: { Self → Option (List ℕ) };

    // What a crash at this moment may leave.
    ghost may_leave: { Self → List ℕ → Type 0 };

    // The moment, as a number that doesn't fall.
    ghost moment: { Self → ℕ };

    // What a crash at some moment from that one on might have left, during a call or between two.
    ghost left_since: { Self → ℕ → List ℕ → Type 0 };

    // How often a call has failed.
    ghost faults: { Self → ℕ };

    /// How many bytes there are.
    fn len(&mut self) -> Result<u64, Failed>
        ensures len { IfOk result (λ n. IfSome (seen self.old) (λ bytes. n ≡ length bytes)) }
        ensures untouched { IsUntouched (seen self.old) (seen self.new) (may_leave self.old) (may_leave self.new) }
        ensures time { Elapses (moment self.old) (moment self.new) (left_since self.old) (left_since self.new) (may_leave self.new) }
        ensures cause { HasCause (faults self.old) (faults self.new) result };

    /// Fills the buffer from its start with the bytes that stand from `from` on, and says how many came.
    ///
    /// It may give fewer than there are and fit, but gives none only where the buffer is empty or no byte
    /// stands there.
    fn read(&mut self, from: u64, buf: &mut [u8]) -> Result<usize, Failed>
        ensures bound { ReadsAtMost result buf.new }
        ensures bytes { IfOk result (λ n. IfSome (seen self.old) (λ bytes. GivesFrom bytes from n buf.new)) }
        ensures untouched { IsUntouched (seen self.old) (seen self.new) (may_leave self.old) (may_leave self.new) }
        ensures time { Elapses (moment self.old) (moment self.new) (left_since self.old) (left_since self.new) (may_leave self.new) }
        ensures cause { HasCause (faults self.old) (faults self.new) result };

    /// Writes the bytes from `from` on, over what stands there and past the end.
    ///
    /// Until a sync, and also where it fails, a crash may leave any bytes in that range. After a failure a
    /// read may give any bytes there too.
    fn write_at(&mut self, from: u64, bytes: &[u8]) -> Result<(), Failed>
        requires { IfSome (seen self.old) (λ file. from ≤ length file) }
        ensures written { Writes result from bytes.now (seen self.old) (seen self.new) }
        ensures crash { LeavesAfter (Torn from (length bytes.now)) (may_leave self.old) (may_leave self.new) }
        ensures time { Elapses (moment self.old) (moment self.new) (left_since self.old) (left_since self.new) (may_leave self.new) }
        ensures cause { HasCause (faults self.old) (faults self.new) result };

    /// Puts all that was written on the disk: from then on a crash leaves what a read gives.
    fn sync(&mut self) -> Result<(), Failed>
        ensures durable { OnOk result (IfSome (seen self.old) (λ file. Only file (may_leave self.new))) }
        ensures seen { seen self.new ≡ seen self.old }
        ensures crash { (left : List ℕ) → may_leave self.new left → may_leave self.old left }
        ensures untouched { OnErr result (IsUntouched (seen self.old) (seen self.new) (may_leave self.old) (may_leave self.new)) }
        ensures time { Elapses (moment self.old) (moment self.new) (left_since self.old) (left_since self.new) (may_leave self.new) }
        ensures cause { HasCause (faults self.old) (faults self.new) result };

    // What a read gives may stay.
    ghost seen_may_stay: { (disk : Self) → IfSome (seen disk) (λ file. may_leave disk file) };

    // This moment is one of those since an earlier one.
    ghost counts_now: { (disk : Self) (time : ℕ) (left : List ℕ) → time ≤ moment disk → may_leave disk left → left_since disk time left };

    // Since this moment there is no other.
    ghost only_now: { (disk : Self) (left : List ℕ) → left_since disk (moment disk) left → may_leave disk left };
}
