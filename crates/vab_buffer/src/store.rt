// A store of sectors that are read and written in runs.
ghost use Rattle.std.specs.Prelude.{◌≡◌, ◌⊎◌, ◌<◌, ◌≤◌, ◌+◌, ◌^◌, ◌%◌, List, ℕ, length};
ghost use Rattle.std.specs.Prelude.{slice_index, OnOk, OnErr};
ghost use Rattle.vab_disk.specs.Disk.{Image, IsSector, Outcome, Leaves, IsSettled, Adds, Nothing};
ghost use Rattle.vab_disk.specs.Disk.{Writes, SameHoldings, Faults, Quiet, Hearing, DiskFailed};
ghost use Rattle.vab_disk.specs.Calls.{SameBut};
ghost use Rattle.vab_gate.specs.Gate.{set_sectors, sectors_at, IsAmong};
ghost use Rattle.vab_buffer.specs.Store.{sectors_in};

use vab_disk::Failed;

/// A store of sectors of 512 bytes, of which as many as follow one another are read or written by
/// one call, a run. A call that answers Ok leaves the counts of faults as they were.
pub trait RunStore {
    /// Whether the contents are told. Where they are not, the clauses speak of counts alone.
    ghost is_modelled: { Type 0 };

    /// How many sectors there are.
    ghost size: { Self → ℕ };

    /// What a read gives.
    ghost seen: { Self → Image };

    /// Which bytes a crash at this moment may leave in a sector: the settled ones, or those of a
    /// write since the last sync that succeeded.
    ghost may_leave: { Self → ℕ → List ℕ → Type 0 };

    /// The bytes told so far.
    ghost told: { Self → List ℕ };

    /// The input that is left.
    ghost input_left: { Self → List ℕ };

    /// What was told and what was left of the input, at each hearing so far, the oldest first.
    ghost heard: { Self → List Hearing };

    /// How often calls have failed.
    ghost faults: { Self → Faults };

    /// The moment, as a number that doesn't fall. One clock serves the store and what is told.
    ghost moment: { Self → ℕ };

    /// What a crash at some moment from that one on might have left, during a call or between two.
    ghost outcomes: { Self → ℕ → Outcome → Type 0 };

    fn sectors(&self) -> u64
        ensures { result ≡ size self.now };

    /// Reads as many sectors from `at` on as `out` has room for.
    fn read_run(&mut self, at: u64, out: &mut [u8]) -> Result<(), Failed>
        requires whole { length out.old % 512 ≡ 0 }
        requires within { at + sectors_in out.old ≤ size self.old }
        ensures bytes { is_modelled → OnOk result
            (out.new ≡ sectors_at (sectors_in out.old) (seen self.old) at) }
        ensures quiet { Quiet is_modelled size told input_left heard faults self.old self.new }
        ensures seen { is_modelled → seen self.new ≡ seen self.old }
        ensures crash { is_modelled → SameHoldings (may_leave self.old) (may_leave self.new) }
        ensures time { is_modelled → Adds moment outcomes self.old self.new Nothing }
        ensures steady { OnOk result (faults self.new ≡ faults self.old) }
        ensures cause { OnErr result (DiskFailed (faults self.old) (faults self.new)) };

    /// Writes sectors from `at` on. A crash leaves each of them, by itself, as it could be left
    /// before or with its new bytes. A run that fails may have written any of them.
    fn write_run(&mut self, at: u64, from: &[u8]) -> Result<(), Failed>
        requires whole { length from.now % 512 ≡ 0 }
        requires within { at + sectors_in from.now ≤ size self.old }
        ensures written { is_modelled → OnOk result
            (seen self.new ≡ set_sectors (sectors_in from.now) (seen self.old) at from.now) }
        ensures failed { is_modelled → OnErr result
            (SameBut (IsAmong (sectors_in from.now) at from.now) (seen self.old) (seen self.new)) }
        ensures quiet { Quiet is_modelled size told input_left heard faults self.old self.new }
        ensures crash { is_modelled →
            Writes (IsAmong (sectors_in from.now) at from.now)
            (may_leave self.old) (may_leave self.new) }
        ensures time { is_modelled → Adds moment outcomes self.old self.new
            (Leaves (told self.old) (may_leave self.new)) }
        ensures steady { OnOk result (faults self.new ≡ faults self.old) }
        ensures cause { OnErr result (DiskFailed (faults self.old) (faults self.new)) };

    /// After it a crash leaves what a read gives. One that fails leaves pending what is pending.
    fn sync(&mut self) -> Result<(), Failed>
        ensures settled { is_modelled → OnOk result
            (IsSettled (seen self.new) (may_leave self.new)) }
        ensures failed { is_modelled → OnErr result
            (SameHoldings (may_leave self.old) (may_leave self.new)) }
        ensures crash { is_modelled →
            (s : ℕ) (b : List ℕ) → may_leave self.new s b → may_leave self.old s b }
        ensures quiet { Quiet is_modelled size told input_left heard faults self.old self.new }
        ensures seen { is_modelled → seen self.new ≡ seen self.old }
        ensures time { is_modelled → Adds moment outcomes self.old self.new Nothing }
        ensures steady { OnOk result (faults self.new ≡ faults self.old) }
        ensures cause { OnErr result (DiskFailed (faults self.old) (faults self.new)) };

    /// A store is small.
    ghost small: { (d : Self) → size d < 2 ^ 55 };

    /// Whatever a sector may hold is 512 bytes.
    ghost whole: { (d : Self) (s : ℕ) (b : List ℕ) → s < size d → may_leave d s b → IsSector b };

    /// What a read gives is one of the values that a crash may leave.
    ghost seen_held: { (d : Self) (s : ℕ) → may_leave d s (seen d s) };

    /// The input is bytes.
    ghost bytes: { (d : Self) (k : ℕ) → slice_index (input_left d) k < 256 };

    /// This moment is one of those since an earlier one.
    ghost counts_now: { (d : Self) (t : ℕ) (o : Outcome)
        → t ≤ moment d → Leaves (told d) (may_leave d) o → outcomes d t o };

    /// Since this moment there is no other.
    ghost only_now: { (d : Self) (o : Outcome)
        → outcomes d (moment d) o → Leaves (told d) (may_leave d) o };
}
