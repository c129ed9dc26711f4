// A disk and a port, by what a read gives and what a cut of power may leave.
ghost use Rattle.std.specs.Prelude.{◌≡◌, ◌≢◌, ◌⊎◌, ◌<◌, ◌≤◌, ◌^◌, ◌++◌, List, [], ℕ, length};
ghost use Rattle.std.specs.Prelude.{slice_index, take, IfOk, OnOk, OnErr, IsErrOf};
ghost use Rattle.vab_disk.specs.Disk.{Image, IsSector, Outcome, Leaves, IsSettled, Adds, Nothing};
ghost use Rattle.vab_disk.specs.Disk.{IsAt, Writes, SameHoldings, MayBeSet, Faults, NoFewer, Quiet};
ghost use Rattle.vab_disk.specs.Disk.{Hearing, set_sector, DiskFailed, SinkFailed, SourceFailed};
ghost use Rattle.vab_disk.specs.Port.{Hears, LeavesSaying, heard_then};

#[derive(Clone, Copy, Debug, PartialEq, Eq)]
pub struct Failed;

#[derive(Clone, Copy, Debug, PartialEq, Eq)]
pub enum PortFault {
    Source,
    Sink,
}

/// A disk of sectors of 512 bytes. A call that answers Ok leaves the counts of faults as they were.
pub trait Disk {
    /// Whether the contents are told. Where they are not, the clauses speak of counts alone.
    ghost is_modelled: { Type 0 };

    /// How many sectors there are.
    ghost size: { Self → ℕ };

    /// What a read gives.
    ghost seen: { Self → Image };

    /// Which bytes a crash at this moment may leave in a sector: the settled ones, or those of a
    /// write since the last sync that succeeded.
    ghost may_leave: { Self → ℕ → List ℕ → Type 0 };

    /// The bytes told so far.
    ghost told: { Self → List ℕ };

    /// The input that is left.
    ghost input_left: { Self → List ℕ };

    /// What was told and what was left of the input, at each hearing so far, the oldest first.
    ghost heard: { Self → List Hearing };

    /// How often calls have failed.
    ghost faults: { Self → Faults };

    /// The moment, as a number that doesn't fall. One clock serves the disk and what is told.
    ghost moment: { Self → ℕ };

    /// What a crash at some moment from that one on might have left, during a call or between two.
    ghost outcomes: { Self → ℕ → Outcome → Type 0 };

    fn sectors(&self) -> u64
        ensures { result ≡ size self.now };

    fn read_sector(&mut self, at: u64, out: &mut [u8; 512]) -> Result<(), Failed>
        requires { at < size self.old }
        ensures bytes { is_modelled → OnOk result (out.new ≡ seen self.old at) }
        ensures quiet { Quiet is_modelled size told input_left heard faults self.old self.new }
        ensures seen { is_modelled → seen self.new ≡ seen self.old }
        ensures crash { is_modelled → SameHoldings (may_leave self.old) (may_leave self.new) }
        ensures time { is_modelled → Adds moment outcomes self.old self.new Nothing }
        ensures steady { OnOk result (faults self.new ≡ faults self.old) }
        ensures cause { OnErr result (DiskFailed (faults self.old) (faults self.new)) };

    /// A write that fails may have written.
    fn write_sector(&mut self, at: u64, from: &[u8; 512]) -> Result<(), Failed>
        requires { at < size self.old }
        ensures written { is_modelled
            → OnOk result (seen self.new ≡ set_sector (seen self.old) at from.now) }
        ensures failed { is_modelled
            → OnErr result (MayBeSet at from.now (seen self.old) (seen self.new)) }
        ensures quiet { Quiet is_modelled size told input_left heard faults self.old self.new }
        ensures crash { is_modelled
            → Writes (IsAt at from.now) (may_leave self.old) (may_leave self.new) }
        ensures time { is_modelled → Adds moment outcomes self.old self.new
            (Leaves (told self.old) (may_leave self.new)) }
        ensures steady { OnOk result (faults self.new ≡ faults self.old) }
        ensures cause { OnErr result (DiskFailed (faults self.old) (faults self.new)) };

    /// After it a crash leaves what a read gives. One that fails leaves pending what is pending.
    fn sync(&mut self) -> Result<(), Failed>
        ensures settled { is_modelled
            → OnOk result (IsSettled (seen self.new) (may_leave self.new)) }
        ensures failed { is_modelled
            → OnErr result (SameHoldings (may_leave self.old) (may_leave self.new)) }
        ensures crash { is_modelled →
            (s : ℕ) (b : List ℕ) → may_leave self.new s b → may_leave self.old s b }
        ensures quiet { Quiet is_modelled size told input_left heard faults self.old self.new }
        ensures seen { is_modelled → seen self.new ≡ seen self.old }
        ensures time { is_modelled → Adds moment outcomes self.old self.new Nothing }
        ensures steady { OnOk result (faults self.new ≡ faults self.old) }
        ensures cause { OnErr result (DiskFailed (faults self.old) (faults self.new)) };

    /// A disk is small.
    ghost small: { (d : Self) → size d < 2 ^ 55 };

    /// Whatever a sector may hold is 512 bytes.
    ghost whole: { (d : Self) (s : ℕ) (b : List ℕ) → s < size d → may_leave d s b → IsSector b };

    /// What a read gives is one of the values that a crash may leave.
    ghost seen_held: { (d : Self) (s : ℕ) → may_leave d s (seen d s) };

    /// The input is bytes.
    ghost bytes: { (d : Self) (k : ℕ) → slice_index (input_left d) k < 256 };

    /// This moment is one of those since an earlier one.
    ghost counts_now: { (d : Self) (t : ℕ) (o : Outcome)
        → t ≤ moment d
        → Leaves (told d) (may_leave d) o
        → outcomes d t o };

    /// Since this moment there is no other.
    ghost only_now: { (d : Self) (o : Outcome)
        → outcomes d (moment d) o
        → Leaves (told d) (may_leave d) o };
}

/// A disk beside which bytes are heard and told. A call that answers Ok leaves the counts of faults
/// as they were.
pub trait Port: Disk {
    /// Takes bytes from the front of the input. 0 bytes for a buffer that has room mean its end. It
    /// is a hearing where it succeeds.
    fn hear(&mut self, out: &mut [u8]) -> Result<usize, PortFault>
        ensures bytes { Self.is_modelled →
            IfOk result
            (λ n. Hears n (Self.input_left self.old) (Self.input_left self.new) out.old out.new) }
        ensures failed { Self.is_modelled
            → OnErr result (Self.input_left self.new ≡ Self.input_left self.old) }
        ensures heard { Self.is_modelled → OnOk result
            (Self.heard self.new
            ≡ heard_then (Self.heard self.old) (Self.told self.old)
            (Self.input_left self.old)) }
        ensures unheard { Self.is_modelled
            → OnErr result (Self.heard self.new ≡ Self.heard self.old) }
        ensures fits { IfOk result (λ n. n ≤ length out.old) }
        ensures size { Self.size self.new ≡ Self.size self.old }
        ensures seen { Self.is_modelled → Self.seen self.new ≡ Self.seen self.old }
        ensures crash { Self.is_modelled
            → SameHoldings (Self.may_leave self.old) (Self.may_leave self.new) }
        ensures told { Self.is_modelled → Self.told self.new ≡ Self.told self.old }
        ensures time { Self.is_modelled → Adds Self.moment Self.outcomes self.old self.new Nothing }
        ensures counts { NoFewer (Self.faults self.old) (Self.faults self.new) }
        ensures steady { OnOk result (Self.faults self.new ≡ Self.faults self.old) }
        ensures kind { IsErrOf result PortFault.Sink → ⊥ }
        ensures cause { OnErr result
            (SourceFailed (Self.faults self.old) (Self.faults self.new)) };

    /// Tells some bytes of a piece from its front, at least one of a piece that has any.
    fn say(&mut self, from: &[u8]) -> Result<usize, PortFault>
        ensures bytes { Self.is_modelled →
            IfOk result (λ n. Self.told self.new ≡ Self.told self.old ++ take n from.now) }
        ensures fits { IfOk result (λ n. n ≤ length from.now) }
        ensures some { IfOk result (λ n. n ≡ 0 → length from.now ≡ 0) }
        ensures failed { Self.is_modelled
            → (n : ℕ) × (Self.told self.new ≡ Self.told self.old ++ take n from.now) }
        ensures size { Self.size self.new ≡ Self.size self.old }
        ensures seen { Self.is_modelled → Self.seen self.new ≡ Self.seen self.old }
        ensures crash { Self.is_modelled
            → SameHoldings (Self.may_leave self.old) (Self.may_leave self.new) }
        ensures left { Self.is_modelled → Self.input_left self.new ≡ Self.input_left self.old }
        ensures heard { Self.is_modelled → Self.heard self.new ≡ Self.heard self.old }
        ensures time { Self.is_modelled → Adds Self.moment Self.outcomes self.old self.new
            (LeavesSaying (Self.told self.old) from.now (Self.may_leave self.old)) }
        ensures counts { NoFewer (Self.faults self.old) (Self.faults self.new) }
        ensures steady { OnOk result (Self.faults self.new ≡ Self.faults self.old) }
        ensures kind { IsErrOf result PortFault.Source → ⊥ }
        ensures cause { OnErr result
            (SinkFailed (Self.faults self.old) (Self.faults self.new)) };
}
