// Sectors that follow one another, kept in a buffer of fixed size.
ghost use Rattle.std.specs.Prelude.{◌≡◌, ◌⊎◌, ◌<◌, ◌≤◌, ◌+◌, ◌-◌, ◌*◌, ◌↔◌, ℕ, IsTrue, length};
ghost use Rattle.std.specs.Prelude.{slice_index, take, IfOk};

use std::alloc::{AllocError, Global};
use vab_gate::SECTOR;

/// How many sectors a run has room for.
pub(crate) const RUN_SECTORS: usize = 128;

const RUN_BYTES: usize = 65536;

/// A run of sectors from `first` on. The buffer keeps its size; what stands behind its `count`
/// sectors is of no meaning.
#[derive(Drop)]
pub(crate) struct Run {
    pub(crate) first: u64,
    pub(crate) count: usize,
    pub(crate) bytes: Vec<u8>,
    ghost long: { length bytes.items ≡ 65536 },
    ghost fits: { count ≤ 128 },
    ghost small: { (k : ℕ) → slice_index bytes.items k < 256 },
}

// So many bytes.
fn zeros(alloc: Global, count: usize) -> Result<Vec<u8>, AllocError>
    ensures long { IfOk result (λ v. length v.items ≡ count) }
    ensures small { IfOk result (λ v. (k : ℕ) → slice_index v.items k < 256) }
{
    vec![in alloc; 0; count]
}

impl Run {
    ghost use Rattle.vab_buffer.specs.Run.{IsKept, Takes, Has, Gains};

    /// A run of no sectors.
    pub(crate) fn new(alloc: Global) -> Result<Run, AllocError>
        ensures first { IfOk result (λ r. r.first ≡ 0) }
        ensures none { IfOk result (λ r. r.count ≡ 0) }
    {
        let bytes = zeros(alloc, RUN_BYTES)?;
        Ok(Run {
            first: 0,
            count: 0,
            bytes,
        })
    }

    /// Whether the sector is one of the run.
    pub(crate) fn has(&self, at: u64) -> bool
        ensures { IsTrue result ↔ Has self.now at }
    {
        self.first <= at && at - self.first < self.count as u64
    }

    /// Whether the sector may be added: the run is empty, or has room and ends before that sector.
    pub(crate) fn takes(&self, at: u64) -> bool
        ensures { IsTrue result ↔ Takes self.now at }
    {
        self.count == 0
            || (self.count < RUN_SECTORS
                && self.first <= at
                && at - self.first == self.count as u64)
    }

    /// The bytes of a sector of the run.
    pub(crate) fn get(&self, at: u64, out: &mut [u8; 512])
        requires { Has self.now at }
        ensures { IsKept self.now at out.new }
    {
        let start = SECTOR * (at - self.first) as usize;
        out.copy_from_slice(&self.bytes[start..start + SECTOR]);
    }

    /// Adds a sector.
    pub(crate) fn push(&mut self, at: u64, from: &[u8; 512])
        requires { Takes self.old at }
        ensures end { self.new.first + self.new.count ≡ at + 1 }
        ensures gains { Gains at from.now self.old self.new }
    {
        self.first = at - self.count as u64;
        let start = SECTOR * self.count;
        self.bytes[start..start + SECTOR].copy_from_slice(from);
        self.count += 1;
    }

    /// The bytes of the whole run.
    pub(crate) fn kept(&self) -> &[u8]
        ensures { result.now ≡ take (512 * self.now.count) self.now.bytes.items }
    {
        &self.bytes[..SECTOR * self.count]
    }

    /// Has as many sectors, from this one on, as stand in the front of the buffer.
    pub(crate) fn begin(&mut self, at: u64, count: usize)
        requires { count ≤ 128 }
        ensures first { self.new.first ≡ at }
        ensures count { self.new.count ≡ count }
        ensures same { self.new.bytes ≡ self.old.bytes }
    {
        self.first = at;
        self.count = count;
    }

    /// Lets the sectors go.
    pub(crate) fn clear(&mut self)
        ensures first { self.new.first ≡ self.old.first }
        ensures none { self.new.count ≡ 0 }
    {
        self.count = 0;
    }
}
