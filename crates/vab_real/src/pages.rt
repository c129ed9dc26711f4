// Sectors in memory, which take it when they are first written.
ghost use Rattle.std.specs.Prelude.{◌≡◌, ◌<◌, ◌^◌, ℕ, None, OnOk, OnErr, replicate};
ghost use Rattle.std.specs.Ordering.{nat_cmp};
ghost use Rattle.std.specs.BTreeMap.{get};
ghost use Rattle.vab_disk.specs.Disk.{set_sector};

use std::alloc::{AllocError, Global};
use std::collections::BTreeMap;

/// Sectors of zeros, but for those that were written.
#[derive(Drop)]
pub(crate) struct Pages {
    pub(crate) sectors: u64,
    pub(crate) alloc: Global,
    pub(crate) written: BTreeMap<u64, Box<[u8; 512]>>,
    ghost small: { sectors < 2 ^ 55 },
}

impl Pages {
    ghost use Rattle.vab_real.specs.Pages.{image_of};

    /// Zeros alone, which take no memory.
    pub(crate) fn new(alloc: Global, sectors: u64) -> Pages
        requires { sectors < 2 ^ 55 }
        ensures sectors { result.sectors ≡ sectors }
        ensures zeros { (s : ℕ) → image_of result s ≡ replicate 512 0 }
    {
        Pages {
            sectors,
            alloc,
            written: BTreeMap::new(alloc),
        }
    }

    /// Reads a sector.
    pub(crate) fn read(&self, at: u64, out: &mut [u8; 512])
        ensures { out.new ≡ image_of self.now at }
    {
        *out = match self.written.get(&at) {
            Some(bytes) => **bytes,
            None => [0; 512],
        };
    }

    /// Writes a sector. Memory may be refused where the sector was never written; then nothing is.
    pub(crate) fn write(&mut self, at: u64, from: &[u8; 512]) -> Result<(), AllocError>
        ensures written { OnOk result
            ((s : ℕ) → image_of self.new s ≡ set_sector (image_of self.old) at from.now s) }
        ensures failed { OnErr result ((s : ℕ) → image_of self.new s ≡ image_of self.old s) }
        ensures sectors { self.new.sectors ≡ self.old.sectors }
        ensures absent { OnErr result (get nat_cmp self.old.written at ≡ None) }
    {
        if let Some(bytes) = self.written.get_mut(&at) {
            **bytes = *from;
            return Ok(());
        }
        let bytes = Box::new(self.alloc, *from)?;
        self.written.insert(at, bytes)?;
        Ok(())
    }
}
