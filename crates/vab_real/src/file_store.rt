// A store of runs in a file.
ghost use Rattle.std.specs.Prelude.{◌≡◌, ◌<◌, ◌≤◌, ◌^◌, OnOk, OnErr};
ghost use Rattle.vab_disk.specs.Disk.{one_more};

use std::fs::File;
use std::io::{self, Seek, SeekFrom};
use std::os::unix::fs::FileExt;
use vab_buffer::RunStore;
use vab_disk::Failed;

/// Sectors of 512 bytes in a file from its beginning on. What they hold isn't told.
#[derive(Drop)]
pub(crate) struct FileStore {
    file: File,
    sectors: u64,
    faults: u64,
    ghost small: { sectors < 2 ^ 55 },
}

impl FileStore {
    /// The whole sectors of a file, by where its end is.
    pub(crate) fn new(file: File) -> io::Result<FileStore> {
        let mut file = file;
        let end = file.seek(SeekFrom::End(0))?;
        Ok(FileStore {
            file,
            sectors: end / 512,
            faults: 0,
        })
    }

    // Answers a call, and counts it where it failed.
    fn answer(&mut self, outcome: io::Result<()>) -> Result<(), Failed>
        ensures sectors { self.new.sectors ≡ self.old.sectors }
        ensures steady { OnOk result (self.new.faults ≡ self.old.faults) }
        ensures cause { OnErr result (self.new.faults ≡ one_more self.old.faults) }
        ensures later { self.old.faults ≤ self.new.faults }
    {
        match outcome {
            Ok(()) => Ok(()),
            Err(_) => {
                self.faults = self.faults.saturating_add(1);
                Err(Failed)
            }
        }
    }
}

impl RunStore for FileStore {
    ghost use Rattle.std.specs.Prelude.{[], ℕ, refl, replicate};
    ghost use Rattle.std.proofs.Common.{subst, sym, lit<};
    ghost use Rattle.vab_disk.specs.Disk.{Faults, Leaves, IsSector};
    ghost use Rattle.vab_disk.specs.MemoryLaws.{zeros_whole};

    ghost is_modelled = { ⊥ };

    ghost size = { λ p. p.sectors };

    ghost seen = { λ p s. replicate 512 0 };

    ghost may_leave = { λ p s b. b ≡ replicate 512 0 };

    ghost told = { λ p. [] };

    ghost input_left = { λ p. [] };

    ghost heard = { λ p. [] };

    ghost faults = { λ p. record { disk = p.faults; source = 0; sink = 0 } };

    ghost moment = { λ p. 0 };

    ghost outcomes = { λ p t o. Leaves [] (λ s b. b ≡ replicate 512 0) o };

    ghost small = { λ p. p.small };

    ghost whole = { λ p s b below is. subst IsSector (sym is) zeros_whole };

    ghost seen_held = { λ p s. refl };

    ghost bytes = { λ p k. lit< tt };

    ghost counts_now = { λ p t o le now. now };

    ghost only_now = { λ p o left. left };

    fn sectors(&self) -> u64 {
        self.sectors
    }

    fn read_run(&mut self, at: u64, out: &mut [u8]) -> Result<(), Failed> {
        let outcome = self.file.read_exact_at(out, 512 * at);
        self.answer(outcome)
    }

    fn write_run(&mut self, at: u64, from: &[u8]) -> Result<(), Failed> {
        let outcome = self.file.write_all_at(from, 512 * at);
        self.answer(outcome)
    }

    /// Makes what was written lasting, by `fsync` of the file.
    fn sync(&mut self) -> Result<(), Failed> {
        let outcome = self.file.sync_all();
        self.answer(outcome)
    }
}
