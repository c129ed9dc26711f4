// The port over the outside world.
ghost use Rattle.std.specs.Prelude.{◌≡◌, ◌<◌, ◌≤◌, ◌^◌, IfOk, IsOk, OnOk, OnErr, replicate, false};
ghost use Rattle.vab_disk.specs.Disk.{Image, NoFewer, set_sector, SinkFailed, SourceFailed};

use crate::cells::Cells;
use crate::file_store::FileStore;
use crate::pages::Pages;
use std::alloc::Global;
use std::fs::{File, OpenOptions, TryLockError};
use std::io::{self, Read, Write};
use std::rt::Files;
use thiserror::Error;
use vab_buffer::Buffered;
use vab_disk::{Disk, Failed, NoMemory, Port, PortFault};

/// Why a file can't be the disk.
#[derive(Debug, Drop, Error)]
pub enum OpenFault {
    /// It can't be opened, or only for writing.
    #[error("the file can't be opened: {0}")]
    Open(io::Error),
    /// Another run has it.
    #[error("the file is in use by another run")]
    InUse,
    /// It can't be locked.
    #[error("the file can't be locked: {0}")]
    Lock(io::Error),
    /// Where its end is can't be asked.
    #[error("the file's length can't be read: {0}")]
    Length(io::Error),
    /// There is no memory for a buffer.
    #[error("there is no memory for a buffer")]
    Memory,
}

/// A disk in a file or in memory, with a source of input and a sink for what is told.
#[derive(Drop)]
pub struct FilePort<R: Read + Drop, W: Write + Drop> {
    cells: Cells,
    input: R,
    output: W,
    disk_faults: u64,
    source_faults: u64,
    sink_faults: u64,
    read_only: bool,
}

impl<R: Read + Drop, W: Write + Drop> FilePort<R, W> {
    ghost use Rattle.vab_real.specs.Cells.{size_of, HasImage, no_faults};

    fn new(cells: Cells, read_only: bool, input: R, output: W) -> Self
        ensures cells { result.cells ≡ cells }
        ensures read_only { result.read_only ≡ read_only }
        ensures faults { ⟦<FilePort<R, W> as Disk>⟧.faults result ≡ no_faults }
    {
        FilePort {
            cells,
            input,
            output,
            disk_faults: 0,
            source_faults: 0,
            sink_faults: 0,
            read_only,
        }
    }

    /// A port over so many sectors of zeros in memory, which is taken as they are written.
    pub fn zeroed(alloc: Global, sectors: u64, input: R, output: W) -> Self
        requires { sectors < 2 ^ 55 }
        ensures size { size_of result.cells ≡ sectors }
        ensures zeros { HasImage result.cells (λ s. replicate 512 0) }
        ensures read_only { result.read_only ≡ false }
        ensures faults { ⟦<FilePort<R, W> as Disk>⟧.faults result ≡ no_faults }
    {
        FilePort::new(
            Cells::Memory(Pages::new(alloc, sectors)),
            false,
            input,
            output,
        )
    }

    /// A port over a file that exists, whose whole pieces of 512 bytes are its sectors. A rest
    /// isn't read. Its size is where its end is, for a block device too. The file is locked for
    /// this port alone, as `flock` does, until the port is dropped; where another run has it,
    /// nothing is read or written. A file that can't be written is opened for reading alone, and
    /// shares its lock with others that only read; a write to it is a fault of the disk.
    pub fn open<F: Files<File = File> + AllocGlobal>(
        files: &F,
        path: &str,
        input: R,
        output: W,
    ) -> Result<Self, OpenFault>
        ensures { IfOk result (λ p. ⟦<FilePort<R, W> as Disk>⟧.faults p ≡ no_faults) }
    {
        let Opened { file, read_only } = open_file(files, path)?;
        lock(&file, read_only)?;
        let store = match FileStore::new(file) {
            Ok(store) => store,
            Err(fault) => return Err(OpenFault::Length(fault)),
        };
        match Buffered::new(files.alloc(), store) {
            Ok(disk) => Ok(FilePort::new(Cells::File(disk), read_only, input, output)),
            Err(NoMemory) => Err(OpenFault::Memory),
        }
    }

    /// A port over a file that exists, as `open` makes one, but for reading alone, whether the file
    /// can be written or not. It shares its lock with others that only read; a write to it is a
    /// fault of the disk.
    pub fn open_to_read<F: Files<File = File> + AllocGlobal>(
        files: &F,
        path: &str,
        input: R,
        output: W,
    ) -> Result<Self, OpenFault>
        ensures { IfOk result (λ p. ⟦<FilePort<R, W> as Disk>⟧.faults p ≡ no_faults) }
    {
        let file = match File::open(files, path) {
            Ok(file) => file,
            Err(fault) => return Err(OpenFault::Open(fault)),
        };
        lock(&file, true)?;
        let store = match FileStore::new(file) {
            Ok(store) => store,
            Err(fault) => return Err(OpenFault::Length(fault)),
        };
        match Buffered::new(files.alloc(), store) {
            Ok(disk) => Ok(FilePort::new(Cells::File(disk), true, input, output)),
            Err(NoMemory) => Err(OpenFault::Memory),
        }
    }

    /// Whether its file can't be written, so that it was opened for reading alone.
    pub fn is_read_only(&self) -> bool
        ensures { result ≡ self.now.read_only }
    {
        self.read_only
    }
}

// A file, and whether it can only be read.
struct Opened {
    file: File,
    read_only: bool,
}

// Whether a file couldn't be opened since it may not be written.
fn is_write_refused(fault: &io::Error) -> bool {
    match fault.kind() {
        io::ErrorKind::PermissionDenied | io::ErrorKind::ReadOnlyFilesystem => true,
        _ => false,
    }
}

// Opens a file for reading and writing, or where it can't be written for reading alone.
fn open_file<F: Files<File = File>>(files: &F, path: &str) -> Result<Opened, OpenFault> {
    match OpenOptions::new().read(true).write(true).open(files, path) {
        Ok(file) => Ok(Opened {
            file,
            read_only: false,
        }),
        Err(fault) if is_write_refused(&fault) => match File::open(files, path) {
            Ok(file) => Ok(Opened {
                file,
                read_only: true,
            }),
            Err(fault) => Err(OpenFault::Open(fault)),
        },
        Err(fault) => Err(OpenFault::Open(fault)),
    }
}

// Locks a file: one that is only read together with others that only read it.
fn lock(file: &File, read_only: bool) -> Result<(), OpenFault> {
    let locked = if read_only {
        file.try_lock_shared()
    } else {
        file.try_lock()
    };
    match locked {
        Ok(()) => Ok(()),
        Err(TryLockError::WouldBlock) => Err(OpenFault::InUse),
        Err(TryLockError::Error(fault)) => Err(OpenFault::Lock(fault)),
    }
}

impl<R: Read + Drop, W: Write + Drop> Disk for FilePort<R, W> {
    ghost use Rattle.std.specs.Prelude.{[], ℕ, refl, replicate};
    ghost use Rattle.std.proofs.Common.{subst, sym, lit<};
    ghost use Rattle.vab_disk.specs.Disk.{Faults, Leaves, IsSector};
    ghost use Rattle.vab_disk.specs.Calls.{IsQuiet, OnlyReads, FailsWithDisk};
    ghost use Rattle.vab_disk.specs.MemoryLaws.{zeros_whole};
    ghost use Rattle.vab_real.specs.Cells.{size_of, HasImage, cells_small};

    ghost is_modelled = { ⊥ };

    ghost size = { λ p. size_of p.cells };

    ghost seen = { λ p s. replicate 512 0 };

    ghost may_leave = { λ p s b. b ≡ replicate 512 0 };

    ghost told = { λ p. [] };

    ghost input_left = { λ p. [] };

    ghost heard = { λ p. [] };

    ghost faults = { λ p. record {
      disk = p.disk_faults;
      source = p.source_faults;
      sink = p.sink_faults;
    } };

    ghost moment = { λ p. 0 };

    ghost outcomes = { λ p t o. Leaves [] (λ s b. b ≡ replicate 512 0) o };

    ghost small = { λ p. cells_small p.cells };

    ghost whole = { λ p s b below is. subst IsSector (sym is) zeros_whole };

    ghost seen_held = { λ p s. refl };

    ghost bytes = { λ p k. lit< tt };

    ghost counts_now = { λ p t o le now. now };

    ghost only_now = { λ p o left. left };

    fn sectors(&self) -> u64 {
        self.cells.sectors()
    }

    fn read_sector(&mut self, at: u64, out: &mut [u8; 512]) -> Result<(), Failed>
        requires { at < size_of self.old.cells }
        ensures reads { OnlyReads ⟦<FilePort<R, W> as Disk>⟧ self.old self.new }
        ensures faults { FailsWithDisk ⟦<FilePort<R, W> as Disk>⟧ self.old self.new result }
        // In memory it never fails, and gives what was written there last.
        ensures ok { (image : Image) → HasImage self.old.cells image → IsOk result }
        ensures read { (image : Image) → HasImage self.old.cells image → out.new ≡ image at }
        ensures same { (image : Image)
            → HasImage self.old.cells image
            → HasImage self.new.cells image }
    {
        match self.cells.read(at, out) {
            Ok(()) => Ok(()),
            Err(_) => {
                self.disk_faults = self.disk_faults.saturating_add(1);
                Err(Failed)
            }
        }
    }

    fn write_sector(&mut self, at: u64, from: &[u8; 512]) -> Result<(), Failed>
        requires { at < size_of self.old.cells }
        ensures quiet { IsQuiet ⟦<FilePort<R, W> as Disk>⟧ self.old self.new }
        ensures faults { FailsWithDisk ⟦<FilePort<R, W> as Disk>⟧ self.old self.new result }
        // In memory it fails only where memory is refused, and leaves all as it was.
        ensures wrote { (image : Image) → HasImage self.old.cells image → OnOk result
            (HasImage self.new.cells (set_sector image at from.now)) }
        ensures refused { (image : Image) → HasImage self.old.cells image → OnErr result
            (HasImage self.new.cells image) }
    {
        match self.cells.write(at, from) {
            Ok(()) => Ok(()),
            Err(_) => {
                self.disk_faults = self.disk_faults.saturating_add(1);
                Err(Failed)
            }
        }
    }

    fn sync(&mut self) -> Result<(), Failed>
        ensures quiet { IsQuiet ⟦<FilePort<R, W> as Disk>⟧ self.old self.new }
        ensures faults { FailsWithDisk ⟦<FilePort<R, W> as Disk>⟧ self.old self.new result }
        // In memory it never fails.
        ensures ok { (image : Image) → HasImage self.old.cells image → IsOk result }
        ensures same { (image : Image)
            → HasImage self.old.cells image
            → HasImage self.new.cells image }
    {
        match self.cells.sync() {
            Ok(()) => Ok(()),
            Err(_) => {
                self.disk_faults = self.disk_faults.saturating_add(1);
                Err(Failed)
            }
        }
    }
}

impl<R: Read + Drop, W: Write + Drop> Port for FilePort<R, W> {
    ghost use Rattle.std.specs.Prelude.{length, IsErrOf};

    fn hear(&mut self, out: &mut [u8]) -> Result<usize, PortFault>
        ensures fits { IfOk result (λ n. n ≤ length out.old) }
        ensures size { ⟦<FilePort<R, W> as Disk>⟧.size self.new
            ≡ ⟦<FilePort<R, W> as Disk>⟧.size self.old }
        ensures counts { NoFewer (⟦<FilePort<R, W> as Disk>⟧.faults self.old)
            (⟦<FilePort<R, W> as Disk>⟧.faults self.new) }
        ensures steady { OnOk result
            (⟦<FilePort<R, W> as Disk>⟧.faults self.new
            ≡ ⟦<FilePort<R, W> as Disk>⟧.faults self.old) }
        ensures kind { IsErrOf result PortFault.Sink → ⊥ }
        ensures cause { OnErr result
            (SourceFailed (⟦<FilePort<R, W> as Disk>⟧.faults self.old)
            (⟦<FilePort<R, W> as Disk>⟧.faults self.new)) }
        ensures cells { self.new.cells ≡ self.old.cells }
    {
        match self.input.read(out) {
            Ok(count) => Ok(count),
            Err(_) => {
                self.source_faults = self.source_faults.saturating_add(1);
                Err(PortFault::Source)
            }
        }
    }

    fn say(&mut self, from: &[u8]) -> Result<usize, PortFault>
        ensures fits { IfOk result (λ n. n ≤ length from.now) }
        ensures some { IfOk result (λ n. n ≡ 0 → length from.now ≡ 0) }
        ensures size { ⟦<FilePort<R, W> as Disk>⟧.size self.new
            ≡ ⟦<FilePort<R, W> as Disk>⟧.size self.old }
        ensures counts { NoFewer (⟦<FilePort<R, W> as Disk>⟧.faults self.old)
            (⟦<FilePort<R, W> as Disk>⟧.faults self.new) }
        ensures steady { OnOk result
            (⟦<FilePort<R, W> as Disk>⟧.faults self.new
            ≡ ⟦<FilePort<R, W> as Disk>⟧.faults self.old) }
        ensures kind { IsErrOf result PortFault.Source → ⊥ }
        ensures cause { OnErr result
            (SinkFailed (⟦<FilePort<R, W> as Disk>⟧.faults self.old)
            (⟦<FilePort<R, W> as Disk>⟧.faults self.new)) }
        ensures cells { self.new.cells ≡ self.old.cells }
    {
        match self.output.write(from) {
            Ok(count) if count > 0 || from.is_empty() => Ok(count),
            _ => {
                self.sink_faults = self.sink_faults.saturating_add(1);
                Err(PortFault::Sink)
            }
        }
    }
}
