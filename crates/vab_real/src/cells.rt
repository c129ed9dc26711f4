// Where the sectors of a port are.
ghost use Rattle.std.specs.Prelude.{◌≡◌, ◌<◌, IsOk, OnOk, OnErr};
ghost use Rattle.vab_disk.specs.Disk.{Image, set_sector};

use crate::file_store::FileStore;
use crate::pages::Pages;
use vab_buffer::Buffered;
use vab_disk::{Disk, Failed};

/// Sectors in memory, or in a file.
#[derive(Drop)]
pub(crate) enum Cells {
    Memory(Pages),
    File(Buffered<FileStore>),
}

impl Cells {
    ghost use Rattle.vab_real.specs.Cells.{size_of, HasImage};

    pub(crate) fn sectors(&self) -> u64
        ensures { result ≡ size_of self.now }
    {
        match self {
            Cells::Memory(pages) => pages.sectors,
            Cells::File(disk) => disk.sectors(),
        }
    }

    /// Reads a sector. In memory it never fails.
    pub(crate) fn read(&mut self, at: u64, out: &mut [u8; 512]) -> Result<(), Failed>
        requires { at < size_of self.old }
        ensures size { size_of self.new ≡ size_of self.old }
        ensures bytes { (image : Image) → HasImage self.old image → out.new ≡ image at }
        ensures ok { (image : Image) → HasImage self.old image → IsOk result }
        ensures same { (image : Image) → HasImage self.old image → HasImage self.new image }
    {
        match self {
            Cells::Memory(pages) => {
                pages.read(at, out);
                Ok(())
            }
            Cells::File(disk) => disk.read_sector(at, out),
        }
    }

    /// Writes a sector. In memory it fails only where memory is refused, and leaves all as it was.
    pub(crate) fn write(&mut self, at: u64, from: &[u8; 512]) -> Result<(), Failed>
        requires { at < size_of self.old }
        ensures size { size_of self.new ≡ size_of self.old }
        ensures written { (image : Image) → HasImage self.old image → OnOk result
            (HasImage self.new (set_sector image at from.now)) }
        ensures failed { (image : Image) → HasImage self.old image → OnErr result
            (HasImage self.new image) }
    {
        match self {
            Cells::Memory(pages) => match pages.write(at, from) {
                Ok(()) => Ok(()),
                Err(_) => Err(Failed),
            },
            Cells::File(disk) => disk.write_sector(at, from),
        }
    }

    /// Makes what was written lasting. In memory it never fails.
    pub(crate) fn sync(&mut self) -> Result<(), Failed>
        ensures size { size_of self.new ≡ size_of self.old }
        ensures ok { (image : Image) → HasImage self.old image → IsOk result }
        ensures same { (image : Image) → HasImage self.old image → HasImage self.new image }
    {
        match self {
            Cells::Memory(_) => Ok(()),
            Cells::File(disk) => disk.sync(),
        }
    }
}
