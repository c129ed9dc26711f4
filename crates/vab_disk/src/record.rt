// What a port in memory was asked to do.
ghost use Rattle.vab_disk.specs.Disk.{IsSector};

/// The 512 bytes of a sector.
#[derive(Clone, Copy)]
pub struct Sector {
    pub bytes: [u8; 512],
    ghost whole: { IsSector bytes },
}

/// A call that took effect.
#[derive(Drop)]
pub enum Call {
    Read(u64),
    Wrote(u64, Sector),
    Synced,
    Heard(usize),
    Said(Vec<u8>),
}
