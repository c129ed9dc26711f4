//! What a session keeps between two packets.

use vab_device::Device;

/// The device as the disk has it, and the bytes of the last download, until a flash is done.
#[derive(Drop)]
pub struct KeptDevice {
    pub device: Device,
    pub staged: Option<Vec<u8>>,
}
