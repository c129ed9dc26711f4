// How a run ends.
ghost use Rattle.std.specs.Prelude.{◌≡◌, ◌≢◌};

use vab_device::StartFault;
use vab_look::fault_text;

pub const DONE: u8 = 0;

pub const USAGE_STATUS: u8 = 2;

pub const NO_DEVICE: u8 = 5;

pub const DISK_FAILED: u8 = 6;

pub const NOT_WRITTEN: u8 = 7;

pub const NO_MEMORY: u8 = 8;

pub const NOT_OPENED: u8 = 9;

/// The device's path, and where what is said of it goes.
#[derive(Clone, Copy)]
pub struct Device<'a> {
    pub rt: &'a HostRuntime,
    pub path: &'a str,
}

impl<'a> Device<'a> {
    /// Says in one line why the run ends, and answers the status.
    pub fn ends(&self, status: u8, why: &str) -> u8
        ensures { result ≡ status }
    {
        let path = self.path;
        let _ = eprintln!(self.rt; "vablook: {path}: {why}");
        status
    }

    /// Memory was refused.
    pub fn lacks_memory(&self) -> u8
        ensures { result ≡ 8 }
    {
        self.ends(NO_MEMORY, "memory was refused")
    }

    /// Says that the disk is no device, and why.
    pub fn is_none(&self, fault: &StartFault) -> u8
        ensures { result ≢ 0 }
    {
        let path = self.path;
        match fault_text(self.rt.alloc(), fault) {
            Err(_) => self.lacks_memory(),
            Ok(text) => match str::from_utf8(&text) {
                Ok(words) => {
                    let _ = eprintln!(self.rt; "vablook: {path}: no device: {words}");
                    NO_DEVICE
                }
                Err(_) => self.ends(NO_DEVICE, "no device"),
            },
        }
    }

    /// Says why nothing is told, and answers the status.
    pub fn refuses(&self, fault: &StartFault) -> u8
        ensures { result ≢ 0 }
    {
        match fault {
            StartFault::NoMemory => self.lacks_memory(),
            StartFault::Disk(_) => self.ends(DISK_FAILED, "the disk failed"),
            _ => self.is_none(fault),
        }
    }
}
