// The images of a slot, as files.

ghost use Rattle.std.specs.Prelude.{◌<◌, ℕ};
ghost use Rattle.vab_disk.specs.Calls.{OnlyReads};
ghost use Rattle.vab_device.specs.Kept.{IsDevice};

use crate::ending::{DISK_FAILED, DONE, Device, NO_DEVICE, NOT_WRITTEN};
use std::fs::{File, OpenOptions};
use std::io::{self, BufWriter, Write};
use vab_bytes::Name36;
use vab_device::Device as Opened;
use vab_disk::Disk;
use vab_look::{CopyFault, copy_image};
use vab_recover::probe;

// The bytes that are written at once.
const PIECE: usize = 1 << 16;

// The path of an image's file.
fn path_of(device: &Device<'_>, folder: &str, name: &Name36) -> Option<String> {
    let mut path = String::from_str(device.rt.alloc(), folder).ok()?;
    path.push_str("/").ok()?;
    path.push_str(str::from_utf8(name.text()).ok()?).ok()?;
    path.push_str(".img").ok()?;
    Some(path)
}

// A new file.
fn new_file(rt: &HostRuntime, path: &str) -> io::Result<File> {
    OpenOptions::new()
        .write(true)
        .create_new(true)
        .open(rt, path)
}

// Says that a file isn't written, and answers the status.
fn not_written(device: &Device<'_>, path: &str, fault: &io::Error) -> u8 {
    let name = device.path;
    let _ = eprintln!(device.rt; "vablook: {name}: {path} isn't written: {fault}");
    NOT_WRITTEN
}

// Writes an image into a new file.
fn extract_image<D: Disk>(
    device: &Device<'_>,
    d: &mut D,
    opened: &Opened,
    slot: usize,
    name: &Name36,
    path: &str,
) -> u8
    requires kept { IsDevice opened.now (D.size d.old) }
    requires slot { slot < 2 }
    ensures { OnlyReads D.Disk d.old d.new }
{
    let file = match new_file(device.rt, path) {
        Ok(file) => file,
        Err(fault) => return not_written(device, path, &fault),
    };
    let mut out = match BufWriter::with_capacity(device.rt.alloc(), PIECE, file) {
        Ok(out) => out,
        Err(_) => return device.lacks_memory(),
    };
    match copy_image(d, opened, slot, name.text(), &mut out) {
        Err(CopyFault::Disk) => device.ends(DISK_FAILED, "the disk failed"),
        Err(CopyFault::Output) => device.ends(NOT_WRITTEN, "a file can't be written"),
        Ok(()) => match out.flush() {
            Ok(()) => DONE,
            Err(fault) => not_written(device, path, &fault),
        },
    }
}

// Writes the images of a slot into new files.
fn extract_slot<D: Disk>(
    device: &Device<'_>,
    d: &mut D,
    opened: &Opened,
    slot: usize,
    folder: &str,
) -> u8
    requires kept { IsDevice opened.now (D.size d.old) }
    requires slot { slot < 2 }
    ensures { OnlyReads D.Disk d.old d.new }
{
    let images = match opened.images(slot) {
        Some(images) => images,
        None => return device.ends(NO_DEVICE, "the slot has no images"),
    };
    for part in images.as_slice() {
        let path = match path_of(device, folder, &part.name) {
            Some(path) => path,
            None => return device.lacks_memory(),
        };
        let status = extract_image(device, d, opened, slot, &part.name, path.as_str());
        if status != DONE {
            return status;
        }
    }
    DONE
}

// The slot that is asked for, or the current one.
fn chosen(slot: Option<usize>, opened: &Opened) -> usize
    requires { (size : ℕ) × IsDevice opened.now size }
    ensures { result < 2 }
{
    match slot {
        Some(0) => 0,
        Some(_) => 1,
        None => opened.current(),
    }
}

/// Writes each image of a slot, or of the current one, into a new file of a folder, and answers the
/// status. A name that is there already is refused.
pub fn extract<D: Disk>(device: &Device<'_>, d: &mut D, folder: &str, slot: Option<usize>) -> u8
    ensures { OnlyReads D.Disk d.old d.new }
{
    match probe(device.rt.alloc(), d) {
        Err(fault) => device.refuses(&fault),
        Ok(opened) => extract_slot(device, d, &opened, chosen(slot, &opened), folder),
    }
}
