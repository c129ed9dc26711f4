// The pages of a device of one image.

ghost use Rattle.std.specs.Prelude.{IfOk};
ghost use Rattle.vab_set.specs.Spelling.{IsSet};

use std::alloc::Global;
use std::test::*;
use vab_disk::MemPort;
use vab_look::{Form, check_text, status_text, stores_text, tables_text};
use vab_make::make_device;
use vab_set::{Set, read_set};
use vab_survey::{survey_disk, tables_page};

pub const SECTORS: u64 = 8192;

// One image `x` of three bytes for a partition of 4096 bytes.
const ONE: [u8; 41] = [
    b'V', b'A', b'B', b'S', b'E', b'T', b'1', b'\n', 1, 0, 0, 0, 1, b'x', 0, 16, 0, 0, 0, 0, 0, 0,
    0, 0, 0, 0, 0, 0, 0, 0, 3, 0, 0, 0, 0, 0, 0, 0, b'a', b'b', b'c',
];

const STATUS: &[u8] = b"cap 256\ncurrent a\nphase idle\n\
    slot a images 1 priority 15 tries 0 successful yes\nimage a x 4096\nslot b none\n";

const TABLES: &[u8] = b"geometry max 65536 slots 2\n\
    table a primary ok\ntable a backup ok\ntable a reads primary\n\
    partition a x_a attributes 1 bytes 4096 group main_a\nextent a 2048 8\n\
    group a default limit 0\ngroup a main_a limit 0\ngroup a main_b limit 0\n\
    device a super first 2048 bytes 2097152\n\
    table b primary no header\ntable b backup no header\n";

fn set_of_one(alloc: Global) -> Result<Set<'static>, Fail>
    ensures { IfOk result (λ set. IsSet set) }
{
    match read_set(alloc, &ONE) {
        Ok(set) => Ok(set),
        Err(_) => Err("the bytes are a set".into()),
    }
}

// A disk with the device of one image.
pub(crate) fn device_of_one(alloc: Global) -> Result<MemPort, Fail> {
    let d = MemPort::new(alloc, SECTORS, Vec::new(alloc));
    let mut d = d.ok().ok_or("there is memory for a disk")?;
    let set = set_of_one(alloc)?;
    match make_device(alloc, &mut d, &set, 0, 65536) {
        Ok(()) => Ok(d.next_run(Vec::new(alloc))),
        Err(_) => Err("a device is made".into()),
    }
}

// The page of what is wrong with a disk.
pub(crate) fn checked(alloc: Global, d: &mut MemPort) -> Result<Vec<u8>, Fail> {
    match survey_disk(alloc, d) {
        Ok(survey) => Ok(
            check_text(alloc, Form::Text, &survey)
                .ok()
                .ok_or("there is memory")?,
        ),
        Err(_) => Err("the disk doesn't fail".into()),
    }
}

#[test]
fn the_pages_of_a_made_device(rt: HostRuntime) -> Result<(), Fail> {
    let alloc = rt.alloc();
    let mut d = device_of_one(alloc)?;
    let status = status_text(alloc, Form::Text, &mut d)
        .ok()
        .ok_or("it is a device")?;
    assert_eq!(rt; status.as_slice(), STATUS);
    let stores = stores_text(alloc, Form::Text, &mut d)
        .ok()
        .ok_or("it is a device")?;
    assert!(rt; stores.is_empty());
    Ok(())
}

#[test]
fn the_tables_of_a_made_device(rt: HostRuntime) -> Result<(), Fail> {
    let alloc = rt.alloc();
    let mut d = device_of_one(alloc)?;
    let tables = tables_page(alloc, &mut d).ok().ok_or("it has tables")?;
    let text = tables_text(alloc, Form::Text, &tables)
        .ok()
        .ok_or("there is memory")?;
    assert_eq!(rt; text.as_slice(), TABLES);
    Ok(())
}

// The page of status as JSON.
const STATUS_JSON: &[u8] = b"{\"kind\":\"status\",\"cap\":256,\"current\":\"a\",\"phase\":\"idle\",\
\"left\":0}\n\
{\"kind\":\"slot\",\"slot\":\"a\",\"images\":1,\"priority\":15,\"tries\":0,\
\"successful\":\"yes\"}\n\
{\"kind\":\"image\",\"slot\":\"a\",\"name\":\"x\",\"bytes\":4096}\n";

#[test]
fn a_page_as_json(rt: HostRuntime) -> Result<(), Fail> {
    let alloc = rt.alloc();
    let mut d = device_of_one(alloc)?;
    let status = status_text(alloc, Form::Json, &mut d)
        .ok()
        .ok_or("it is a device")?;
    assert_eq!(rt; status.as_slice(), STATUS_JSON);
    Ok(())
}
