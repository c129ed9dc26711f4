// Ports of files and of memory.

use std::fs;
use std::io::{Read, Write};
use std::test::Fail;
use vab_disk::Disk;
use vab_real::{FilePort, OpenFault};

fn write<R: Read + Drop, W: Write + Drop>(d: &mut FilePort<R, W>, at: u64, byte: u8) -> bool {
    at < d.sectors() && d.write_sector(at, &[byte; 512]).is_ok()
}

// The bytes of a sector, where they are all the same.
fn read<R: Read + Drop, W: Write + Drop>(d: &mut FilePort<R, W>, at: u64) -> Option<u8> {
    let mut bytes = [9u8; 512];
    if at < d.sectors() && d.read_sector(at, &mut bytes).is_ok() && bytes == [bytes[0]; 512] {
        Some(bytes[0])
    } else {
        None
    }
}

#[test]
fn memory_reads_what_was_written_and_zeros(rt: HostRuntime) -> Result<(), Fail> {
    let alloc = rt.alloc();
    let mut d = FilePort::zeroed(alloc, 999_999_999, rt.stdin(), Vec::new(alloc));
    assert_eq!(rt; d.sectors(), 999_999_999);
    for at in [999_999_998u64, 0, 7, 6] {
        assert!(rt; write(&mut d, at, (at % 200 + 1) as u8));
    }
    assert!(rt; write(&mut d, 7, 255) && d.sync().is_ok());
    let wanted = [
        (0u64, 1u8),
        (1, 0),
        (6, 7),
        (7, 255),
        (8, 0),
        (999_999_998, 199),
    ];
    for (at, byte) in wanted {
        assert_eq!(rt; read(&mut d, at), Some(byte), "sector {at}");
    }
    Ok(())
}

#[test]
fn a_file_is_read_and_written_in_runs(rt: HostRuntime) -> Result<(), Fail> {
    let alloc = rt.alloc();
    let zeros = vec![in alloc; 0u8; 512 * 300 + 100]?;
    fs::write(&rt, "device.img", zeros.as_slice())?;
    {
        let opened = FilePort::open(&rt, "device.img", rt.stdin(), Vec::new(alloc));
        let mut d = opened.map_err(|_| Fail::from("open"))?;
        assert_eq!(rt; d.sectors(), 300);
        for at in 0..300u64 {
            assert!(rt; write(&mut d, at, (at % 251) as u8));
        }
        assert!(rt; write(&mut d, 17, 255) && d.sync().is_ok());
        for at in 0..300u64 {
            let wanted = if at == 17 { 255 } else { (at % 251) as u8 };
            assert_eq!(rt; read(&mut d, at), Some(wanted), "sector {at}");
        }
    }
    let image = fs::read(&rt, "device.img")?;
    assert_eq!(rt; image.len(), 512 * 300 + 100);
    for (byte, wanted) in [
        (0usize, 0u8),
        (512, 1),
        (17 * 512, 255),
        (299 * 512 + 511, 48),
    ] {
        assert_eq!(rt; image.get(byte).copied(), Some(wanted), "byte {byte}");
    }
    assert_eq!(rt; image.get(300 * 512).copied(), Some(0));
    Ok(())
}

#[test]
fn a_file_in_use_is_refused_and_stays(rt: HostRuntime) -> Result<(), Fail> {
    let alloc = rt.alloc();
    let ones = vec![in alloc; 1u8; 512 * 4]?;
    fs::write(&rt, "used.img", ones.as_slice())?;
    {
        let opened = FilePort::open(&rt, "used.img", rt.stdin(), Vec::new(alloc));
        let mut first = opened.map_err(|_| Fail::from("open"))?;
        let second = FilePort::open(&rt, "used.img", rt.stdin(), Vec::new(alloc));
        assert!(rt; matches!(second, Err(OpenFault::InUse)));
        assert_eq!(rt; read(&mut first, 3), Some(1));
    }
    let image = fs::read(&rt, "used.img")?;
    assert!(rt; image.as_slice() == ones.as_slice());
    let again = FilePort::open(&rt, "used.img", rt.stdin(), Vec::new(alloc));
    assert!(rt; again.is_ok());
    assert!(rt;
        matches!(
            FilePort::open(&rt, "missing.img", rt.stdin(), Vec::new(alloc)),
            Err(OpenFault::Open(_))
        )
    );
    Ok(())
}

// A file may end in front of sectors that it had when it was opened: those before its end are
// read, though sectors behind it are read ahead, and those behind it are faults.
#[test]
fn sectors_in_front_of_bad_ones_are_read(rt: HostRuntime) -> Result<(), Fail> {
    let alloc = rt.alloc();
    let ones = vec![in alloc; 1u8; 512 * 300]?;
    fs::write(&rt, "shorter.img", ones.as_slice())?;
    let opened = FilePort::open(&rt, "shorter.img", rt.stdin(), Vec::new(alloc));
    let mut d = opened.map_err(|_| Fail::from("open"))?;
    let shorter = vec![in alloc; 1u8; 512 * 100]?;
    fs::write(&rt, "shorter.img", shorter.as_slice())?;
    for at in 0..300u64 {
        let wanted = if at < 100 { Some(1) } else { None };
        assert_eq!(rt; read(&mut d, at), wanted, "sector {at}");
    }
    Ok(())
}

// A file's sectors are its whole pieces of 512 bytes.
#[test]
fn a_rest_of_a_file_is_no_sector(rt: HostRuntime) -> Result<(), Fail> {
    let alloc = rt.alloc();
    for (length, sectors) in [(0usize, 0u64), (511, 0), (512, 1), (1535, 2), (1536, 3)] {
        let bytes = vec![in alloc; 7u8; length]?;
        fs::write(&rt, "rest.img", bytes.as_slice())?;
        {
            let opened = FilePort::open(&rt, "rest.img", rt.stdin(), Vec::new(alloc));
            let mut d = opened.map_err(|_| Fail::from("open"))?;
            assert_eq!(rt; d.sectors(), sectors, "{length} bytes");
            for at in 0..sectors {
                assert!(rt; write(&mut d, at, 8));
            }
            assert!(rt; d.sync().is_ok());
        }
        let image = fs::read(&rt, "rest.img")?;
        assert_eq!(rt; image.len(), length);
        let rest = image.iter().filter(|byte| **byte == 7).count();
        assert_eq!(rt; rest, length % 512, "{length} bytes");
    }
    Ok(())
}
