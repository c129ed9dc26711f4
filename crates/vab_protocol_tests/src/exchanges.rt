// Inputs that are read out.

use arrayvec::ArrayVec;
use std::alloc::Global;
use std::test::*;
use vab_disk::MemPort;
use vab_exchanges::{ReadFault, Reader, say_all};

// A port whose input is a hello and these packets.
fn port_of(alloc: Global, packets: &[&[u8]]) -> Result<MemPort, Fail> {
    let mut input = Vec::new(alloc);
    input.extend_from_slice(b"FB02")?;
    for packet in packets {
        input.extend_from_slice(&(packet.len() as u64).to_be_bytes())?;
        input.extend_from_slice(packet)?;
    }
    MemPort::new(alloc, 8, input).map_err(|_| Fail::from("memory"))
}

#[test]
fn data_come_in_any_packets(rt: HostRuntime) -> Result<(), Fail> {
    let packets = [
        b"download:00000010".as_slice(),
        b"12345",
        b"",
        b"67890123456",
    ];
    let mut port = port_of(rt.alloc(), &packets)?;
    let mut reader = Reader::new(1 << 44);
    let mut command = ArrayVec::new();
    let mut staged = Vec::with_capacity(rt.alloc(), 16)?;
    reader.hello(&mut port)?;
    if !reader.packet(&mut port, &mut command)? {
        return Err(Fail::from("no packet"));
    }
    reader.data(&mut port, &mut staged, 16)?;
    assert!(rt; command.as_slice() == b"download:00000010".as_slice());
    assert!(rt; staged.as_slice() == b"1234567890123456".as_slice());
    assert!(rt; reader.packet(&mut port, &mut command) == Ok(false));
    Ok(())
}

#[test]
fn more_data_than_are_due_are_an_overrun(rt: HostRuntime) -> Result<(), Fail> {
    let packets = [b"download:00000010".as_slice(), b"12345", b"678901234567"];
    let mut port = port_of(rt.alloc(), &packets)?;
    let mut reader = Reader::new(1 << 44);
    let mut command = ArrayVec::new();
    let mut staged = Vec::with_capacity(rt.alloc(), 16)?;
    reader.hello(&mut port)?;
    if !reader.packet(&mut port, &mut command)? {
        return Err(Fail::from("no packet"));
    }
    let read = reader.data(&mut port, &mut staged, 16);
    assert!(rt; read == Err(ReadFault::Overrun(11, 12)));
    Ok(())
}

#[test]
fn all_of_a_text_is_told(rt: HostRuntime) -> Result<(), Fail> {
    let mut port = port_of(rt.alloc(), &[])?;
    say_all(&mut port, b"FB01")?;
    say_all(&mut port, b"")?;
    assert!(rt; port.told() == b"FB01".as_slice());
    Ok(())
}
