// Packets and texts that are written out.

use arrayvec::ArrayVec;
use std::test::*;
use vab_fbproto::{BadCommand, Request, Var, put_decimal, read_command, reply_text};
use vab_model::{Command, Refusal, Reply};
use vab_space::Chunk;

// A variable, as a letter.
fn letter_of_variable(variable: Var) -> u8 {
    match variable {
        Var::Version => b'v',
        Var::CurrentSlot => b'c',
        Var::SlotCount => b's',
        Var::MaxDownloadSize => b'x',
        Var::HasSlot(_) => b'h',
        Var::SlotSuccessful(_) => b'g',
        Var::SlotUnbootable(_) => b'u',
        Var::SlotRetryCount(_) => b't',
        Var::PartitionSize(_) => b'z',
        Var::IsLogical(_) => b'l',
        Var::SnapshotUpdateStatus => b'k',
        Var::Unknown => b'n',
    }
}

// A command, as a letter.
fn letter_of_command(command: Command) -> u8 {
    match command {
        Command::SetActive(0) => b'0',
        Command::SetActive(_) => b'1',
        Command::Boot => b'b',
        Command::Mark => b'm',
        Command::Digest(_) => b'd',
        Command::Print(_) => b'p',
        Command::Begin => b'G',
        Command::Factory => b'Y',
        Command::Create(_, 4096) => b'C',
        Command::Create(_, _) => b'N',
        Command::Resize(_, _) => b'R',
        Command::Delete(_) => b'X',
        Command::Snapshot(_, _) => b'S',
        Command::Flash(_, Chunk::One) => b'F',
        Command::Flash(_, Chunk::Two) => b'2',
        Command::Flash(_, Chunk::Four) => b'4',
        Command::Keep(_) => b'k',
        Command::Finish => b'f',
        Command::Cancel => b'q',
        Command::BeginMerge => b'B',
        Command::Merge(_) => b'M',
        Command::UpdateSuper => b'W',
        Command::Overlay(_, 8192) => b'O',
        Command::Overlay(_, _) => b'o',
        Command::OverlayWrite(17) => b'w',
        Command::OverlayWrite(_) => b'i',
        Command::OverlayDiscard => b'r',
    }
}

// What a packet asks for, as a letter.
fn letter_of(packet: &[u8]) -> u8 {
    match read_command(packet) {
        Ok(Request::Getvar(variable)) => letter_of_variable(variable),
        Ok(Request::Download(16)) => b'D',
        Ok(Request::Download(_)) => b'L',
        Ok(Request::Do(command)) => letter_of_command(command),
        Ok(Request::MergeAll) => b'A',
        Ok(Request::BootAndEnd) => b'e',
        Err(BadCommand::Unknown) => b'?',
        Err(BadCommand::BadArgument) => b'!',
    }
}

#[test]
fn packets_ask_for_what_their_words_say(rt: HostRuntime) -> Result<(), Fail> {
    for (packet, letter) in [
        (b"getvar:version".as_slice(), b'v'),
        (b"getvar:current-slot", b'c'),
        (b"getvar:slot-count", b's'),
        (b"getvar:", b'n'),
        (b"getvar:versions", b'n'),
        (b"getvar:version:", b'!'),
        (b"getvar", b'!'),
        (b"getvar:has-slot:system", b'h'),
        (b"getvar:has-slot:", b'!'),
        (b"getvar:slot-retry-count:_b", b't'),
        (b"getvar:slot-unbootable:c", b'!'),
        (b"getvar:partition-size:a_a", b'z'),
        (b"getvar:is-logical", b'!'),
        (b"download:00000010", b'D'),
        (b"download:fFfFfFfF", b'L'),
        (b"download:123456789", b'!'),
        (b"download:", b'!'),
        (b"set_active:a", b'0'),
        (b"set_active:_a", b'0'),
        (b"set_active:_b", b'1'),
        (b"set_active:c", b'!'),
        (b"set_active", b'!'),
        (b"reboot", b'e'),
        (b"continue", b'e'),
        (b"reboot:", b'!'),
        (b"reboot-bootloader", b'?'),
        (b"oem boot", b'b'),
        (b"oem boot ", b'!'),
        (b"oem boot\t", b'!'),
        (b"oem\tboot", b'?'),
        (b"oem boot:x", b'?'),
        (b"oem mark-successful", b'm'),
        (b"oem digest system_a", b'd'),
        (b"oem digest\tsystem_a", b'd'),
        (b"oem digest", b'!'),
        (b"oem digest ", b'!'),
        (b"oem digest a b", b'!'),
        (b"oem digest a:b", b'!'),
        (b"oem keep boot_b", b'k'),
        (b"oem keep", b'!'),
        (b"create-logical-partition:x_b:4096", b'C'),
        (b"create-logical-partition:x_b:0x1000", b'C'),
        (b"create-logical-partition:x_b:00000000000000004096", b'C'),
        (b"create-logical-partition:x_b:000000000000000004096", b'!'),
        (b"create-logical-partition:x_b:18446744073709551615", b'N'),
        (b"create-logical-partition:x_b:18446744073709551616", b'!'),
        (b"create-logical-partition:x_b:0xFFFFFFFFffffffff", b'N'),
        (b"create-logical-partition:x_b:0x", b'!'),
        (b"create-logical-partition:x_b:a", b'!'),
        (b"create-logical-partition:x_b", b'!'),
        (b"create-logical-partition::4096", b'!'),
        (b"resize-logical-partition:x_b:0", b'R'),
        (b"delete-logical-partition:x_b", b'X'),
        (b"delete-logical-partition:x b", b'!'),
        (b"flash:x_b", b'F'),
        (b"flash", b'!'),
        (b"flash:x_b 16", b'!'),
        (b"oem flash x_b 8", b'F'),
        (b"oem flash x_b 16", b'2'),
        (b"oem flash x_b\t32", b'4'),
        (b"oem flash x_b", b'!'),
        (b"oem flash", b'!'),
        (b"oem flash ", b'!'),
        (b"oem flash  8", b'!'),
        (b"oem flash x_b ", b'!'),
        (b"oem flash x_b 4", b'!'),
        (b"oem flash x_b 64", b'!'),
        (b"oem flash x_b 08", b'!'),
        (b"oem flash x_b 0x8", b'!'),
        (b"oem flash x_b  8", b'!'),
        (b"oem flash x_b 8 ", b'!'),
        (b"oem flash x:b 8", b'!'),
        (b"oem flash:x_b 8", b'?'),
        (b"snapshot-update:cancel", b'q'),
        (b"snapshot-update:merge", b'A'),
        (b"snapshot-update", b'!'),
        (b"oem snapshot x_b 0x0", b'S'),
        (b"oem snapshot x_b", b'!'),
        (b"oem snapshot x_b 0 ", b'!'),
        (b"oem overlay x_a 8192", b'O'),
        (b"oem overlay x_a 0x2000", b'O'),
        (b"oem overlay x_a 0", b'o'),
        (b"oem overlay x_a", b'!'),
        (b"oem overlay", b'!'),
        (b"oem overlay  8192", b'!'),
        (b"oem overlay x_a:8192", b'!'),
        (b"oem overlay x_a 8192 ", b'!'),
        (b"oem overlay:x_a 8192", b'?'),
        (b"oem overlays x_a 8192", b'?'),
        (b"oem overlay-write 17", b'w'),
        (b"oem overlay-write 0x11", b'w'),
        (b"oem overlay-write\t0x00000011", b'w'),
        (b"oem overlay-write 0", b'i'),
        (b"oem overlay-write 18446744073709551615", b'i'),
        (b"oem overlay-write 18446744073709551616", b'!'),
        (b"oem overlay-write 0X11", b'!'),
        (b"oem overlay-write", b'!'),
        (b"oem overlay-write ", b'!'),
        (b"oem overlay-write x", b'!'),
        (b"oem overlay-write 17 ", b'!'),
        (b"oem overlay-discard", b'r'),
        (b"oem overlay-discard ", b'!'),
        (b"oem overlay-discard x", b'!'),
        (b"oem overlay-discard:", b'?'),
        (b"oem finish", b'f'),
        (b"oem begin-merge", b'B'),
        (b"oem begin-merge x", b'!'),
        (b"oem merge 4294967295", b'M'),
        (b"oem merge 4294967296", b'!'),
        (b"oem merge 0", b'!'),
        (b"oem merge 0x1", b'!'),
        (b"oem begin", b'G'),
        (b"oem begin ", b'!'),
        (b"oem begin:", b'?'),
        (b"oem factory", b'Y'),
        (b"oem factory ", b'!'),
        (b"oem factory x", b'!'),
        (b"oem factory:", b'?'),
        (b"update-super:super:wipe", b'W'),
        (b"update-super:super:wipe:", b'!'),
        (b"update-super:super", b'!'),
        (b"update-super:", b'!'),
        (b"update-super", b'!'),
        (b"update-supers:super:wipe", b'?'),
        (b"oem", b'?'),
        (b"oem ", b'?'),
        (b"oem:boot", b'?'),
        (b"", b'?'),
    ] {
        assert_eq!(rt; letter_of(packet), letter);
    }
    Ok(())
}

#[test]
fn replies_are_told_by_their_texts(rt: HostRuntime) -> Result<(), Fail> {
    for (reply, text) in [
        (Reply::Done, b"OKAY".as_slice()),
        (Reply::Booted(0), b"OKAYa"),
        (Reply::Booted(1), b"OKAYb"),
        (Reply::Left(12), b"OKAYleft 12"),
        (Reply::Merged, b"OKAYmerged"),
        (
            Reply::Refused(Refusal::TooLarge(8192, 4096)),
            b"FAILimage of 8192 bytes for 4096 bytes",
        ),
        (
            Reply::Refused(Refusal::StoreFull(259, 258)),
            b"FAILstore full: 259 of 258 blocks",
        ),
        (Reply::Refused(Refusal::BadName), b"FAILbad partition name"),
        (Reply::Refused(Refusal::Unknown), b"FAILunknown partition"),
        (Reply::Refused(Refusal::NoImages), b"FAILslot has no images"),
        (
            Reply::Refused(Refusal::BadSuperImage),
            b"FAILnot a super image",
        ),
        (
            Reply::Refused(Refusal::OtherGeometry),
            b"FAILgeometry differs",
        ),
        (
            Reply::Refused(Refusal::OtherDevice),
            b"FAILblock device differs",
        ),
        (Reply::Refused(Refusal::NotOverlaid), b"FAILno overlay"),
        (
            Reply::Refused(Refusal::BadLength(4095)),
            b"FAILoverlay write of 4095 bytes",
        ),
        (
            Reply::Refused(Refusal::BadBlock(17, 16)),
            b"FAILblock 17 of 16",
        ),
        (
            Reply::Refused(Refusal::BadBlock(u64::MAX, 0)),
            b"FAILblock 18446744073709551615 of 0",
        ),
        (
            Reply::Digest([0xa5; 32]),
            b"OKAYa5a5a5a5a5a5a5a5a5a5a5a5a5a5a5a5a5a5a5a5a5a5a5a5a5a5a5a5a5a5a5a5",
        ),
    ] {
        let mut out = ArrayVec::new();
        reply_text(&reply, &mut out);
        assert_eq!(rt; out.as_slice(), text);
    }
    Ok(())
}

#[test]
fn numbers_have_no_leading_zero(rt: HostRuntime) {
    for (n, digits) in [
        (0, b"0".as_slice()),
        (9, b"9"),
        (10, b"10"),
        (u64::MAX, b"18446744073709551615"),
    ] {
        let mut out = ArrayVec::new();
        put_decimal(n, &mut out);
        assert_eq!(rt; out.as_slice(), digits);
    }
}
