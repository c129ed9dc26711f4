// What is said on standard error of a run that ends otherwise than done.

use crate::usage::USAGE;
use std::io::{Stdin, Stdout};
use vab_adopt::AdoptFault;
use vab_causes::Cause;
use vab_cli::{Ending, Status};
use vab_device::StartFault;
use vab_disk::{Disk, Port};
use vab_geometry::{GeometryFault, LoadFault, load_geometry};
use vab_real::FilePort;
use vab_words::{Complaint, complaint_of};

// The sectors up to the end of the second copy of the geometry.
const GEOMETRY_END: u64 = 4120;

fn geometry_text(fault: GeometryFault) -> &'static str {
    match fault {
        GeometryFault::BadMagic => "bad magic",
        GeometryFault::BadSize => "bad size",
        GeometryFault::BadSum => "bad sum",
        GeometryFault::BadField => "bad field",
    }
}

// Says what is wrong with each copy of the geometry.
fn explain_geometry(rt: &HostRuntime, device: &str, port: &mut FilePort<Stdin, Stdout>) {
    if port.sectors() < GEOMETRY_END {
        return;
    }
    let _ = match load_geometry(port) {
        Err(LoadFault::BothBad(primary, backup)) => eprintln!(rt;
            "vab: {device}: no device: neither copy of the geometry passes ({}: {}; {}: {})",
            "primary",
            geometry_text(primary),
            "backup",
            geometry_text(backup)
        ),
        Ok(_) => eprintln!(rt;
            "vab: {device}: no device: the copies of the tables would pass the end of the disk"
        ),
        Err(LoadFault::Disk(_)) => eprintln!(rt; "vab: {device}: the disk failed"),
    };
}

/// Says what is wrong with words that ask for nothing, and the usage.
pub fn explain_words(rt: &HostRuntime, words: &[String]) {
    let word_at = |index: usize| match words.get(index) {
        Some(word) => word.as_str(),
        None => "",
    };
    let verb = word_at(0);
    let _ = match complaint_of(words) {
        Complaint::NoVerb => eprintln!(rt; "vab: no verb"),
        Complaint::Unknown => eprintln!(rt; "vab: {verb}: no such verb"),
        Complaint::Value(1, value) => eprintln!(rt; "vab: {verb} {}: {value}", word_at(1)),
        Complaint::Value(index, value) => eprintln!(rt;
            "vab: {verb}: {} {}: {value}",
            word_at(index.saturating_sub(1)),
            word_at(index)
        ),
        Complaint::Words => eprintln!(rt; "vab: {verb}: not these words behind it"),
    };
    let _ = rt.eprintln(USAGE);
}

/// Says why a run ended so, where it isn't done.
pub fn explain(
    rt: &HostRuntime,
    device: &str,
    words: &[String],
    port: &mut FilePort<Stdin, Stdout>,
    ending: &Ending,
) {
    match (ending.status, &ending.cause) {
        (Status::Done, Some(Cause::Dropped(mark))) => {
            let _ = eprintln!(rt; "vab: {device}: {}", Cause::Dropped(*mark));
        }
        (Status::Done, _) => {}
        (Status::Usage, _) => explain_words(rt, words),
        (
            Status::NotADevice,
            Some(
                Cause::Opening(StartFault::BadGeometry)
                | Cause::Adopting(AdoptFault::NoDevice(StartFault::BadGeometry)),
            ),
        ) => explain_geometry(rt, device, port),
        (Status::Disk, _) if port.is_read_only() => {
            let _ = eprintln!(rt;
                "vab: {device}: opened for reading alone, since it can't be written"
            );
        }
        _ => {
            let _ = eprintln!(rt; "vab: {device}: {ending}");
        }
    }
}
