//! The program `vablook`: what the image of a device says, part by part, with nothing written.
#![tactic(auto)]

mod ending;
mod extract;
mod pages;
mod usage;
mod words;

use ending::{Device, NO_MEMORY, NOT_OPENED, USAGE_STATUS};
use extract::extract;
use pages::tell_page;
use std::io::IsTerminal;
use std::process::ExitCode;
use usage::USAGE;
use vab_meter::Metered;
use vab_process::{WordsFault, open_standard, words_of};
use vab_real::{FilePort, OpenFault};
use words::{Request, request_of};

// Alone it asks for the usage; it is no path.
const HELP: &str = "--help";

// Opens the device, does what is asked for, and answers the status.
fn look(device: &Device<'_>, request: Request<'_>) -> u8 {
    let rt = device.rt;
    let path = device.path;
    let mut port = match FilePort::open_to_read(rt, path, rt.stdin(), rt.stdout()) {
        Ok(port) => port,
        Err(OpenFault::Memory) => return device.lacks_memory(),
        Err(fault) => {
            let _ = eprintln!(rt; "vablook: {path}: {fault}");
            return NOT_OPENED;
        }
    };
    match request {
        Request::Page(page, form) => tell_page(device, page, form, &mut port),
        Request::Extract(folder, slot) => {
            let mut metered = Metered::new(port, rt.stderr(), rt.stderr().is_terminal());
            let status = extract(device, &mut metered, folder, slot);
            metered.into_port();
            status
        }
    }
}

// Does what the words ask for, and answers the status.
fn run_words(rt: &HostRuntime, words: &[String]) -> u8 {
    let (path, rest) = match words {
        [first, rest @ ..] if first.as_str() != HELP => (first.as_str(), rest),
        _ => {
            let _ = rt.eprintln(USAGE);
            return USAGE_STATUS;
        }
    };
    match request_of(rest) {
        Some(request) => look(&Device { rt, path }, request),
        None => {
            let _ = rt.eprintln(USAGE);
            USAGE_STATUS
        }
    }
}

fn main(rt: HostRuntime) -> ExitCode {
    let _standard = match open_standard(&rt) {
        Ok(standard) => standard,
        Err(fault) => {
            let _ = eprintln!(&rt; "vablook: /dev/null: {fault}");
            return ExitCode::from(NOT_OPENED);
        }
    };
    ExitCode::from(match words_of(&rt) {
        Ok(words) => run_words(&rt, words.as_slice()),
        Err(WordsFault::NoMemory) => {
            let _ = eprintln!(&rt; "vablook: memory was refused");
            NO_MEMORY
        }
        Err(WordsFault::NotText) => {
            let _ = eprintln!(&rt; "vablook: a word isn't UTF-8\n{USAGE}");
            USAGE_STATUS
        }
    })
}
