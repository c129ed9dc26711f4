//! The program `vab`: the update storage of an Android device in a file or in memory, by verbs and
//! by a fastboot session.
#![tactic(auto)]

ghost use Rattle.std.specs.Prelude.{◌≡◌, ◌⊎◌, ℕ, List, IsOkAnd, IfErr, replicate};
ghost use Rattle.std.specs.Str.Parse.{digits_value};
ghost use Rattle.vab_real.specs.Cells.{size_of, HasImage};
ghost use Rattle.vab.specs.Word.{AsksMemory};

mod explain;
mod usage;
mod word;

use explain::explain;
use std::io::{IsTerminal, Stdin, Stdout};
use std::process::ExitCode;
use usage::USAGE;
use vab_cli::{Status, run};
use vab_meter::Metered;
use vab_process::{WordsFault, open_standard, words_of};
use vab_real::{FilePort, OpenFault};
use word::{Device, parse_device};

// Alone it asks for the usage; it is no path.
const HELP: &str = "--help";

const NO_MEMORY: u8 = 8;

const NOT_OPENED: u8 = 9;

// The port of the device that the first word names, or the status to end with.
fn open_port(rt: &HostRuntime, word: &str) -> Result<FilePort<Stdin, Stdout>, u8>
    // A word that asks for memory gets as many sectors of zeros as it says.
    ensures memory { (digits : List ℕ)
        → AsksMemory word.now digits
        → IsOkAnd result (λ port. (size_of port.cells ≡ digits_value 10 digits)
        × HasImage port.cells (λ sector. replicate 512 0)) }
    ensures status { IfErr result (λ status. (status ≡ NO_MEMORY) ⊎ (status ≡ NOT_OPENED)) }
{
    match parse_device(word) {
        Device::Memory(sectors) => {
            let sectors = u64::from(sectors);
            Ok(FilePort::zeroed(rt.alloc(), sectors, rt.stdin(), rt.stdout()))
        }
        Device::File(path) => match FilePort::open(rt, path, rt.stdin(), rt.stdout()) {
            Ok(port) => Ok(port),
            Err(OpenFault::Memory) => {
                let _ = eprintln!(rt; "vab: {path}: out of memory");
                Err(NO_MEMORY)
            }
            Err(fault) => {
                let _ = eprintln!(rt; "vab: {path}: {fault}");
                Err(NOT_OPENED)
            }
        },
    }
}

// Whether it is shown how far a verb is: one of long work, where standard error is a terminal and
// its line wouldn't stand among the bytes of a partition.
fn shows_how_far(rt: &HostRuntime, words: &[String]) -> bool {
    let verb = match words.first() {
        Some(word) => word.as_str(),
        None => "",
    };
    match verb {
        "make" | "install" | "merge" | "digest" => rt.stderr().is_terminal(),
        "print" => rt.stderr().is_terminal() && !rt.stdout().is_terminal(),
        _ => false,
    }
}

// Does what the words ask for, and answers the status.
fn run_words(rt: &HostRuntime, words: &[String]) -> u8 {
    let (first, rest) = match words {
        [first, rest @ ..] if first.as_str() != HELP => (first, rest),
        _ => {
            let _ = rt.eprintln(USAGE);
            return Status::Usage.code();
        }
    };
    let port = match open_port(rt, first.as_str()) {
        Ok(port) => port,
        Err(status) => return status,
    };
    let mut metered = Metered::new(port, rt.stderr(), shows_how_far(rt, rest));
    let ending = run(rt.alloc(), rest, &mut metered);
    let mut port = metered.into_port();
    explain(rt, first.as_str(), rest, &mut port, &ending);
    ending.code()
}

fn main(rt: HostRuntime) -> ExitCode {
    let _standard = match open_standard(&rt) {
        Ok(standard) => standard,
        Err(fault) => {
            let _ = eprintln!(&rt; "vab: /dev/null: {fault}");
            return ExitCode::from(NOT_OPENED);
        }
    };
    ExitCode::from(match words_of(&rt) {
        Ok(words) => run_words(&rt, words.as_slice()),
        Err(WordsFault::NoMemory) => {
            let _ = eprintln!(&rt; "vab: out of memory");
            NO_MEMORY
        }
        Err(WordsFault::NotText) => {
            let _ = eprintln!(&rt; "vab: a word isn't UTF-8\n{USAGE}");
            Status::Usage.code()
        }
    })
}
