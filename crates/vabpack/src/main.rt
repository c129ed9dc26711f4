//! The program `vabpack`: a set of images made of files, on standard output.
#![tactic(auto)]

ghost use Rattle.std.specs.Prelude.{◌≡◌, ◌⊎◌};
ghost use Rattle.std.specs.Io.KnownBytes.{Appends};

mod folder;
mod pack;
mod refusal;
mod source;

use folder::{warn_of_slots, with_folders};
use pack::pack;
use refusal::{Refusal, USAGE};
use std::io::Write;
use std::process::ExitCode;
use vab_process::{WordsFault, open_standard, words_of};

// Alone it asks for the usage; it is no image.
const HELP: &str = "--help";

const NOT_WRITTEN: u8 = 7;

const NOT_OPENED: u8 = 9;

// Writes all of the bytes, and answers the status.
fn write_out<W: Write>(out: &mut W, bytes: &[u8]) -> u8
    ensures status { (result ≡ 0) ⊎ (result ≡ 7) }
    ensures written { result ≡ 0 → Appends (W.contents out.old) (W.contents out.new) bytes.now }
{
    match out.write_all(bytes) {
        Ok(()) => match out.flush() {
            Ok(()) => 0,
            Err(_) => NOT_WRITTEN,
        },
        Err(_) => NOT_WRITTEN,
    }
}

// Writes the set that the words of images ask for, and answers the status.
fn run_images(rt: &HostRuntime, words: &[String]) -> u8 {
    match pack(rt.alloc(), rt, words) {
        Ok(bytes) => {
            warn_of_slots(rt, words);
            write_out(&mut rt.stdout(), &bytes)
        }
        Err(refusal) => {
            refusal.explain(rt, words);
            refusal.status()
        }
    }
}

// Writes the set that the words ask for, also by folders, and answers the status.
fn run_words(rt: &HostRuntime, words: &[String]) -> u8 {
    let words = match words {
        [first, rest @ ..] if first.as_str() == HELP && rest.is_empty() => rest,
        all => all,
    };
    match with_folders(rt, words) {
        Ok(all) => run_images(rt, &all),
        Err(fault) => {
            fault.explain(rt, words);
            fault.status()
        }
    }
}

fn main(rt: HostRuntime) -> ExitCode {
    let _standard = match open_standard(&rt) {
        Ok(standard) => standard,
        Err(fault) => {
            let _ = eprintln!(&rt; "vabpack: /dev/null: {fault}");
            return ExitCode::from(NOT_OPENED);
        }
    };
    ExitCode::from(match words_of(&rt) {
        Ok(words) => run_words(&rt, words.as_slice()),
        Err(WordsFault::NoMemory) => Refusal::NoMemory.status(),
        Err(WordsFault::NotText) => {
            let _ = eprintln!(&rt; "vabpack: a word isn't UTF-8\n{USAGE}");
            Refusal::NoWords.status()
        }
    })
}

#[cfg(test)]
mod tests;
