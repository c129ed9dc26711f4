//! The top call.
ghost use Rattle.std.specs.Prelude.{◌≡◌, ◌⊎◌, map, string_bytes, Some, None};
ghost use Rattle.vab_words.specs.Verbs.{Meaning, IsInRange, meaning_of, verb_of};
ghost use Rattle.vab_cli.specs.Causes.{Explains};
ghost use Rattle.vab_cli.specs.Program.{DoesVerb};

use crate::adopting::adopt;
use crate::commands::run_command;
use crate::demo::demo;
use crate::installing::install;
use crate::making::make;
use crate::paging::tell_page;
use crate::printing::print;
use crate::serving::{make_and_serve, open_and_serve};
use crate::{Ending, Status};
use std::alloc::Global;
use vab_causes::Cause;
use vab_disk::{Disk, Port};
use vab_model::Command;
use vab_words::{Verb, WordsFault, parse_words};

// Does what a verb asks for.
fn do_verb<P: Port>(alloc: Global, verb: Verb, port: &mut P, cause: &mut Option<Cause>) -> Status
    requires { IsInRange verb }
    ensures does { DoesVerb P.Disk (meaning_of verb.entry) port.old port.new result }
    ensures explains { P.is_modelled
        → Explains P.Disk port.old (meaning_of verb.entry) result cause.new }
{
    match verb {
        Verb::Make {
            limit,
            metadata_max,
        } => make(alloc, port, limit, metadata_max, cause),
        Verb::Adopt(slot) => adopt(alloc, port, slot, cause),
        Verb::Serve { fresh, turns } => {
            if fresh {
                make_and_serve(alloc, port, turns, cause)
            } else {
                open_and_serve(alloc, port, turns, cause)
            }
        }
        Verb::Install => install(alloc, port, cause),
        Verb::Boot => run_command(alloc, port, &Command::Boot, cause),
        Verb::Mark => run_command(alloc, port, &Command::Mark, cause),
        Verb::BeginMerge => run_command(alloc, port, &Command::BeginMerge, cause),
        Verb::Merge(turns) => run_command(alloc, port, &Command::Merge(turns), cause),
        Verb::Cancel => run_command(alloc, port, &Command::Cancel, cause),
        Verb::Activate(slot) => run_command(alloc, port, &Command::SetActive(slot), cause),
        Verb::Print(name) => print(alloc, port, name.as_bytes(), cause),
        Verb::Digest(name) => run_command(alloc, port, &Command::Digest(name.as_bytes()), cause),
        Verb::Status => tell_page(alloc, port, cause),
        Verb::Demo { seed, scale } => demo(alloc, port, seed, scale, cause),
    }
}

/// Does what the words say over the port, and answers the status to end with, and why. The words
/// are those behind the device's.
pub fn run<P: Port>(alloc: Global, words: &[String], port: &mut P) -> Ending
    // Where the words ask for a verb, it is done.
    ensures verb { (m : Meaning)
        → verb_of (map string_bytes words.now) ≡ Some m
        → (result.status ≡ Status.NoMemory) × (port.new ≡ port.old)
        ⊎ DoesVerb P.Disk m port.old port.new result.status }
    // The cause of a status 3, 4 or 5, and the update or overlay that `adopt` has dropped.
    ensures cause { P.is_modelled
        → (m : Meaning)
        → verb_of (map string_bytes words.now) ≡ Some m
        → Explains P.Disk port.old m result.status result.cause }
    // Status 2 comes only where they ask for nothing, and where they do nothing but want of memory
    // comes in its place. Then nothing is told or written.
    ensures usage { result.status ≡ Status.Usage → verb_of (map string_bytes words.now) ≡ None }
    ensures untaken { verb_of (map string_bytes words.now) ≡ None
        → (result.status ≡ Status.Usage) ⊎ (result.status ≡ Status.NoMemory) }
    ensures untouched { verb_of (map string_bytes words.now) ≡ None → port.new ≡ port.old }
{
    let mut cause = None;
    let status = match parse_words(alloc, words) {
        Ok(verb) => do_verb(alloc, verb, port, &mut cause),
        Err(WordsFault::Usage) => Status::Usage,
        Err(WordsFault::NoMemory) => Status::NoMemory,
    };
    Ending { status, cause }
}
