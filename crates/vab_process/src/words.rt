// The words of the command line.
use std::env::{self, Env};
use std::io;

/// Why the words can't be had.
#[derive(Clone, Copy, Debug, Drop, PartialEq, Eq)]
pub enum WordsFault {
    /// One of them isn't UTF-8; a path that isn't can't be opened here.
    NotText,
    /// Memory was refused.
    NoMemory,
}

/// The words behind the program's name.
pub fn words_of<R: Env + AllocGlobal>(rt: &R) -> Result<Vec<String>, WordsFault> {
    let mut args = match env::args(rt) {
        Ok(args) => args,
        Err(fault) if fault.kind() == io::ErrorKind::InvalidData => return Err(WordsFault::NotText),
        Err(_) => return Err(WordsFault::NoMemory),
    };
    let mut words = Vec::new(rt.alloc());
    let _program = args.next();
    for word in args {
        if words.push(word).is_err() {
            return Err(WordsFault::NoMemory);
        }
    }
    Ok(words)
}
