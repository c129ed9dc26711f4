//! Why there is no set.

ghost use Rattle.std.specs.Prelude.{◌≡◌};
ghost use Rattle.vabpack.specs.declared.refusal.Refusal.TheVariants as refusals;

use std::alloc::{AllocError, AllocFailed};
use std::io;
use vab_pack::WordFault;
use vab_set::NoMemory;
use vab_sparse::SparseFault;

/// What the program says where its words aren't taken.
pub const USAGE: &str = "usage: vabpack NAME[:SIZE[:STORE]]=FILE.. FOLDER/..\n\
    A set of 1 to 64 images on the output, as `vab DEVICE make` takes it, one for each word.\n\
    \u{20} NAME             the partition's name without its slot, 1 to 30 of A-Z a-z 0-9 _ .\n\
    \u{20} SIZE             bytes of the partition, at most 2^40, in whole blocks of 4096;\n\
    \u{20}                  those of the file where it is left out, also in NAME::STORE\n\
    \u{20} STORE            bytes of its store; 0, or left out, for as many as it needs\n\
    \u{20} FILE             the file with its bytes, or a sparse image of them\n\
    \u{20} FOLDER/          stands for NAME=FOLDER/NAME.img of each such file in it, by name\n\
    SIZE and STORE are 1 to 20 digits, with K, M or G behind them for 2^10, 2^20 or 2^30 times.\n\
    statuses: 0 done, 2 the words aren't taken, a file is longer than its partition or a\n\
    \u{20} malformed sparse image, or a set would be longer than 2^32 bytes, 7 the output failed,\n\
    \u{20} 8 memory was refused, 9 a file or a folder can't be read\n\
    examples:\n\
    \u{20} vabpack system=system.img >images.set\n\
    \u{20} vabpack out/ >images.set\n\
    \u{20} vabpack system:1G=system.img vendor:512M:64M=vendor.img | vab dev.img make";

/// Why there is no set.
#[derive(Debug, Drop)]
pub enum Refusal<'a> {
    /// There is no word.
    NoWords,
    /// The words aren't taken.
    Words(WordFault),
    /// The file at this path is longer than a set may be.
    TooLarge(&'a str),
    /// The file at this path begins as a sparse image, and isn't one, or of a larger image.
    Sparse(&'a str, SparseFault),
    /// The image in the file at this path is longer than the partition that is asked for.
    TooSmall(&'a str),
    /// The set is longer than a set may be.
    SetTooLarge,
    /// The file at this path can't be opened or read.
    File(&'a str, io::Error),
    /// Memory was refused.
    NoMemory,
}

impl<'a> From<WordFault> for Refusal<'a> {
    ghost use Rattle.vabpack.specs.Packed.{refusal_of};

    ghost from_gives = { λ fault e. e ≡ refusal_of fault };

    fn from(fault: WordFault) -> Self {
        match fault {
            WordFault::NoMemory => Refusal::NoMemory,
            fault => Refusal::Words(fault),
        }
    }
}

impl<'a> From<NoMemory> for Refusal<'a> {
    ghost from_gives = { λ _ e. e ≡ refusals.NoMemory };

    fn from(_: NoMemory) -> Self {
        Refusal::NoMemory
    }
}

impl<'a> From<AllocError> for Refusal<'a> {
    ghost from_gives = { λ _ e. e ≡ refusals.NoMemory };

    fn from(_: AllocError) -> Self {
        Refusal::NoMemory
    }
}

impl<'a, T: Drop> From<AllocFailed<T>> for Refusal<'a> {
    ghost from_gives = { λ _ e. e ≡ refusals.NoMemory };

    fn from(_: AllocFailed<T>) -> Self {
        Refusal::NoMemory
    }
}

// Says on standard error what is wrong with the words.
fn explain_words<R: Eprint>(rt: &R, words: &[String], fault: WordFault) {
    let word_at = |index: usize| match words.get(index) {
        Some(word) => word.as_str(),
        None => "",
    };
    let _ = match fault {
        WordFault::TooMany(count) => eprintln!(rt;
            "vabpack: {count} words, and a set has at most 64 images"
        ),
        WordFault::BadWord(index) => eprintln!(rt;
            "vabpack: {}: not NAME[:SIZE[:STORE]]=FILE",
            word_at(index)
        ),
        WordFault::BadName(index) => eprintln!(rt;
            "vabpack: {}: the name isn't 1 to 30 of A-Z a-z 0-9 _ .",
            word_at(index)
        ),
        WordFault::Repeated(first, index) => {
            eprintln!(rt;
                "vabpack: {}: {} has the same name",
                word_at(index),
                word_at(first)
            )
        }
        WordFault::BadSize(index) => eprintln!(rt;
            "vabpack: {}: the size isn't 1 to 20 digits, with K, M or G or not, of at most 2^40",
            word_at(index)
        ),
        WordFault::BadStore(index) => eprintln!(rt;
            "vabpack: {}: the store isn't 1 to 20 digits, with K, M or G or not, below 2^64",
            word_at(index)
        ),
        WordFault::NoMemory => eprintln!(rt; "vabpack: out of memory"),
    };
}

impl<'a> Refusal<'a> {
    ghost use Rattle.vabpack.specs.Packed.{status_of};

    /// The program's status.
    pub fn status(&self) -> u8
        ensures { result ≡ status_of self.now }
    {
        match self {
            Refusal::NoWords | Refusal::Words(_) => 2,
            Refusal::TooLarge(_) | Refusal::Sparse(_, _) => 2,
            Refusal::TooSmall(_) | Refusal::SetTooLarge => 2,
            Refusal::NoMemory => 8,
            Refusal::File(_, _) => 9,
        }
    }

    /// Says on standard error why there is no set of these words, with the usage where they aren't
    /// taken.
    pub fn explain<R: Eprint>(&self, rt: &R, words: &[String]) {
        let _ = match self {
            Refusal::NoWords => Ok(()),
            Refusal::Words(fault) => {
                explain_words(rt, words, *fault);
                Ok(())
            }
            Refusal::TooLarge(path) => eprintln!(rt;
                "vabpack: {path}: longer than 2^32 bytes, the most that a set may have"
            ),
            Refusal::Sparse(path, fault) => eprintln!(rt; "vabpack: {path}: sparse image: {fault}"),
            Refusal::TooSmall(path) => eprintln!(rt;
                "vabpack: {path}: longer than the partition that is asked for"
            ),
            Refusal::SetTooLarge => eprintln!(rt;
                "vabpack: the set would be longer than 2^32 bytes"
            ),
            Refusal::File(path, fault) => eprintln!(rt; "vabpack: {path}: {fault}"),
            Refusal::NoMemory => eprintln!(rt; "vabpack: out of memory"),
        };
        if self.status() == 2 {
            let _ = rt.eprintln(USAGE);
        }
    }
}
