//! Words that name a folder.

ghost use Rattle.std.specs.Prelude.{◌≡◌, ◌++◌, codes, IfOk, string_bytes};

use std::alloc::{AllocError, AllocFailed, Global};
use std::fs::read_dir;
use std::io;

// What the name of a file ends with that is an image.
const IMAGE: &str = ".img";

/// Why the words of a folder can't be had.
#[derive(Debug, Drop)]
pub enum FolderFault {
    /// The folder of this word, by its index, can't be read.
    Folder(usize, io::Error),
    /// The folder of this word has no image.
    Empty(usize),
    /// Memory was refused.
    NoMemory,
}

impl From<AllocError> for FolderFault {
    fn from(_: AllocError) -> Self {
        FolderFault::NoMemory
    }
}

impl<T: Drop> From<AllocFailed<T>> for FolderFault {
    fn from(_: AllocFailed<T>) -> Self {
        FolderFault::NoMemory
    }
}

// A word `FOLDER/` without `=` is a folder.
fn is_folder(word: &str) -> bool {
    word.ends_with('/') && !word.contains('=')
}

// The word of the file `NAME.img` in a folder, whose path ends with `/`: `NAME=FOLDER/NAME.img`.
fn image_word(alloc: Global, folder: &str, name: &str) -> Result<String, AllocError>
    ensures { IfOk result (λ word. string_bytes word
        ≡ ((((name.now ++ codes "=") ++ folder.now) ++ name.now) ++ codes ".img")) }
{
    let mut word = String::from_str(alloc, name)?;
    word.push_str("=")?;
    word.push_str(folder)?;
    word.push_str(name)?;
    word.push_str(IMAGE)?;
    Ok(word)
}

// The names of a folder's files that end with `.img`, without it.
fn image_names(rt: &HostRuntime, folder: &str) -> io::Result<Vec<String>> {
    let mut names = Vec::new(rt.alloc());
    for entry in read_dir(rt, folder)? {
        let entry = entry?;
        if let Some(name) = entry.file_name().strip_suffix(IMAGE) {
            names.push(String::from_str(rt.alloc(), name)?)?;
        }
    }
    Ok(names)
}

// Adds the words of a folder's images, in the order of their names' bytes.
fn add_folder(
    rt: &HostRuntime,
    index: usize,
    folder: &str,
    words: &mut Vec<String>,
) -> Result<(), FolderFault> {
    let mut names = match image_names(rt, folder) {
        Ok(names) => names,
        Err(fault) if fault.kind() == io::ErrorKind::OutOfMemory => {
            return Err(FolderFault::NoMemory);
        }
        Err(fault) => return Err(FolderFault::Folder(index, fault)),
    };
    if names.is_empty() {
        return Err(FolderFault::Empty(index));
    }
    names.sort()?;
    for name in &names {
        words.push(image_word(rt.alloc(), folder, name.as_str())?)?;
    }
    Ok(())
}

/// The words, with one for each `NAME.img` of a folder in its place.
pub fn with_folders(rt: &HostRuntime, words: &[String]) -> Result<Vec<String>, FolderFault> {
    let mut all = Vec::new(rt.alloc());
    for (index, word) in words.iter().enumerate() {
        if is_folder(word.as_str()) {
            add_folder(rt, index, word.as_str(), &mut all)?;
        } else {
            all.push(String::from_str(rt.alloc(), word.as_str())?)?;
        }
    }
    Ok(all)
}

impl FolderFault {
    ghost use Rattle.vabpack.specs.Folders.{folder_status_of};

    /// The program's status.
    pub fn status(&self) -> u8
        ensures { result ≡ folder_status_of self.now }
    {
        match self {
            FolderFault::Folder(_, _) => 9,
            FolderFault::Empty(_) => 2,
            FolderFault::NoMemory => 8,
        }
    }

    /// Says on standard error which folder it is, and why.
    pub fn explain<R: Eprint>(&self, rt: &R, words: &[String]) {
        let word_at = |index: usize| match words.get(index) {
            Some(word) => word.as_str(),
            None => "",
        };
        let _ = match self {
            FolderFault::Folder(index, fault) => eprintln!(rt;
                "vabpack: {}: {fault}",
                word_at(*index)
            ),
            FolderFault::Empty(index) => eprintln!(rt;
                "vabpack: {}: no file NAME.img in it",
                word_at(*index)
            ),
            FolderFault::NoMemory => eprintln!(rt; "vabpack: out of memory"),
        };
    }
}

// The name in a word of an image.
fn name_of(word: &str) -> &str {
    let front = match word.split_once('=') {
        Some((front, _)) => front,
        None => word,
    };
    match front.split_once(':') {
        Some((name, _)) => name,
        None => front,
    }
}

/// Warns of names that end as a slot's: the suffix of a slot is added to each name.
pub fn warn_of_slots<R: Eprint>(rt: &R, words: &[String]) {
    for word in words {
        let name = name_of(word.as_str());
        if name.ends_with("_a") || name.ends_with("_b") {
            let _ = eprintln!(rt; "vabpack: {word}: a slot's suffix is added to the name anyway");
        }
    }
}
