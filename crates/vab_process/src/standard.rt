// The descriptors 0, 1 and 2.
use std::fs::{File, OpenOptions};
use std::io;
use std::os::fd::AsFd;

/// What was opened in the place of standard descriptors that were closed. Nothing else is opened as
/// one of them until it is dropped.
#[derive(Drop)]
pub struct Standard {
    input: Option<File>,
    output: Option<File>,
    errors: Option<File>,
}

// Opens `/dev/null` where the stream's descriptor is closed, which is where it can't be duplicated.
fn null_if_closed<S: AsFd>(rt: &HostRuntime, stream: &S) -> io::Result<Option<File>> {
    if stream.as_fd().try_clone_to_owned().is_ok() {
        return Ok(None);
    }
    let null = OpenOptions::new()
        .read(true)
        .write(true)
        .open(rt, "/dev/null")?;
    Ok(Some(null))
}

/// Opens `/dev/null` as each of the descriptors 0, 1 and 2 that the program was started without, so
/// that no file that it opens is taken for its input, output or standard error. The system gives
/// the lowest free descriptor: as they are tried in their order, all below the closed one are open,
/// and what is opened is that one. It is held as long as what this answers.
pub fn open_standard(rt: &HostRuntime) -> io::Result<Standard> {
    let input = null_if_closed(rt, &rt.stdin())?;
    let output = null_if_closed(rt, &rt.stdout())?;
    let errors = null_if_closed(rt, &rt.stderr())?;
    Ok(Standard {
        input,
        output,
        errors,
    })
}
