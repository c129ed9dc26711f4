// Why a session stops.

use std::fmt;
use vab_session::SessionFault;

// Writes what is wrong with the input of a session, or that the disk or a stream failed.
fn write_fault<W: fmt::Write>(f: &mut fmt::Formatter<W>, fault: &SessionFault) -> fmt::Result {
    match fault {
        SessionFault::BadHello => write!(f, "the hello isn't FB and two digits other than 00"),
        SessionFault::TooLong(length) => {
            write!(
                f,
                "a command packet of {length} bytes, and 4096 are the most"
            )
        }
        SessionFault::Overrun(due, came) => {
            write!(f, "a data packet of {came} bytes, and {due} were due")
        }
        SessionFault::Cut(at) => write!(f, "it ends inside something, after {at} bytes"),
        SessionFault::Spent => write!(f, "more than 2^44 bytes"),
        SessionFault::Disk => write!(f, "the disk failed"),
        SessionFault::Source => write!(f, "hearing failed"),
        SessionFault::Sink => write!(f, "telling failed"),
    }
}

/// Writes why a session stopped.
pub(crate) fn write_session<W: fmt::Write>(
    f: &mut fmt::Formatter<W>,
    fault: &SessionFault,
) -> fmt::Result {
    match fault {
        SessionFault::Disk | SessionFault::Source | SessionFault::Sink => {}
        _ => write!(f, "malformed input: ")?,
    }
    write_fault(f, fault)
}
