//! How a session ends.

ghost use Rattle.std.specs.Prelude.{◌≡◌};

use vab_exchanges::ReadFault;

/// How a session ends that isn't malformed.
#[derive(Clone, Copy, Debug, PartialEq, Eq)]
pub enum Ended {
    /// The input ended between two packets.
    Closed,
    /// A packet asked for a boot and the end of the session: the slot that is booted.
    Rebooted(usize),
}

/// Why a session stops.
#[derive(Clone, Copy, Debug, PartialEq, Eq)]
pub enum SessionFault {
    /// The first four bytes aren't `FB` and two decimal digits, or the number is 0.
    BadHello,
    /// A command packet of this length is longer than 4096 bytes.
    TooLong(u64),
    /// Of so many bytes that were due, a data packet of so many came.
    Overrun(u64, u64),
    /// The input ended inside the hello, a length, a packet or the data of a download, after so
    /// many bytes.
    Cut(u64),
    /// As many bytes were taken as a session may have, and it would hear again.
    Spent,
    /// The disk failed.
    Disk,
    /// Hearing failed.
    Source,
    /// Telling failed.
    Sink,
}

impl From<ReadFault> for SessionFault {
    ghost use Rattle.vab_session.specs.Fault.{fault_of_read};

    ghost from_gives = { λ fault e. e ≡ fault_of_read fault };

    fn from(fault: ReadFault) -> Self {
        match fault {
            ReadFault::BadHello => SessionFault::BadHello,
            ReadFault::TooLong(length) => SessionFault::TooLong(length),
            ReadFault::Overrun(due, came) => SessionFault::Overrun(due, came),
            ReadFault::Cut(at) => SessionFault::Cut(at),
            ReadFault::Spent => SessionFault::Spent,
            ReadFault::Source => SessionFault::Source,
        }
    }
}
