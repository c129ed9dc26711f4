//! Why the reading of a session stops.
ghost use Rattle.std.specs.Prelude.{◌≡◌};

use vab_fbtcp::FrameFault;

/// Why the reading of a session stops.
#[derive(Clone, Copy, Debug, PartialEq, Eq)]
pub enum ReadFault {
    /// The first four bytes aren't `FB` and two decimal digits, or the number is 0.
    BadHello,
    /// A command packet of this length is longer than 4096 bytes.
    TooLong(u64),
    /// Of so many bytes that were due, a data packet of so many came.
    Overrun(u64, u64),
    /// The input ended inside the hello, a length, a packet or the data of a download, after so
    /// many bytes.
    Cut(u64),
    /// As many bytes were taken as a session may have, and it would hear again.
    Spent,
    /// Hearing failed.
    Source,
}

impl From<FrameFault> for ReadFault {
    ghost use Rattle.vab_exchanges.specs.Reading.{fault_of_frame};

    ghost from_gives = { λ fault e. e ≡ fault_of_frame fault };

    fn from(fault: FrameFault) -> Self {
        match fault {
            FrameFault::BadHello => ReadFault::BadHello,
            FrameFault::TooLong(length) => ReadFault::TooLong(length),
        }
    }
}
