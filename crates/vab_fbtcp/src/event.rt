// What the framing finds in a stream.

use std::ops::Range;

/// Where a stream stands.
#[derive(Clone, Copy, Debug, PartialEq, Eq)]
pub enum Place {
    /// Before the hello, or inside it.
    Hello,
    /// Between two packets, or inside the length of the next.
    Length,
    /// So many bytes of a packet are still to come, at least one.
    Body(u64),
}

/// What comes next in a stream.
#[derive(Debug, Drop)]
pub enum Event {
    /// The hello, with the version of the other side: 1 to 99.
    Hello(u8),
    /// A packet of so many bytes begins.
    Head(u64),
    /// Bytes of the packet, as a range of the piece that was fed last. It is never empty.
    Piece(Range<usize>),
    /// The bytes fed hold no further event.
    NeedMore,
}

/// Why a stream is no fastboot session.
#[derive(Clone, Copy, Debug, PartialEq, Eq)]
pub enum FrameFault {
    /// The first four bytes aren't `FB` and two decimal digits, or the number is 0.
    BadHello,
    /// A packet of this length, outside a data phase, is longer than a command may be.
    TooLong(u64),
}
