// Bytes as text.

use std::fmt;

/// Writes each byte as the character of its number.
pub(crate) fn write_bytes<W: fmt::Write>(f: &mut fmt::Formatter<W>, bytes: &[u8]) -> fmt::Result {
    for byte in bytes {
        write!(f, "{}", char::from(*byte))?;
    }
    Ok(())
}
