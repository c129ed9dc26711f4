//! Lines, each put together in 256 bytes.

ghost use Rattle.std.specs.Prelude.{◌≡◌, ◌++◌, OnOk};

use arrayvec::ArrayVec;
use vab_model::NoMemory;

/// A line: at most 256 bytes, with its newline.
pub(crate) type Line = ArrayVec<u8, 256>;

/// Puts a line behind a page.
pub(crate) fn push_line(line: &Line, page: &mut Vec<u8>) -> Result<(), NoMemory>
    ensures { OnOk result (page.new.items ≡ page.old.items ++ line.now.items) }
{
    page.extend_from_slice(line)?;
    Ok(())
}
