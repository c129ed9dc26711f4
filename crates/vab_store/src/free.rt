//! The lowest data chunk that no exception has.

ghost use Rattle.std.specs.Prelude.{◌≡◌, ◌+◌, ◌<◌, ◌^◌, length, IfOk};
ghost use Rattle.std.specs.List.{prefix_len};
ghost use Rattle.vab_store.specs.Free.{is_set, AreData, AreTaken};

use std::alloc::Global;
use vab_disk::NoMemory;
use vab_exceptions::Exception;
use vab_space::Chunk;

/// Which of the first data chunks exceptions have: a flag for each, one more than there are
/// exceptions.
pub(crate) fn taken_chunks(
    alloc: Global,
    items: &[Exception],
    chunk: Chunk,
) -> Result<Vec<bool>, NoMemory>
    requires small { length items.now < 2 ^ 62 }
    requires chunks { AreData chunk items.now }
    ensures { IfOk result (λ v. AreTaken chunk items.now (length items.now) v.items) }
{
    let mut taken = vec![in alloc; false; items.len() + 1]?;
    for exception in items {
        let number = chunk.entry_of(exception.new_chunk) as usize;
        if number < taken.len() {
            taken[number] = true;
        }
    }
    Ok(taken)
}

/// How many flags are set before the first one that isn't.
pub(crate) fn first_clear(flags: &[bool]) -> usize
    ensures { result ≡ prefix_len is_set flags.now }
{
    for (i, flag) in flags.iter().enumerate() {
        if !*flag {
            return i;
        }
    }
    flags.len()
}
