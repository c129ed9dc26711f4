//! A change of one size of an update's target.

ghost use Rattle.std.specs.Prelude.{◌≡◌};
ghost use Rattle.vab_builder.specs.Sums.{changed_want};

use vab_bytes::Name36;
use vab_space::Want;

/// What an edit changes of the sizes of an update's target, in blocks of 4096 bytes.
#[derive(Clone, Copy)]
pub(crate) enum Change<'a> {
    Nothing,
    /// The partition of this name has so many blocks.
    Blocks(&'a [u8], u64),
    /// The store of the partition of this name has so many blocks.
    Store(&'a [u8], u64),
}

/// What the update wants of the partition of this name, changed.
pub(crate) fn changed_want(change: &Change, name: &Name36, want: Want) -> Want
    ensures { result ≡ changed_want change.now name.now want }
{
    match *change {
        Change::Blocks(changed, blocks) if name.text() == changed => Want { blocks, ..want },
        Change::Store(changed, store) if name.text() == changed => Want { store, ..want },
        _ => want,
    }
}
