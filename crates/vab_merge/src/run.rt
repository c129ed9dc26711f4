//! The exceptions that are merged together.

ghost use Rattle.std.specs.Prelude.{◌≡◌, ◌↔◌, ◌-◌, ◌<◌, ◌≤◌, IsTrue, length};
ghost use Rattle.vab_space.specs.Chunks.{entries_in};
ghost use Rattle.vab_merge.specs.Run.{IsJoined, IsLongest};

use vab_space::Chunk;
use vab_store::StoreView;

// Whether the exception before this one stands in its area, with the old chunk before its.
fn is_joined(view: &StoreView, next: u64, chunk: Chunk) -> bool
    requires some { 0 < next }
    requires within { next < length view.now }
    ensures { IsTrue result ↔ IsJoined (entries_in chunk) view.now (next - 1) }
{
    let area = chunk.entries();
    let before = view.at(next - 1).old_chunk;
    let here = view.at(next).old_chunk;
    (next - 1) / area == next / area && before < here && here - before == 1
}

/// How many of the last exceptions stand in one area with old chunks that ascend by one, at most
/// `most`.
pub(crate) fn run_length(view: &StoreView, most: u64, chunk: Chunk) -> u64
    requires { 0 < most }
    ensures { IsLongest (entries_in chunk) view.now most result }
{
    let count = view.count();
    if count == 0 {
        return 0;
    }
    let mut n = 1;
    while n < most && n < count && is_joined(view, count - n, chunk) {
        n += 1;
    }
    n
}
