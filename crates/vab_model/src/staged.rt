//! Staged bytes.

ghost use Rattle.std.specs.Prelude.{◌≡◌};
ghost use Rattle.vab_model.specs.Staged.{is_sparse};

/// What an Android sparse image begins with (libsparse, `sparse_format.h`).
const SPARSE: [u8; 4] = [0x3a, 0xff, 0x26, 0xed];

/// Whether these bytes are an Android sparse image.
pub fn is_sparse(staged: &[u8]) -> bool
    ensures { result ≡ is_sparse staged.now }
{
    &staged[..staged.len().min(4)] == SPARSE.as_slice()
}
