//! An image that a word asks for.

ghost use Rattle.std.specs.Prelude.{◌≡◌};

use std::marker::Model;
use vab_bytes::Name36;

/// The name of an image, the bytes of its partition where they are asked for, those of its store,
/// and the path of its file; contracts see the numbers and the two texts.
#[derive(Drop)]
pub struct Entry<'a> {
    name: Name36,
    size: Option<u64>,
    store: u64,
    path: &'a str,
}

impl<'a> Model for Entry<'a> {
    ghost use Rattle.vab_pack.specs.Asked.{Asked};

    ghost Value = { Asked };

    ghost view = { λ e. record {
      name = e.name;
      size = e.size;
      store = e.store;
      path = e.path.now;
    } };
}

impl<'a> Entry<'a> {
    pub(crate) fn new(name: Name36, size: Option<u64>, store: u64, path: &'a str) -> Entry<'a>
        ensures { result ≡ record {
          name = name;
          size = size;
          store = store;
          path = path.entry.now;
        } }
    {
        Entry {
            name,
            size,
            store,
            path,
        }
    }

    /// The name of the image.
    pub fn name(&self) -> &Name36
        ensures { result.now ≡ self.now.name }
    {
        &self.name
    }

    /// The bytes that the partition is to have, at most 2^40; `None` for those of the file.
    pub fn size(&self) -> Option<u64>
        ensures { result ≡ self.now.size }
    {
        self.size
    }

    /// The bytes of the store; 0 for as many as it needs.
    pub fn store(&self) -> u64
        ensures { result ≡ self.now.store }
    {
        self.store
    }

    /// The path of the file.
    pub fn path(&self) -> &'a str
        ensures { result.now ≡ self.now.path }
    {
        self.path
    }
}
