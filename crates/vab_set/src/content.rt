//! The bytes of an image.

ghost use Rattle.std.specs.Prelude.{◌≡◌, length};

use std::marker::Model;

// Bytes in memory of their own, or a part of other bytes.
#[derive(Drop)]
enum Held<'a> {
    Own(Vec<u8>),
    Part(&'a [u8]),
}

/// The bytes of an image: a part of the set's bytes that it was read from, or bytes that own their
/// memory. Contracts see the list of them.
#[derive(Drop)]
pub struct Content<'a> {
    held: Held<'a>,
}

impl<'a> Model for Content<'a> {
    ghost use Rattle.std.specs.Prelude.{ℕ, List};
    ghost use Rattle.vab_set.specs.Content.{bytes_of};

    ghost Value = { List ℕ };

    ghost view = { λ c. bytes_of c.held };
}

impl<'a> Content<'a> {
    /// These bytes, in the memory that they have.
    pub fn from_vec(bytes: Vec<u8>) -> Content<'a>
        ensures { result ≡ bytes.items }
    {
        Content {
            held: Held::Own(bytes),
        }
    }

    /// These bytes, where they are.
    pub fn from_slice(bytes: &'a [u8]) -> Content<'a>
        ensures { result ≡ bytes.now }
    {
        Content {
            held: Held::Part(bytes),
        }
    }

    /// The bytes.
    pub fn as_slice(&self) -> &[u8]
        ensures { result.now ≡ self.now }
    {
        match &self.held {
            Held::Own(bytes) => bytes,
            Held::Part(bytes) => bytes,
        }
    }

    /// How many bytes there are.
    pub fn len(&self) -> usize
        ensures { result ≡ length self.now }
    {
        self.as_slice().len()
    }
}
