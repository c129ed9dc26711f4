//! What stands before a word's `=`.

ghost use Rattle.std.specs.Prelude.{◌≡◌};
ghost use Rattle.vab_pack.specs.Front.{front_of, with_options, is_left_out, size_of, store_of};

use crate::amount::parse_amount;
use std::marker::Model;

// The most bytes of a partition.
const MAX_SIZE: u64 = 1 << 40;

/// The texts of a name, and of a size and a store where they are given; contracts see the texts.
#[derive(Drop)]
pub(crate) struct Front<'a> {
    name: &'a str,
    size: Option<&'a str>,
    store: Option<&'a str>,
}

impl<'a> Model for Front<'a> {
    ghost use Rattle.std.specs.Prelude.{option_map};
    ghost use Rattle.vab_pack.specs.Front.{Front as Texts};

    ghost Value = { Texts };

    ghost view = { λ f. record {
      name = f.name.now;
      size = option_map (λ t. t.now) f.size;
      store = option_map (λ t. t.now) f.store;
    } };
}

// The texts behind a name.
#[tactic(auto, unfolding(crate::specs::Front::with_options, crate::specs::Front::has_colon))]
fn with_options<'a>(name: &'a str, options: &'a str) -> Front<'a>
    ensures { result ≡ with_options name.entry.now options.entry.now }
{
    match options.split_once(':') {
        Some((size, store)) => Front {
            name,
            size: Some(size),
            store: Some(store),
        },
        None => Front {
            name,
            size: Some(options),
            store: None,
        },
    }
}

/// The texts up to the first two colons: `NAME`, `NAME:SIZE` or `NAME:SIZE:STORE`.
#[tactic(auto, unfolding(crate::specs::Front::front_of, crate::specs::Front::has_colon))]
pub(crate) fn split_front<'a>(front: &'a str) -> Front<'a>
    ensures { result ≡ front_of front.entry.now }
{
    match front.split_once(':') {
        Some((name, options)) => with_options(name, options),
        None => Front {
            name: front,
            size: None,
            store: None,
        },
    }
}

impl<'a> Front<'a> {
    /// The text of the name.
    pub(crate) fn name(&self) -> &'a str
        ensures { result.now ≡ self.now.name }
    {
        self.name
    }

    // Whether nothing stands in the place of the size, and a store behind it.
    fn leaves_out(&self, text: &str) -> bool
        ensures { result ≡ is_left_out self.now text.now }
    {
        text.is_empty() && self.store.is_some()
    }

    /// The bytes of the partition, where they are given; the outer `None` where they are none, or
    /// above 2^40.
    #[tactic(auto, unfolding(crate::specs::Front::size_of))]
    pub(crate) fn size(&self) -> Option<Option<u64>>
        ensures { result ≡ size_of self.now }
    {
        match self.size {
            None => Some(None),
            Some(text) if self.leaves_out(text) => Some(None),
            Some(text) => Some(Some(parse_amount(text, MAX_SIZE)?)),
        }
    }

    /// The bytes of the store, 0 where they aren't given; `None` where they are none, or not below
    /// 2^64.
    #[tactic(auto, unfolding(crate::specs::Front::store_of))]
    pub(crate) fn store(&self) -> Option<u64>
        ensures { result ≡ store_of self.now }
    {
        match self.store {
            None => Some(0),
            Some(text) => parse_amount(text, u64::MAX),
        }
    }
}
