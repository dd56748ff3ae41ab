//! Look-ups in lists that are ordered by a key.
ghost use Rattle.std.specs.Prelude.{◌≡◌, ℕ, List, map};
ghost use Rattle.std.specs.Ordering.{nat_cmp, is_lt};
ghost use Rattle.std.specs.Cmp.Lexicographic.{slice_cmp};
ghost use Rattle.go_base.specs.Lists.{Ascending};
ghost use Rattle.go_base.specs.Keys.{first_with, item_of, PlaceFor};

use crate::types::package::{Defined, Object, Package};
use go_base::order::order;
use go_base::text::Text;
use std::cmp::Ordering;

/// An item of a list that is ordered by a text of it.
pub trait Keyed {
    /// The text.
    ghost key: { Self → List ℕ };

    /// The text.
    fn key(&self) -> &[u8]
        ensures { result.now ≡ key self.now };
}

impl Keyed for Package {
    ghost key = { λ p. p.path };

    fn key(&self) -> &[u8] {
        self.path.bytes()
    }
}

impl Keyed for Defined {
    ghost key = { λ d. d.name };

    fn key(&self) -> &[u8] {
        self.name.bytes()
    }
}

impl Keyed for Object {
    ghost key = { λ o. o.name };

    fn key(&self) -> &[u8] {
        self.name.bytes()
    }
}

impl Keyed for Text {
    ghost key = { λ t. t };

    fn key(&self) -> &[u8] {
        self.bytes()
    }
}

fn compare<K: Keyed>(item: &K, key: &[u8]) -> Ordering
    ensures { result ≡ slice_cmp nat_cmp (K.key item.now) key.now }
{
    order(item.key(), key)
}

/// The item with a key, in a list that is ordered by it.
pub(crate) fn find_key<'a, K: Keyed>(items: &'a [K], key: &[u8]) -> Option<&'a K>
    requires { Ascending (map K.key items.now) }
    ensures { item_of result ≡ first_with K.key items.now key.now }
{
    let mut low = 0usize;
    let mut high = items.len();
    while low < high {
        let middle = low + (high - low) / 2;
        let item = &items[middle];
        match compare(item, key) {
            Ordering::Less => low = middle + 1,
            Ordering::Greater => high = middle,
            Ordering::Equal => return Some(item),
        }
    }
    None
}

fn goes_before<K: Keyed>(key: &[u8], item: &K) -> bool
    ensures { result ≡ is_lt (slice_cmp nat_cmp key.now (K.key item.now)) }
{
    order(key, item.key()) == Ordering::Less
}

/// Where an item with this key stands in a list that is ordered by it.
pub(crate) fn place_for<K: Keyed>(items: &[K], key: &[u8]) -> usize
    requires { Ascending (map K.key items.now) }
    ensures { PlaceFor K.key items.now key.now result }
{
    let mut low = 0usize;
    let mut high = items.len();
    while low < high {
        let middle = low + (high - low) / 2;
        let item = &items[middle];
        if goes_before(key, item) {
            high = middle;
        } else {
            low = middle + 1;
        }
    }
    low
}
