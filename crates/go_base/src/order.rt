//! The order of bytes, as dictionaries have it: the first that differ decide, and else the lengths.
ghost use Rattle.std.specs.Prelude.{◌≡◌};
ghost use Rattle.std.specs.Ordering.{nat_cmp};
ghost use Rattle.std.specs.Cmp.Lexicographic.{slice_cmp};

use std::cmp::Ordering;

/// The order of eight bytes: as words, the highest byte first.
fn order_of_words(left: &[u8; 8], right: &[u8; 8]) -> Ordering
    ensures { result ≡ slice_cmp nat_cmp left.now right.now }
{
    let (left, right) = (u64::from_be_bytes(*left), u64::from_be_bytes(*right));
    left.cmp(&right)
}

fn order_of_bytes(left: &[u8], right: &[u8]) -> Ordering
    ensures { result ≡ slice_cmp nat_cmp left.now right.now }
{
    for i in 0..left.len().min(right.len()) {
        let found = left[i].cmp(&right[i]);
        if found.is_ne() {
            return found;
        }
    }
    left.len().cmp(&right.len())
}

/// The order of two texts: by words, as long as both have one more, and the rest by bytes.
pub fn order(left: &[u8], right: &[u8]) -> Ordering
    ensures { result ≡ slice_cmp nat_cmp left.now right.now }
{
    let (mut left_rest, mut right_rest) = (left, right);
    while let (Some((left_word, left_more)), Some((right_word, right_more))) = (
        left_rest.split_first_chunk::<8>(),
        right_rest.split_first_chunk::<8>(),
    ) {
        let found = order_of_words(left_word, right_word);
        if found.is_ne() {
            return found;
        }
        (left_rest, right_rest) = (left_more, right_more);
    }
    order_of_bytes(left_rest, right_rest)
}
