//! A few bytes, which stand in the value itself.
ghost use Rattle.std.specs.Prelude.{◌≡◌, [], IfSome};
ghost use Rattle.std.specs.Ordering.{nat_cmp};
ghost use Rattle.std.specs.Cmp.Lexicographic.{slice_cmp};

use crate::order::order;
use std::cmp::Ordering;
use std::marker::Model;

/// How many bytes stand in the value itself.
const MOST: usize = 14;

/// The bytes of a short text, and zeros behind them.
#[derive(Debug, Drop)]
pub(crate) struct Short {
    len: u8,
    bytes: [u8; MOST],
}

impl Model for Short {
    ghost use Rattle.std.specs.Prelude.{List, ℕ, take};
    ghost use Rattle.go_base.specs.FilledUp.{IsFilledUp};

    ghost Value = { List ℕ };

    ghost view = { λ s. take s.len s.bytes };

    ghost invariant = { λ s. IsFilledUp s.len s.bytes };
}

impl Short {
    /// No bytes.
    pub(crate) fn empty() -> Short
        ensures { result ≡ [] }
    {
        Short {
            len: 0,
            bytes: [0; MOST],
        }
    }

    /// These bytes, where they are few.
    pub(crate) fn of(bytes: &[u8]) -> Option<Short>
        ensures { IfSome result (λ s. s ≡ bytes.now) }
    {
        let len = u8::try_from(bytes.len()).ok()?;
        if bytes.len() > MOST {
            return None;
        }
        let mut held = [0u8; MOST];
        held[..bytes.len()].copy_from_slice(bytes);
        Some(Short { len, bytes: held })
    }

    /// The same bytes once more.
    pub(crate) fn copy(&self) -> Short
        ensures { result ≡ self.now }
    {
        Short {
            len: self.len,
            bytes: self.bytes,
        }
    }

    /// The bytes.
    pub(crate) fn bytes(&self) -> &[u8]
        ensures { result.now ≡ self.now }
    {
        &self.bytes[..usize::from(self.len)]
    }

    /// The order of two: that of the bytes with the zeros, and else of the lengths.
    pub(crate) fn order(&self, other: &Short) -> Ordering
        ensures { result ≡ slice_cmp nat_cmp self.now other.now }
    {
        let found = order(&self.bytes, &other.bytes);
        if found.is_ne() {
            return found;
        }
        self.len.cmp(&other.len)
    }
}
