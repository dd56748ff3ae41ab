//! A text: bytes that a contract sees as a list, compared and ordered byte by byte.
ghost use Rattle.std.specs.Prelude.{◌≡◌, ◌∷◌, [], IfOk, Some, refl, bytes_eq};
ghost use Rattle.std.specs.Ordering.{nat_cmp};
ghost use Rattle.std.specs.Cmp.{partial_equiv_from_equiv};
ghost use Rattle.std.specs.Cmp.Lexicographic.{slice_cmp, bytes_decides, nat_list_eq_equiv, nat_list_cmp_total, texts_po, texts_ties};
ghost use Rattle.std.proofs.Common.{ap};

use crate::memory::NoMemory;
use crate::order::order;
use crate::shared::Shared;
use crate::short::Short;
use std::alloc::Global;
use std::cmp::Ordering;
use std::hash::{Hash, Hasher};
use std::marker::Model;

/// Where the bytes of a text stand: in the value itself, or in a vector that its copies have in common with it.
#[derive(Debug)]
enum Held {
    Short(Short),
    Common(Shared<Vec<u8>>),
}

impl Drop for Held {
    fn drop(self) {
        match self {
            Held::Short(_) => (),
            Held::Common(_) => (),
        }
    }
}

/// Bytes, which need not be UTF-8. Up to 14 of them, as most names have, stand in the value itself. A longer text has
/// them in common with its copies: nothing writes to a text.
#[derive(Debug)]
pub struct Text {
    held: Held,
}

impl Drop for Text {
    fn drop(self) {
        let Text { held: _ } = self;
    }
}

impl Model for Text {
    ghost use Rattle.std.specs.Prelude.{List, ℕ};
    ghost use Rattle.go_base.specs.Texts.{held_bytes};

    ghost Value = { List ℕ };

    ghost view = { λ t. held_bytes t.held };
}

impl Text {
    /// The text of no bytes.
    pub fn empty() -> Text
        ensures { result ≡ [] }
    {
        Text {
            held: Held::Short(Short::empty()),
        }
    }

    /// The text of these bytes, copied.
    pub fn of(alloc: Global, bytes: &[u8]) -> Result<Text, NoMemory>
        ensures { IfOk result (λ text. text ≡ bytes.now) }
    {
        match Short::of(bytes) {
            Some(short) => Ok(Text {
                held: Held::Short(short),
            }),
            None => Ok(Text {
                held: Held::Common(Shared::new(alloc, Vec::from_slice(alloc, bytes)?)?),
            }),
        }
    }

    /// The text of these bytes, which are moved.
    pub fn from_vec(alloc: Global, bytes: Vec<u8>) -> Result<Text, NoMemory>
        ensures { IfOk result (λ text. text ≡ bytes.items) }
    {
        match Short::of(bytes.as_slice()) {
            Some(short) => Ok(Text {
                held: Held::Short(short),
            }),
            None => Ok(Text {
                held: Held::Common(Shared::new(alloc, bytes)?),
            }),
        }
    }

    /// The same text once more, which takes no memory. `NoMemory` means that no more owners of its bytes can be counted.
    pub fn copy(&self) -> Result<Text, NoMemory>
        ensures { IfOk result (λ text. text ≡ self.now) }
    {
        match &self.held {
            Held::Short(short) => Ok(Text {
                held: Held::Short(short.copy()),
            }),
            Held::Common(bytes) => Ok(Text {
                held: Held::Common(bytes.share()?),
            }),
        }
    }

    /// The bytes.
    pub fn bytes(&self) -> &[u8]
        ensures { result.now ≡ self.now }
    {
        match &self.held {
            Held::Short(short) => short.bytes(),
            Held::Common(bytes) => bytes.value().as_slice(),
        }
    }
}

impl PartialEq for Text {
    ghost eq = { λ a b. bytes_eq a b };

    ghost laws = { partial_equiv_from_equiv nat_list_eq_equiv };

    fn eq(&self, other: &Text) -> bool {
        self.bytes() == other.bytes()
    }
}

impl Eq for Text {
    ghost laws = { nat_list_eq_equiv };
}

impl PartialOrd for Text {
    ghost partial_cmp = { λ a b. Some (slice_cmp nat_cmp a b) };

    ghost laws = { texts_po };

    fn partial_cmp(&self, other: &Text) -> Option<Ordering> {
        Some(self.cmp(other))
    }
}

impl Ord for Text {
    ghost cmp = { λ a b. slice_cmp nat_cmp a b };

    ghost total = { nat_list_cmp_total };

    ghost matches_partial_cmp = { λ a b. refl };

    ghost matches_eq = { λ a b. texts_ties a b };

    fn cmp(&self, other: &Text) -> Ordering {
        match (&self.held, &other.held) {
            (Held::Short(short), Held::Short(shorter)) => short.order(shorter),
            _ => order(self.bytes(), other.bytes()),
        }
    }
}

impl Hash for Text {
    ghost hash_input = { λ t. t ∷ [] };

    ghost respects_eq = { λ a b same. ap (λ t. t ∷ []) ((bytes_decides a b).0 same) };

    fn hash<H: Hasher>(&self, state: &mut H) {
        state.write(self.bytes());
    }
}
