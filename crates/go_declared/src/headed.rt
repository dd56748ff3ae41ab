//! Texts beside their first eight bytes as a number, which decides most comparisons.
ghost use Rattle.std.specs.Prelude.{◌≡◌, ◌<◌, IfOk, length};
ghost use Rattle.std.specs.Ordering.{nat_cmp};
ghost use Rattle.std.specs.Cmp.Lexicographic.{slice_cmp};
ghost use Rattle.go_declared.specs.inner.Heads.{IsHead};

use go_base::memory::NoMemory;
use go_base::text::Text;
use std::alloc::Global;
use std::cmp::Ordering;
use std::marker::Model;

// The head of fewer than eight bytes.
fn short_head(bytes: &[u8]) -> u64
    requires { length bytes.now < 8 }
    ensures { IsHead bytes.now result }
{
    let mut front = [0; 8];
    for i in 0..bytes.len() {
        front[i] = bytes[i];
    }
    u64::from_be_bytes(front)
}

fn long_head(front: &[u8; 8]) -> u64
    ensures { IsHead front.now result }
{
    u64::from_be_bytes(*front)
}

// The first eight bytes as a number, the highest byte first, with zeros after a shorter text.
fn head(bytes: &[u8]) -> u64
    ensures { IsHead bytes.now result }
{
    match bytes.first_chunk::<8>() {
        Some(front) => long_head(front),
        None => short_head(bytes),
    }
}

/// A borrowed text with its head.
#[derive(Drop)]
pub(crate) struct Headed<'a> {
    head: u64,
    text: &'a Text,
}

impl<'a> Model for Headed<'a> {
    ghost use Rattle.std.specs.Prelude.{List, ℕ};
    ghost use Rattle.go_declared.specs.inner.Heads.{IsHead};

    ghost Value = { List ℕ };

    ghost view = { λ h. h.text.now };

    ghost invariant = { λ h. IsHead h.text.now h.head };
}

impl Headed<'_> {
    pub(crate) fn of(text: &Text) -> Headed<'_>
        ensures { result ≡ text.now }
    {
        Headed {
            head: head(text.bytes()),
            text,
        }
    }

    /// The order of bytes.
    pub(crate) fn order(&self, other: &Headed<'_>) -> Ordering
        ensures { result ≡ slice_cmp nat_cmp self.now other.now }
    {
        let heads = self.head.cmp(&other.head);
        if heads.is_ne() {
            return heads;
        }
        self.text.cmp(other.text)
    }
}

/// A text with its head.
pub(crate) struct HeadedText {
    head: u64,
    text: Text,
}

impl Drop for HeadedText {
    fn drop(self) {
        let HeadedText { head: _, text: _ } = self;
    }
}

impl Model for HeadedText {
    ghost use Rattle.std.specs.Prelude.{List, ℕ};
    ghost use Rattle.go_declared.specs.inner.Heads.{IsHead};

    ghost Value = { List ℕ };

    ghost view = { λ h. h.text };

    ghost invariant = { λ h. IsHead h.text h.head };
}

impl HeadedText {
    /// The text copied, with its head.
    pub(crate) fn of(alloc: Global, text: &Text) -> Result<HeadedText, NoMemory>
        ensures { IfOk result (λ copy. copy ≡ text.now) }
    {
        Ok(HeadedText {
            head: head(text.bytes()),
            text: text.copy()?,
        })
    }

    pub(crate) fn text(&self) -> &Text
        ensures { result.now ≡ self.now }
    {
        &self.text
    }

    /// The text with its head, borrowed.
    pub(crate) fn headed(&self) -> Headed<'_>
        ensures { result ≡ self.now }
    {
        Headed {
            head: self.head,
            text: &self.text,
        }
    }
}
