//! Numbers that options are given.
ghost use Rattle.std.specs.Prelude.{◌≡◌, ◌≤◌, ◌<◌, ◌^◌, ℕ, Option, MatchOption, Decides};
ghost use Rattle.std.specs.Fmt.{decimal};
ghost use Rattle.std.specs.Option.{option_copied};
ghost use Rattle.api_words.specs.Words.{AreMade, IsMade, IsWorkers};
ghost use Rattle.api_words.specs.declared.request.MadeTrees.{MadeTrees};

use crate::request::MadeTrees;
use itoa::Buffer;

const MOST_WORKERS: u32 = 64;

const MOST_PACKAGES: u32 = 2_000;

fn is_decimal(bytes: &[u8], number: u64) -> bool
    ensures { Decides result (bytes.now ≡ decimal number) }
{
    let mut buffer = Buffer::new();
    buffer.format(number).as_bytes() == bytes
}

// The number that a word is in decimal, without sign or leading zero, or `None`.
fn number_in(word: &str) -> Option<u64>
    ensures { MatchOption result ((n : ℕ) → word.now ≡ decimal n → n < 2 ^ 64 → ⊥) (λ n. (word.now ≡ decimal n) × (n < 2 ^ 64)) }
{
    let Ok(number) = word.parse::<u64>() else {
        return None;
    };
    if !is_decimal(word.as_bytes(), number) {
        return None;
    }
    Some(number)
}

// The number from 1 to the most that a word is, or `None`.
fn count_in(word: &str, most: u32) -> Option<u32>
    ensures { MatchOption result ((n : ℕ) → word.now ≡ decimal n → 1 ≤ n → n ≤ most → ⊥) (λ n. (word.now ≡ decimal n) × (1 ≤ n) × (n ≤ most)) }
{
    let number = number_in(word)?;
    if number < 1 {
        return None;
    }
    if number > u64::from(most) {
        return None;
    }
    Some(number as u32)
}

/// How many workers a run is asked for, or `None` where the word is out of form.
pub(crate) fn workers_of(given: Option<&str>) -> Option<u32>
    ensures { MatchOption result ((n : ℕ) → IsWorkers (option_copied given.entry) n → ⊥) (IsWorkers (option_copied given.entry)) }
{
    match given {
        None => Some(1),
        Some(word) => count_in(word, MOST_WORKERS),
    }
}

fn made_in(seed: &str, size: &str) -> Option<MadeTrees>
    ensures { MatchOption result ((m : MadeTrees) → AreMade seed.now size.now m → ⊥) (AreMade seed.now size.now) }
{
    let seed = number_in(seed)?;
    let size = count_in(size, MOST_PACKAGES)?;
    Some(MadeTrees { seed, size })
}

/// What the generator is asked to make, where it is, or `None` where a word is out of form.
pub(crate) fn made_of(seed: Option<&str>, size: Option<&str>) -> Option<Option<MadeTrees>>
    ensures { MatchOption result ((m : Option MadeTrees) → IsMade (option_copied seed.entry) (option_copied size.entry) m → ⊥) (IsMade (option_copied seed.entry) (option_copied size.entry)) }
{
    let Some(seed) = seed else {
        return Some(None);
    };
    let Some(size) = size else {
        return Some(None);
    };
    match made_in(seed, size) {
        None => None,
        Some(made) => Some(Some(made)),
    }
}
