//! Flags of numbers.
ghost use Rattle.std.specs.Prelude.{◌≡◌, ◌<◌, ◌⊎◌, ℕ, true, false, length, replicate, IfOk};
ghost use Rattle.go_base.specs.Lists.{Each, Has};
ghost use Rattle.go_graphs.specs.Flags.{AreFlagsOf, is_flagged};

use go_base::memory::NoMemory;
use std::alloc::Global;

/// Whether a number is flagged.
pub fn flag(flags: &[bool], number: usize) -> bool
    ensures { result ≡ is_flagged flags.now number }
{
    match flags.get(number) {
        Some(found) => *found,
        None => false,
    }
}

pub(crate) fn no_flags(alloc: Global, count: usize) -> Result<Vec<bool>, NoMemory>
    ensures { IfOk result (λ flags. flags.items ≡ replicate count false) }
{
    let mut flags = Vec::new(alloc);
    for _ in 0..count {
        flags.push(false)?;
    }
    Ok(flags)
}

fn flag_each(flags: &mut [bool], numbers: &[u32])
    requires { Each (λ n. n < length flags.old) numbers.now }
    ensures sound { (n : ℕ) → is_flagged flags.new n ≡ true → (is_flagged flags.old n ≡ true) ⊎ Has numbers.now n }
    ensures kept { (n : ℕ) → is_flagged flags.old n ≡ true → is_flagged flags.new n ≡ true }
    ensures complete { (n : ℕ) → Has numbers.now n → is_flagged flags.new n ≡ true }
{
    for number in numbers {
        flags[*number as usize] = true;
    }
}

/// Flags of these numbers, which are below the count.
pub fn flags_of(alloc: Global, count: usize, numbers: &[u32]) -> Result<Vec<bool>, NoMemory>
    requires { Each (λ n. n < count) numbers.now }
    ensures { IfOk result (λ flags. AreFlagsOf count (Has numbers.now) flags.items) }
{
    let mut flags = no_flags(alloc, count)?;
    flag_each(&mut flags, numbers);
    Ok(flags)
}
