//! The declarations that have an entry and meet what they are asked.
ghost use Rattle.std.specs.Prelude.{◌≡◌, ◌&&◌, ℕ, true, length, IfOk};
ghost use Rattle.go_graphs.specs.Flags.{AreFlagsOf};
ghost use Rattle.go_typings.specs.Declarations.{declarations};
ghost use Rattle.go_typings.specs.PackageEnvironments.{Entries};
ghost use Rattle.go_typings.specs.Sources.{PackageSource, Setting};
ghost use Rattle.go_soundness.specs.LostDeclarations.{MeetsAsks};
ghost use Rattle.go_soundness.specs.Settled.{is_had};
ghost use Rattle.go_sifting.specs.Graphs.{Stands};
ghost use Rattle.go_sifting.specs.JoinedFlags.{AreJoined};

use go_base::memory::NoMemory;
use go_graphs::flags::flag;
use std::alloc::Global;

fn both(left: bool, right: bool) -> bool
    ensures { result ≡ (left && right) }
{
    left && right
}

// Flags of the numbers that are flagged in both.
fn joined(alloc: Global, left: &[bool], right: &[bool]) -> Result<Vec<bool>, NoMemory>
    ensures { IfOk result (λ flags. AreJoined left.now right.now flags.items) }
{
    let mut flags = Vec::new(alloc);
    for (number, found) in left.iter().enumerate() {
        let set = both(*found, flag(right, number));
        flags.push(set)?;
    }
    Ok(flags)
}

/// Flags of the numbers that are flagged in both, as many as the first: of the declarations that stand, where the first are
/// flags of those that have an entry, and the second of those that meet what they are asked.
pub fn standing(alloc: Global, entered: &[bool], met: &[bool]) -> Result<Vec<bool>, NoMemory>
    ensures joined { IfOk result (λ flags. AreJoined entered.now met.now flags.items) }
    ensures stands { (s : Setting) (u : PackageSource) (a : Entries) → AreFlagsOf (length (declarations u)) (λ n. is_had a n ≡ true) entered.now → AreFlagsOf (length (declarations u)) (MeetsAsks s u a) met.now → IfOk result (λ flags. AreFlagsOf (length (declarations u)) (Stands s u a) flags.items) }
{
    joined(alloc, entered, met)
}
