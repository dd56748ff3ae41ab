//! Which declarations are lost.
ghost use Rattle.std.specs.Prelude.{◌≡◌, ℕ, List as Sequence, length, IfOk};
ghost use Rattle.go_graphs.specs.Flags.{AreFlagsOf, is_flagged};
ghost use Rattle.go_graphs.specs.Ranks.{HasRank};
ghost use Rattle.go_graphs.specs.Walks.{LeadsBack, LeadsInto};
ghost use Rattle.go_typings.specs.Declarations.{declarations};
ghost use Rattle.go_typings.specs.PackageEnvironments.{Entries};
ghost use Rattle.go_typings.specs.Sources.{PackageSource, Setting};
ghost use Rattle.go_soundness.specs.Settled.{AreSifted};
ghost use Rattle.go_sifting.specs.Graphs.{IsGraphOf, Stands};
ghost use Rattle.go_sifting.specs.inner.Ends.{AreEnds};

use crate::ends::ends;
use crate::graph::DeclarationGraph;
use go_base::memory::NoMemory;
use go_graphs::circles::leading_back;
use go_graphs::marks::leading;
use go_graphs::ranks::ranked;
use std::alloc::Global;

// Those that have a rank.
fn having_rank(alloc: Global, graph: &DeclarationGraph) -> Result<Vec<bool>, NoMemory>
    ensures { IfOk result (λ flags. AreFlagsOf (length graph.now.after) (HasRank graph.now.after) flags.items) }
{
    ranked(alloc, graph.after.items())
}

// Those that lead back from one of their lengths, where their numbers are `u32`.
fn going_back(alloc: Global, graph: &DeclarationGraph) -> Result<Vec<bool>, NoMemory>
    ensures { IfOk result (λ flags. AreFlagsOf (length graph.now.leads) (LeadsBack graph.now.leads graph.now.lengths) flags.items) }
{
    let leads = graph.leads.items();
    if u32::try_from(leads.len()).is_err() {
        return Err(NoMemory);
    }
    leading_back(alloc, leads, graph.lengths.items())
}

// Those that depend, in whatever number of steps, on one that fails by itself.
fn depending(
    alloc: Global,
    graph: &DeclarationGraph,
    standing: &[bool],
    ranked: &[bool],
    back: &[bool],
) -> Result<Vec<bool>, NoMemory>
    ensures { IfOk result (λ lost. (ends : Sequence ℕ) × AreEnds standing.now ranked.now back.now (length graph.now.depends) ends × AreFlagsOf (length graph.now.depends) (LeadsInto graph.now.depends ends) lost.items) }
{
    let depends = graph.depends.items();
    let ends = ends(alloc, depends.len(), standing, ranked, back)?;
    leading(alloc, depends, &ends)
}

/// Flags of the declarations that are lost, where these are flags of those that have an entry and meet what they are
/// asked: lost is one that doesn't stand, that has no rank, or from a length of which a way leads back to it, and each
/// that depends on a lost one. `NoMemory` may come at any time, and comes for more than 2^32 - 1 declarations.
pub fn sift(
    alloc: Global,
    graph: &DeclarationGraph,
    standing: &[bool],
) -> Result<Vec<bool>, NoMemory>
    ensures { (s : Setting) (u : PackageSource) (a : Entries) → IsGraphOf s u a graph.now → AreFlagsOf (length (declarations u)) (Stands s u a) standing.now → IfOk result (λ lost. (length lost.items ≡ length (declarations u)) × AreSifted s u a (is_flagged lost.items)) }
{
    let ranked = having_rank(alloc, graph)?;
    let back = going_back(alloc, graph)?;
    let lost = depending(alloc, graph, standing, &ranked, &back)?;
    Ok(lost)
}
