//! Function literals outside of bodies.
ghost use Rattle.std.specs.Prelude.{◌≡◌, IfOk};
ghost use Rattle.go_judged.specs.Judging.{Judges};
ghost use Rattle.go_local_scopes.specs.States.{IsAt, around};
ghost use Rattle.go_nodes.specs.Trees.{nodes_in};
ghost use Rattle.go_rules.specs.Environments.{Env as Around};
ghost use Rattle.go_statement_rules.specs.Functions.{outside};
ghost use Rattle.go_statement_rules.specs.Scopes.{Scopes};
ghost use Rattle.go_untyped_places.specs.LiteralRuns.{IsLiteralRun};
ghost use Rattle.go_switch_statements.specs.go_walks.Below.{blocks_of, enclosing_of};
ghost use Rattle.go_switch_statements.specs.go_walks.Literals.{LiteralsTyped};

use crate::levels::{DEPTH, below};
use go_base::memory::NoMemory;
use go_judged::judged::Judged;
use go_literal_blocks::blocks::Blocks;
use go_nodes::trees::Trees;
use go_rules::env::Env;
use go_selectors::lookup::error_type;
use go_switch_statements::go_walks::frame::Frame;
use go_switch_statements::go_walks::walk::Walk;
use std::alloc::Global;

// The function literals in trees, of a function or outside of functions.
fn literals_here(env: &mut Env<'_>, frame: &Frame<'_>, trees: Trees<'_>) -> Result<Judged, NoMemory>
    ensures same { env.new ≡ env.old }
    ensures judged { IfOk result (λ j. (E : Around) (s : Scopes) → IsAt E s env.old → Judges E (blocks_of frame.now) (LiteralsTyped E (blocks_of frame.now) (enclosing_of frame.now) s (nodes_in trees.entry)) (IsLiteralRun E (blocks_of frame.now) (enclosing_of frame.now) s (nodes_in trees.entry)) j) }
{
    let walk = Walk {
        frame: &*frame,
        height: DEPTH,
        below,
    };
    walk.literals(env, trees)
}

/// The function literals in trees outside of bodies, as in the values of the variables of a package: whether the block of each is
/// typed, and the least of their untyped places. The environment is as before.
pub fn type_literals(
    env: &mut Env<'_>,
    alloc: Global,
    blocks: &Blocks<'_>,
    trees: Trees<'_>,
) -> Result<Judged, NoMemory>
    ensures same { env.new ≡ env.old }
    ensures judged { IfOk result (Judges (around env.old) blocks.now.list.now (LiteralsTyped (around env.old) blocks.now.list.now outside env.old.opened (nodes_in trees.entry)) (IsLiteralRun (around env.old) blocks.now.list.now outside env.old.opened (nodes_in trees.entry))) }
{
    let error = error_type(alloc)?;
    let frame = Frame::new(alloc, blocks, &error, &[], 0);
    let before = env.iota();
    env.set_iota(None);
    let judged = literals_here(env, &frame, trees);
    env.set_iota(before);
    judged
}
