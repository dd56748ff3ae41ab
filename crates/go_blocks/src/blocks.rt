//! Blocks.
ghost use Rattle.std.specs.Prelude.{◌≡◌, IfOk};
ghost use Rattle.go_blocks.specs.Answers.{FindsBlock, TellsBlock, answer_by};
ghost use Rattle.go_local_scopes.specs.States.{IsAt, around};
ghost use Rattle.go_rules.specs.Environments.{Env as Around};
ghost use Rattle.go_statement_rules.specs.Scopes.{Scopes};
ghost use Rattle.go_switch_statements.specs.go_walks.Below.{blocks_of, enclosing_of};

use crate::error::BlockError;
use crate::levels::place_in;
use go_base::memory::NoMemory;
use go_literal_blocks::blocks::Blocks;
use go_model::types::term::Term;
use go_rules::env::Env;
use go_selectors::lookup::error_type;
use go_switch_statements::go_walks::frame::Frame;
use go_syntax::statement::Stmt;
use std::alloc::Global;

// What is told of a block by what is found in it.
fn answer(place: Result<Option<u32>, NoMemory>) -> Result<(), BlockError>
    ensures { result ≡ answer_by place }
{
    match place {
        Ok(Some(place)) => Err(BlockError::Untyped(place)),
        Ok(None) => Ok(()),
        Err(NoMemory) => Err(BlockError::NoMemory),
    }
}

// The untyped place of the statements of a block, in a scope of their own, where there is one.
fn opened_place(
    env: &mut Env<'_>,
    frame: &Frame<'_>,
    block: &[Stmt],
) -> Result<Option<u32>, NoMemory>
    ensures same { env.new ≡ env.old }
    ensures found { IfOk result (λ p. (E : Around) (s : Scopes) → IsAt E s env.old → FindsBlock E (blocks_of frame.now) (enclosing_of frame.now) s block.now p) }
{
    env.open_scope()?;
    let place = place_in(env, frame, block);
    env.close_scope();
    place
}

// The same in a function of its own, where `iota` has no value.
fn untyped_place(
    env: &mut Env<'_>,
    alloc: Global,
    blocks: &Blocks<'_>,
    results: &[Term],
    first: u64,
    block: &[Stmt],
) -> Result<Option<u32>, NoMemory>
    ensures same { env.new ≡ env.old }
    ensures found { IfOk result (FindsBlock (around env.old) blocks.now.list.now (record { results = results.now; first = first }) env.old.opened block.now) }
{
    let error = error_type(alloc)?;
    let frame = Frame::new(alloc, blocks, &error, results, first);
    let before = env.iota();
    env.set_iota(None);
    let place = opened_place(env, &frame, block);
    env.set_iota(before);
    place
}

/// The statements of a block, in a scope of its own inside of those of an environment, of a function with these results, in
/// which the block of a function literal begins at this offset or behind it. `Ok` exactly where the block is typed, and
/// `Untyped` exactly where it has that untyped place. The environment is as before.
pub fn type_block(
    env: &mut Env<'_>,
    alloc: Global,
    blocks: &Blocks<'_>,
    results: &[Term],
    first: u64,
    block: &[Stmt],
) -> Result<(), BlockError>
    ensures same { env.new ≡ env.old }
    ensures told { TellsBlock (around env.old) blocks.now.list.now (record { results = results.now; first = first }) env.old.opened block.now result }
{
    answer(untyped_place(env, alloc, blocks, results, first, block))
}
