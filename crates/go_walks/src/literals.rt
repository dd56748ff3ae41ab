//! The function literals in trees.
ghost use Rattle.std.specs.Prelude.{◌≡◌, IfOk};
ghost use Rattle.go_base.specs.Lists.{Each};
ghost use Rattle.go_judged.specs.Judging.{Among, Judges};
ghost use Rattle.go_local_scopes.specs.States.{IsAt};
ghost use Rattle.go_literal_blocks.specs.go_nodes.Trees.{nodes_in};
ghost use Rattle.go_rules.specs.Environments.{Env as Around};
ghost use Rattle.go_statement_rules.specs.Scopes.{Scopes};
ghost use Rattle.go_untyped_places.specs.LiteralRuns.{IsLiteralRun};
ghost use Rattle.go_walks.specs.Below.{RunsBelow, blocks_of, enclosing_of};
ghost use Rattle.go_walks.specs.Literals.{EntersLiteral, IsTypedLiteral, LiteralsTyped};

use crate::frame::Frame;
use crate::inner::Inner;
use crate::walk::Walk;
use go_base::memory::NoMemory;
use go_judged::judged::Judged;
use go_literal_blocks::go_nodes::trees::Trees;
use go_literal_blocks::literals::{Literal, literals_in};
use go_rules::env::Env;

impl<'a, F: Fn(&mut Env<'_>, &Frame<'_>, usize, Inner<'_>) -> Result<Option<u32>, NoMemory>> Walk<
    'a,
    F,
> {
    // Function literals one by one.
    fn each_literal(&self, env: &mut Env<'_>, literals: &[Literal<'_>]) -> Result<Judged, NoMemory>
        requires { RunsBelow self.now.height (F.pre self.now.below) (F.post self.now.below) }
        ensures same { env.new ≡ env.old }
        ensures judged { IfOk result (λ j. (E : Around) (s : Scopes) → IsAt E s env.old → Judges E (blocks_of self.now.frame.now) (Each (IsTypedLiteral E (blocks_of self.now.frame.now) (enclosing_of self.now.frame.now) s) literals.now) (Among (EntersLiteral E (blocks_of self.now.frame.now) (enclosing_of self.now.frame.now) s) literals.now) j) }
    {
        let mut judged = Judged::tested(true);
        for literal in literals {
            let one = self.literal(env, *literal)?;
            judged = judged.both(one);
        }
        Ok(judged)
    }

    /// The function literals in trees: whether the block of each is typed, and the least of their untyped places.
    pub fn literals(&self, env: &mut Env<'_>, trees: Trees<'_>) -> Result<Judged, NoMemory>
        requires { RunsBelow self.now.height (F.pre self.now.below) (F.post self.now.below) }
        ensures same { env.new ≡ env.old }
        ensures judged { IfOk result (λ j. (E : Around) (s : Scopes) → IsAt E s env.old → Judges E (blocks_of self.now.frame.now) (LiteralsTyped E (blocks_of self.now.frame.now) (enclosing_of self.now.frame.now) s (nodes_in trees.entry)) (IsLiteralRun E (blocks_of self.now.frame.now) (enclosing_of self.now.frame.now) s (nodes_in trees.entry)) j) }
    {
        let found = literals_in(self.frame.alloc, trees)?;
        self.each_literal(env, found.items())
    }
}
