//! Statements inside of others.
ghost use Rattle.std.specs.Prelude.{◌≡◌, ◌≢◌, [], ◌∷◌, IfOk};
ghost use Rattle.go_judged.specs.Judging.{Judges, JudgesTo};
ghost use Rattle.go_local_scopes.specs.States.{IsAt, Kept};
ghost use Rattle.go_rules.specs.Environments.{Env as Around};
ghost use Rattle.go_statement_rules.specs.Functions.{run};
ghost use Rattle.go_statement_rules.specs.Scopes.{Scopes, opened};
ghost use Rattle.go_statement_rules.specs.Statements.{IsTypedBlock, Leaves, kind_of};
ghost use Rattle.go_untyped_places.specs.Parts.{IsLone};
ghost use Rattle.go_walks.specs.Below.{RunsBelow, blocks_of, enclosing_of};
ghost use Rattle.go_walks.specs.Standing.{Stays};

use crate::frame::Frame;
use crate::inner::Inner;
use crate::walk::Walk;
use go_base::boxed::Box;
use go_base::list::List;
use go_base::memory::NoMemory;
use go_judged::judged::Judged;
use go_rules::env::Env;
use go_syntax::statement::Stmt;

impl<'a, F: Fn(&mut Env<'_>, &Frame<'_>, usize, Inner<'_>) -> Result<Option<u32>, NoMemory>> Walk<
    'a,
    F,
> {
    /// A statement in the scopes as they are, in which it leaves what it declares.
    pub fn lone(&self, env: &mut Env<'_>, statement: &Box<Stmt>) -> Result<Judged, NoMemory>
        requires below { RunsBelow self.now.height (F.pre self.now.below) (F.post self.now.below) }
        requires opened { env.old.opened ≢ [] }
        ensures kept { Kept env.old env.new }
        ensures judged { IfOk result (λ j. (E : Around) (s : Scopes) → IsAt E s env.old → JudgesTo E (blocks_of self.now.frame.now) (Leaves E (blocks_of self.now.frame.now) (enclosing_of self.now.frame.now) s (kind_of statement.now)) env.new.opened (λ v. v ≡ run (enclosing_of self.now.frame.now) s (statement.now ∷ [])) j) }
    {
        let place = self.run(env, self.frame, Inner::One(statement))?;
        Ok(Judged::found(place))
    }

    /// A statement that may be left out.
    pub fn optional(
        &self,
        env: &mut Env<'_>,
        statement: &Option<Box<Stmt>>,
    ) -> Result<Judged, NoMemory>
        requires below { RunsBelow self.now.height (F.pre self.now.below) (F.post self.now.below) }
        requires opened { env.old.opened ≢ [] }
        ensures kept { Kept env.old env.new }
        ensures judged { IfOk result (λ j. (E : Around) (s : Scopes) → IsAt E s env.old → JudgesTo E (blocks_of self.now.frame.now) (Stays E (blocks_of self.now.frame.now) (enclosing_of self.now.frame.now) s statement.now) env.new.opened (IsLone E (blocks_of self.now.frame.now) (enclosing_of self.now.frame.now) s statement.now) j) }
    {
        match statement {
            Some(statement) => self.lone(env, statement),
            None => Ok(Judged::tested(true)),
        }
    }

    // Statements in the scopes as they are.
    fn statements(&self, env: &mut Env<'_>, statements: &List<Stmt>) -> Result<Judged, NoMemory>
        requires below { RunsBelow self.now.height (F.pre self.now.below) (F.post self.now.below) }
        requires opened { env.old.opened ≢ [] }
        ensures kept { Kept env.old env.new }
        ensures judged { IfOk result (λ j. (E : Around) (s : Scopes) → IsAt E (opened s) env.old → Judges E (blocks_of self.now.frame.now) (IsTypedBlock E (blocks_of self.now.frame.now) (enclosing_of self.now.frame.now) s statements.now) (λ v. v ≡ run (enclosing_of self.now.frame.now) (opened s) statements.now) j) }
    {
        let place = self.run(env, self.frame, Inner::All(statements))?;
        Ok(Judged::found(place))
    }

    /// The statements of a block, in a scope of their own.
    pub fn block(&self, env: &mut Env<'_>, statements: &List<Stmt>) -> Result<Judged, NoMemory>
        requires { RunsBelow self.now.height (F.pre self.now.below) (F.post self.now.below) }
        ensures same { env.new ≡ env.old }
        ensures judged { IfOk result (λ j. (E : Around) (s : Scopes) → IsAt E s env.old → Judges E (blocks_of self.now.frame.now) (IsTypedBlock E (blocks_of self.now.frame.now) (enclosing_of self.now.frame.now) s statements.now) (λ v. v ≡ run (enclosing_of self.now.frame.now) (opened s) statements.now) j) }
    {
        env.open_scope()?;
        let judged = self.statements(env, statements);
        env.close_scope();
        judged
    }
}
