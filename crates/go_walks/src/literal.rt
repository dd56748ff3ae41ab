//! A function literal and its block.
ghost use Rattle.std.specs.Prelude.{◌≡◌, ◌≢◌, ◌<◌, [], IfOk, length, get_or};
ghost use Rattle.go_judged.specs.Judging.{Judges};
ghost use Rattle.go_local_scopes.specs.States.{IsAt, Kept};
ghost use Rattle.go_rules.specs.Environments.{Env as Around};
ghost use Rattle.go_rules.specs.Expressions.{OfSignature};
ghost use Rattle.go_rules.specs.Scopes.{env_of};
ghost use Rattle.go_statement_rules.specs.Functions.{EntersFunction};
ghost use Rattle.go_statement_rules.specs.Scopes.{Scopes, opened};
ghost use Rattle.go_statement_rules.specs.Statements.{IsTypedFunction};
ghost use Rattle.go_syntax.specs.declared.statement.LiteralBlock as b;
ghost use Rattle.go_syntax.specs.declared.types.Signature.{out-Signature};
ghost use Rattle.go_expr.specs.go_usability.Answers.{Gives};
ghost use Rattle.go_walks.specs.Below.{RunsBelow, blocks_of, enclosing_of};
ghost use Rattle.go_walks.specs.Entering.{Enters, IsTypedIn};

use crate::answers::found;
use crate::frame::Frame;
use crate::inner::Inner;
use crate::walk::Walk;
use go_base::list::List;
use go_base::memory::NoMemory;
use go_expr::go_usability::context::Context;
use go_expr::typing::signature_of;
use go_judged::judged::Judged;
use go_literal_blocks::blocks::Blocks;
use go_literal_blocks::literals::Literal;
use go_local_scopes::declaring::declare_signature;
use go_model::types::term::Signature as Signed;
use go_rules::env::Env;
use go_syntax::statement::Stmt;
use go_syntax::types::Signature;

// The signature of a function literal, where it has one.
fn signature_here(
    frame: &Frame<'_>,
    env: &Env<'_>,
    signature: &Signature,
) -> Result<Option<Signed>, NoMemory>
    ensures { IfOk result (Gives (OfSignature (env_of env.now) (out-Signature signature.now).parameters (out-Signature signature.now).result)) }
{
    let context = Context::new(env, frame.error);
    found(signature_of(&context, frame.alloc, signature))
}

// The statements of the block of a number.
fn block_at<'a>(blocks: &Blocks<'a>, at: usize) -> &'a List<Stmt>
    requires { at < length blocks.now.list.now }
    ensures { (l : b.LiteralBlock) → l ≡ get_or blocks.now.list.now at l → result.now ≡ l.block }
{
    let list = blocks.list;
    let block = &list[at];
    &block.block
}

impl<'a, F: Fn(&mut Env<'_>, &Frame<'_>, usize, Inner<'_>) -> Result<Option<u32>, NoMemory>> Walk<
    'a,
    F,
> {
    // The statements of a function in the scope that was opened for it.
    fn entered(
        &self,
        env: &mut Env<'_>,
        signature: &Signature,
        signed: &Signed,
        start: u32,
        statements: &List<Stmt>,
    ) -> Result<Judged, NoMemory>
        requires below { RunsBelow self.now.height (F.pre self.now.below) (F.post self.now.below) }
        requires opened { env.old.opened ≢ [] }
        ensures kept { Kept env.old env.new }
        ensures judged { IfOk result (λ j. (E : Around) (s : Scopes) → IsAt E (opened s) env.old → Judges E (blocks_of self.now.frame.now) (IsTypedIn E (blocks_of self.now.frame.now) (opened s) signature.now signed.now start statements.now) (Enters (opened s) signature.now signed.now start statements.now) j) }
    {
        let declared = declare_signature(env, self.frame.alloc, signature, signed)?;
        if !declared {
            return Ok(Judged::tested(false));
        }
        let inner = self.frame.inner(signed.results.items(), start);
        let place = self.run(env, &inner, Inner::All(statements))?;
        Ok(Judged::found(place))
    }

    // The statements of a function inside of the scopes.
    fn function(
        &self,
        env: &mut Env<'_>,
        signature: &Signature,
        signed: &Signed,
        start: u32,
        statements: &List<Stmt>,
    ) -> Result<Judged, NoMemory>
        requires { RunsBelow self.now.height (F.pre self.now.below) (F.post self.now.below) }
        ensures same { env.new ≡ env.old }
        ensures judged { IfOk result (λ j. (E : Around) (s : Scopes) → IsAt E s env.old → Judges E (blocks_of self.now.frame.now) (IsTypedIn E (blocks_of self.now.frame.now) (opened s) signature.now signed.now start statements.now) (Enters (opened s) signature.now signed.now start statements.now) j) }
    {
        env.open_scope()?;
        let judged = self.entered(env, signature, signed, start, statements);
        env.close_scope();
        judged
    }

    /// A function literal: whether its block is typed, and its untyped place.
    pub(crate) fn literal(
        &self,
        env: &mut Env<'_>,
        literal: Literal<'_>,
    ) -> Result<Judged, NoMemory>
        requires { RunsBelow self.now.height (F.pre self.now.below) (F.post self.now.below) }
        ensures same { env.new ≡ env.old }
        ensures judged { IfOk result (λ j. (E : Around) (s : Scopes) → IsAt E s env.old → Judges E (blocks_of self.now.frame.now) (IsTypedFunction E (blocks_of self.now.frame.now) (enclosing_of self.now.frame.now) s literal.entry.signature.now literal.entry.body.now) (EntersFunction E (blocks_of self.now.frame.now) (enclosing_of self.now.frame.now) s literal.entry.signature.now literal.entry.body.now) j) }
    {
        let none = Judged::tested(false);
        let start = literal.body.start;
        let early = (start as u64) < self.frame.first;
        if early {
            return Ok(none);
        }
        let given = signature_here(self.frame, env, literal.signature)?;
        let signed = match given {
            Some(signed) => signed,
            None => return Ok(none),
        };
        let place = self.frame.blocks.find(start);
        let at = match place {
            Some(at) => at,
            None => return Ok(none),
        };
        let statements = block_at(self.frame.blocks, at);
        self.function(env, literal.signature, &signed, start, statements)
    }
}
