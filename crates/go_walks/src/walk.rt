//! The typing of statements, over that of those inside of them.
ghost use Rattle.std.specs.Prelude.{◌≢◌, []};
ghost use Rattle.go_local_scopes.specs.States.{Kept};
ghost use Rattle.go_walks.specs.Below.{Runs, RunsBelow};
ghost use Rattle.go_walks.specs.Inners.{statements_in};

use crate::frame::Frame;
use crate::inner::Inner;
use go_base::memory::NoMemory;
use go_rules::env::Env;

/// What types statements of a function, over what types those inside of them, to this depth.
#[derive(Clone, Copy)]
pub struct Walk<'a, F> {
    pub frame: &'a Frame<'a>,
    pub height: usize,
    pub below: F,
}

impl<'a, F: Fn(&mut Env<'_>, &Frame<'_>, usize, Inner<'_>) -> Result<Option<u32>, NoMemory>> Walk<
    'a,
    F,
> {
    /// The untyped place of statements of a function in the scopes of an environment, whose innermost one gets what they declare; None
    /// where they are typed.
    pub fn run(
        &self,
        env: &mut Env<'_>,
        frame: &Frame<'_>,
        inner: Inner<'_>,
    ) -> Result<Option<u32>, NoMemory>
        requires below { RunsBelow self.now.height (F.pre self.now.below) (F.post self.now.below) }
        requires opened { env.old.opened ≢ [] }
        ensures kept { Kept env.old env.new }
        ensures runs { Runs frame.now env.old (statements_in inner.entry) result env.new }
    {
        (self.below)(env, frame, self.height, inner)
    }
}
