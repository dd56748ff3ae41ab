//! The readers of expressions and types that are parts of a statement.
ghost use Rattle.std.specs.Prelude.{◌≡◌, ◌≤◌, suc};

use go_stmt_descent::go_exprs::readers::Readers;

/// The readers of expressions and types that are parts of a statement.
#[derive(Clone, Copy)]
pub struct Lower {
    pub readers: Readers,
    ghost bounded: { readers.height ≤ 256 },
}

impl Lower {
    /// The readers of trees that are one higher.
    pub fn whole(&self) -> Readers
        ensures { result.height ≡ suc self.now.readers.height }
    {
        Readers {
            alloc: self.readers.alloc,
            height: self.readers.height + 1,
        }
    }
}
