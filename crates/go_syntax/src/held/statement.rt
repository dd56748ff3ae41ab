//! Statements and their parts in the making.
ghost use Rattle.std.specs.Prelude.{◌≡◌, ◌++◌, ◌∷◌, [], None, Some, IfOk, OnErr, OnOk, length};

use crate::held::whole::Whole;
use crate::statement::{Case, LiteralBlock, SelectCase, Stmt, TypeCase};
use go_base::boxed::Box;
use go_base::list::List;
use go_base::memory::NoMemory;
use std::alloc::Global;
use std::marker::Model;

/// A statement in the making.
pub struct HeldStmt {
    tree: Whole<Stmt>,
}

impl Drop for HeldStmt {
    fn drop(self) {
        let HeldStmt { tree: _ } = self;
    }
}

impl Model for HeldStmt {
    ghost use Rattle.go_syntax.specs.declared.statement.Stmt.{Stmt};
    ghost use Rattle.go_syntax.specs.contracts.statement.Stmt as t;
    ghost use Rattle.std.specs.Coded.{codes};

    ghost Value = { Stmt };

    ghost coded = { Prim.hlevel (codes, t.the_row.coded) };

    ghost view = { λ h. h.tree };
}

impl HeldStmt {
    /// Holds this tree.
    pub fn new(tree: Stmt) -> HeldStmt
        ensures { result ≡ tree }
    {
        HeldStmt {
            tree: Whole::new(tree),
        }
    }

    /// The tree, moved out.
    pub fn take(self) -> Stmt
        ensures { result ≡ self }
    {
        let HeldStmt { tree } = self;
        tree.take()
    }
}

/// A statement that is a part of another in the making, where there is one: in its header, or after `else`.
pub struct HeldOptionalStmt {
    tree: Whole<Option<Box<Stmt>>>,
}

impl Drop for HeldOptionalStmt {
    fn drop(self) {
        let HeldOptionalStmt { tree: _ } = self;
    }
}

impl Model for HeldOptionalStmt {
    ghost use Rattle.go_syntax.specs.declared.statement.Stmt.{Stmt};
    ghost use Rattle.go_syntax.specs.contracts.statement.Stmt as t;
    ghost use Rattle.std.specs.Coded.{codes, coded_option};
    ghost use Rattle.std.specs.Prelude.{Option};

    ghost Value = { Option Stmt };

    ghost coded = { coded_option (Prim.hlevel (codes, t.the_row.coded)) };

    ghost view = { λ h. h.tree };
}

impl HeldOptionalStmt {
    /// No statement.
    pub fn none() -> HeldOptionalStmt
        ensures { result ≡ None }
    {
        HeldOptionalStmt {
            tree: Whole::new(None),
        }
    }

    /// Holds this tree. One that found no room is given up.
    pub fn new(alloc: Global, tree: Stmt) -> Result<HeldOptionalStmt, NoMemory>
        ensures { IfOk result (λ held. held ≡ Some tree) }
    {
        Ok(HeldOptionalStmt {
            tree: Whole::new(Some(Box::new(alloc, tree)?)),
        })
    }

    /// The tree, moved out.
    pub fn take(self) -> Option<Box<Stmt>>
        ensures { result ≡ self }
    {
        let HeldOptionalStmt { tree } = self;
        tree.take()
    }
}

/// Statements in the making, as those of a block.
pub struct HeldStmts {
    trees: List<Stmt>,
}

impl Drop for HeldStmts {
    fn drop(self) {
        let HeldStmts { trees: _ } = self;
    }
}

impl Model for HeldStmts {
    ghost use Rattle.go_syntax.specs.declared.statement.Stmt.{Stmt};
    ghost use Rattle.go_syntax.specs.contracts.statement.Stmt as t;
    ghost use Rattle.std.specs.Coded.{codes, coded_list};
    ghost use Rattle.std.specs.Prelude.{List as Sequence};

    ghost Value = { Sequence Stmt };

    ghost coded = { coded_list (Prim.hlevel (codes, t.the_row.coded)) };

    ghost view = { λ h. h.trees };
}

impl HeldStmts {
    /// No tree.
    pub fn new(alloc: Global) -> HeldStmts
        ensures { result ≡ [] }
    {
        HeldStmts {
            trees: List::new(alloc),
        }
    }

    /// How many trees there are.
    pub fn len(&self) -> usize
        ensures { result ≡ length self.now }
    {
        self.trees.items().len()
    }

    /// Appends a tree. One that found no room is given up.
    pub fn push(&mut self, tree: Stmt) -> Result<(), NoMemory>
        ensures ok { OnOk result (self.new ≡ self.old ++ tree ∷ []) }
        ensures err { OnErr result (self.new ≡ self.old) }
    {
        self.trees.push(tree)
    }

    /// The trees, moved out.
    pub fn take(self) -> List<Stmt>
        ensures { result ≡ self }
    {
        let HeldStmts { trees } = self;
        trees
    }
}

/// Clauses of a `switch` in the making.
pub struct HeldCases {
    trees: List<Case>,
}

impl Drop for HeldCases {
    fn drop(self) {
        let HeldCases { trees: _ } = self;
    }
}

impl Model for HeldCases {
    ghost use Rattle.go_syntax.specs.declared.statement.Case.{Case};
    ghost use Rattle.go_syntax.specs.contracts.statement.Case as t;
    ghost use Rattle.std.specs.Coded.{codes, coded_list};
    ghost use Rattle.std.specs.Prelude.{List as Sequence};

    ghost Value = { Sequence Case };

    ghost coded = { coded_list (Prim.hlevel (codes, t.the_row.coded)) };

    ghost view = { λ h. h.trees };
}

impl HeldCases {
    /// No tree.
    pub fn new(alloc: Global) -> HeldCases
        ensures { result ≡ [] }
    {
        HeldCases {
            trees: List::new(alloc),
        }
    }

    /// How many trees there are.
    pub fn len(&self) -> usize
        ensures { result ≡ length self.now }
    {
        self.trees.items().len()
    }

    /// Appends a tree. One that found no room is given up.
    pub fn push(&mut self, tree: Case) -> Result<(), NoMemory>
        ensures ok { OnOk result (self.new ≡ self.old ++ tree ∷ []) }
        ensures err { OnErr result (self.new ≡ self.old) }
    {
        self.trees.push(tree)
    }

    /// The trees, moved out.
    pub fn take(self) -> List<Case>
        ensures { result ≡ self }
    {
        let HeldCases { trees } = self;
        trees
    }
}

/// Clauses of a type switch in the making.
pub struct HeldTypeCases {
    trees: List<TypeCase>,
}

impl Drop for HeldTypeCases {
    fn drop(self) {
        let HeldTypeCases { trees: _ } = self;
    }
}

impl Model for HeldTypeCases {
    ghost use Rattle.go_syntax.specs.declared.statement.TypeCase.{TypeCase};
    ghost use Rattle.go_syntax.specs.contracts.statement.TypeCase as t;
    ghost use Rattle.std.specs.Coded.{codes, coded_list};
    ghost use Rattle.std.specs.Prelude.{List as Sequence};

    ghost Value = { Sequence TypeCase };

    ghost coded = { coded_list (Prim.hlevel (codes, t.the_row.coded)) };

    ghost view = { λ h. h.trees };
}

impl HeldTypeCases {
    /// No tree.
    pub fn new(alloc: Global) -> HeldTypeCases
        ensures { result ≡ [] }
    {
        HeldTypeCases {
            trees: List::new(alloc),
        }
    }

    /// How many trees there are.
    pub fn len(&self) -> usize
        ensures { result ≡ length self.now }
    {
        self.trees.items().len()
    }

    /// Appends a tree. One that found no room is given up.
    pub fn push(&mut self, tree: TypeCase) -> Result<(), NoMemory>
        ensures ok { OnOk result (self.new ≡ self.old ++ tree ∷ []) }
        ensures err { OnErr result (self.new ≡ self.old) }
    {
        self.trees.push(tree)
    }

    /// The trees, moved out.
    pub fn take(self) -> List<TypeCase>
        ensures { result ≡ self }
    {
        let HeldTypeCases { trees } = self;
        trees
    }
}

/// Clauses of a `select` in the making.
pub struct HeldSelectCases {
    trees: List<SelectCase>,
}

impl Drop for HeldSelectCases {
    fn drop(self) {
        let HeldSelectCases { trees: _ } = self;
    }
}

impl Model for HeldSelectCases {
    ghost use Rattle.go_syntax.specs.declared.statement.SelectCase.{SelectCase};
    ghost use Rattle.go_syntax.specs.contracts.statement.SelectCase as t;
    ghost use Rattle.std.specs.Coded.{codes, coded_list};
    ghost use Rattle.std.specs.Prelude.{List as Sequence};

    ghost Value = { Sequence SelectCase };

    ghost coded = { coded_list (Prim.hlevel (codes, t.the_row.coded)) };

    ghost view = { λ h. h.trees };
}

impl HeldSelectCases {
    /// No tree.
    pub fn new(alloc: Global) -> HeldSelectCases
        ensures { result ≡ [] }
    {
        HeldSelectCases {
            trees: List::new(alloc),
        }
    }

    /// How many trees there are.
    pub fn len(&self) -> usize
        ensures { result ≡ length self.now }
    {
        self.trees.items().len()
    }

    /// Appends a tree. One that found no room is given up.
    pub fn push(&mut self, tree: SelectCase) -> Result<(), NoMemory>
        ensures ok { OnOk result (self.new ≡ self.old ++ tree ∷ []) }
        ensures err { OnErr result (self.new ≡ self.old) }
    {
        self.trees.push(tree)
    }

    /// The trees, moved out.
    pub fn take(self) -> List<SelectCase>
        ensures { result ≡ self }
    {
        let HeldSelectCases { trees } = self;
        trees
    }
}

/// Blocks of function literals in the making.
pub struct HeldLiteralBlocks {
    trees: List<LiteralBlock>,
}

impl Drop for HeldLiteralBlocks {
    fn drop(self) {
        let HeldLiteralBlocks { trees: _ } = self;
    }
}

impl Model for HeldLiteralBlocks {
    ghost use Rattle.go_syntax.specs.declared.statement.LiteralBlock.{LiteralBlock};
    ghost use Rattle.go_syntax.specs.contracts.statement.LiteralBlock as t;
    ghost use Rattle.std.specs.Coded.{codes, coded_list};
    ghost use Rattle.std.specs.Prelude.{List as Sequence};

    ghost Value = { Sequence LiteralBlock };

    ghost coded = { coded_list (Prim.hlevel (codes, t.the_row.coded)) };

    ghost view = { λ h. h.trees };
}

impl HeldLiteralBlocks {
    /// No tree.
    pub fn new(alloc: Global) -> HeldLiteralBlocks
        ensures { result ≡ [] }
    {
        HeldLiteralBlocks {
            trees: List::new(alloc),
        }
    }

    /// How many trees there are.
    pub fn len(&self) -> usize
        ensures { result ≡ length self.now }
    {
        self.trees.items().len()
    }

    /// Appends a tree. One that found no room is given up.
    pub fn push(&mut self, tree: LiteralBlock) -> Result<(), NoMemory>
        ensures ok { OnOk result (self.new ≡ self.old ++ tree ∷ []) }
        ensures err { OnErr result (self.new ≡ self.old) }
    {
        self.trees.push(tree)
    }

    /// The trees, moved out.
    pub fn take(self) -> List<LiteralBlock>
        ensures { result ≡ self }
    {
        let HeldLiteralBlocks { trees } = self;
        trees
    }
}

/// A box of a statement. One that found no room is given up.
pub fn boxed_stmt(alloc: Global, tree: Stmt) -> Result<Box<Stmt>, NoMemory>
    ensures { IfOk result (λ b. b ≡ tree) }
{
    Box::new(alloc, tree)
}
