//! Declarations in the making.
ghost use Rattle.std.specs.Prelude.{◌≡◌, ◌++◌, ◌∷◌, [], IfOk, OnErr, OnOk, length};

use crate::declaration::{ConstSpec, Decl, Func, TypeSpec, VarSpec};
use crate::held::whole::Whole;
use go_base::boxed::Box;
use go_base::list::List;
use go_base::memory::NoMemory;
use std::alloc::Global;
use std::marker::Model;

/// Constants of a group in the making.
pub struct HeldConstSpecs {
    trees: List<ConstSpec>,
}

impl Drop for HeldConstSpecs {
    fn drop(self) {
        let HeldConstSpecs { trees: _ } = self;
    }
}

impl Model for HeldConstSpecs {
    ghost use Rattle.go_syntax.specs.declared.declaration.ConstSpec.{ConstSpec};
    ghost use Rattle.go_syntax.specs.contracts.declaration.ConstSpec as t;
    ghost use Rattle.std.specs.Coded.{codes, coded_list};
    ghost use Rattle.std.specs.Prelude.{List as Sequence};

    ghost Value = { Sequence ConstSpec };

    ghost coded = { coded_list (Prim.hlevel (codes, t.the_row.coded)) };

    ghost view = { λ h. h.trees };
}

impl HeldConstSpecs {
    /// No tree.
    pub fn new(alloc: Global) -> HeldConstSpecs
        ensures { result ≡ [] }
    {
        HeldConstSpecs {
            trees: List::new(alloc),
        }
    }

    /// How many trees there are.
    pub fn len(&self) -> usize
        ensures { result ≡ length self.now }
    {
        self.trees.items().len()
    }

    /// Appends a tree. One that found no room is given up.
    pub fn push(&mut self, tree: ConstSpec) -> Result<(), NoMemory>
        ensures ok { OnOk result (self.new ≡ self.old ++ tree ∷ []) }
        ensures err { OnErr result (self.new ≡ self.old) }
    {
        self.trees.push(tree)
    }

    /// The trees, moved out.
    pub fn take(self) -> List<ConstSpec>
        ensures { result ≡ self }
    {
        let HeldConstSpecs { trees } = self;
        trees
    }
}

/// Variables of a group in the making.
pub struct HeldVarSpecs {
    trees: List<VarSpec>,
}

impl Drop for HeldVarSpecs {
    fn drop(self) {
        let HeldVarSpecs { trees: _ } = self;
    }
}

impl Model for HeldVarSpecs {
    ghost use Rattle.go_syntax.specs.declared.declaration.VarSpec.{VarSpec};
    ghost use Rattle.go_syntax.specs.contracts.declaration.VarSpec as t;
    ghost use Rattle.std.specs.Coded.{codes, coded_list};
    ghost use Rattle.std.specs.Prelude.{List as Sequence};

    ghost Value = { Sequence VarSpec };

    ghost coded = { coded_list (Prim.hlevel (codes, t.the_row.coded)) };

    ghost view = { λ h. h.trees };
}

impl HeldVarSpecs {
    /// No tree.
    pub fn new(alloc: Global) -> HeldVarSpecs
        ensures { result ≡ [] }
    {
        HeldVarSpecs {
            trees: List::new(alloc),
        }
    }

    /// How many trees there are.
    pub fn len(&self) -> usize
        ensures { result ≡ length self.now }
    {
        self.trees.items().len()
    }

    /// Appends a tree. One that found no room is given up.
    pub fn push(&mut self, tree: VarSpec) -> Result<(), NoMemory>
        ensures ok { OnOk result (self.new ≡ self.old ++ tree ∷ []) }
        ensures err { OnErr result (self.new ≡ self.old) }
    {
        self.trees.push(tree)
    }

    /// The trees, moved out.
    pub fn take(self) -> List<VarSpec>
        ensures { result ≡ self }
    {
        let HeldVarSpecs { trees } = self;
        trees
    }
}

/// Type declarations of a group in the making.
pub struct HeldTypeSpecs {
    trees: List<TypeSpec>,
}

impl Drop for HeldTypeSpecs {
    fn drop(self) {
        let HeldTypeSpecs { trees: _ } = self;
    }
}

impl Model for HeldTypeSpecs {
    ghost use Rattle.go_syntax.specs.declared.declaration.TypeSpec.{TypeSpec};
    ghost use Rattle.go_syntax.specs.contracts.declaration.TypeSpec as t;
    ghost use Rattle.std.specs.Coded.{codes, coded_list};
    ghost use Rattle.std.specs.Prelude.{List as Sequence};

    ghost Value = { Sequence TypeSpec };

    ghost coded = { coded_list (Prim.hlevel (codes, t.the_row.coded)) };

    ghost view = { λ h. h.trees };
}

impl HeldTypeSpecs {
    /// No tree.
    pub fn new(alloc: Global) -> HeldTypeSpecs
        ensures { result ≡ [] }
    {
        HeldTypeSpecs {
            trees: List::new(alloc),
        }
    }

    /// How many trees there are.
    pub fn len(&self) -> usize
        ensures { result ≡ length self.now }
    {
        self.trees.items().len()
    }

    /// Appends a tree. One that found no room is given up.
    pub fn push(&mut self, tree: TypeSpec) -> Result<(), NoMemory>
        ensures ok { OnOk result (self.new ≡ self.old ++ tree ∷ []) }
        ensures err { OnErr result (self.new ≡ self.old) }
    {
        self.trees.push(tree)
    }

    /// The trees, moved out.
    pub fn take(self) -> List<TypeSpec>
        ensures { result ≡ self }
    {
        let HeldTypeSpecs { trees } = self;
        trees
    }
}

/// A declaration at package level in the making.
pub struct HeldDecl {
    tree: Whole<Decl>,
}

impl Drop for HeldDecl {
    fn drop(self) {
        let HeldDecl { tree: _ } = self;
    }
}

impl Model for HeldDecl {
    ghost use Rattle.go_syntax.specs.declared.declaration.Decl.{Decl};
    ghost use Rattle.go_syntax.specs.contracts.declaration.Decl as t;
    ghost use Rattle.std.specs.Coded.{codes};

    ghost Value = { Decl };

    ghost coded = { Prim.hlevel (codes, t.the_row.coded) };

    ghost view = { λ h. h.tree };
}

impl HeldDecl {
    /// Holds this tree.
    pub fn new(tree: Decl) -> HeldDecl
        ensures { result ≡ tree }
    {
        HeldDecl {
            tree: Whole::new(tree),
        }
    }

    /// The tree, moved out.
    pub fn take(self) -> Decl
        ensures { result ≡ self }
    {
        let HeldDecl { tree } = self;
        tree.take()
    }
}

/// Declarations at package level in the making.
pub struct HeldDecls {
    trees: List<Decl>,
}

impl Drop for HeldDecls {
    fn drop(self) {
        let HeldDecls { trees: _ } = self;
    }
}

impl Model for HeldDecls {
    ghost use Rattle.go_syntax.specs.declared.declaration.Decl.{Decl};
    ghost use Rattle.go_syntax.specs.contracts.declaration.Decl as t;
    ghost use Rattle.std.specs.Coded.{codes, coded_list};
    ghost use Rattle.std.specs.Prelude.{List as Sequence};

    ghost Value = { Sequence Decl };

    ghost coded = { coded_list (Prim.hlevel (codes, t.the_row.coded)) };

    ghost view = { λ h. h.trees };
}

impl HeldDecls {
    /// No tree.
    pub fn new(alloc: Global) -> HeldDecls
        ensures { result ≡ [] }
    {
        HeldDecls {
            trees: List::new(alloc),
        }
    }

    /// How many trees there are.
    pub fn len(&self) -> usize
        ensures { result ≡ length self.now }
    {
        self.trees.items().len()
    }

    /// Appends a tree. One that found no room is given up.
    pub fn push(&mut self, tree: Decl) -> Result<(), NoMemory>
        ensures ok { OnOk result (self.new ≡ self.old ++ tree ∷ []) }
        ensures err { OnErr result (self.new ≡ self.old) }
    {
        self.trees.push(tree)
    }

    /// The trees, moved out.
    pub fn take(self) -> List<Decl>
        ensures { result ≡ self }
    {
        let HeldDecls { trees } = self;
        trees
    }
}

/// A box of a function. One that found no room is given up.
pub fn boxed_func(alloc: Global, tree: Func) -> Result<Box<Func>, NoMemory>
    ensures { IfOk result (λ b. b ≡ tree) }
{
    Box::new(alloc, tree)
}
