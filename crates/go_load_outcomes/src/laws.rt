//! Laws of the loads of trees.
ghost use Rattle.std.specs.Prelude.{IfOk, List, ℕ, Result};
ghost use Rattle.go_existence.specs.Existence.{NotNone};
ghost use Rattle.go_load.specs.Answers.{IsFree};
ghost use Rattle.go_load.specs.Loads.{LoadsFiles, LoadsModule};
ghost use Rattle.go_load.specs.declared.error.LoadError.{LoadError};
ghost use Rattle.go_load.specs.declared.kind.TreeKind.{TreeKind};
ghost use Rattle.go_model.specs.declared.files.tree.Tree.{Tree};
ghost use Rattle.go_model.specs.files.Trees.{IsModulePath, IsTree};
ghost use Rattle.go_outside.specs.Stores.{Contents};

/// Whatever a store tells, the load of a module has an answer that is neither a fault nor want of memory; and so has that of a tree
/// without a module. What is loaded is a tree.
pub fn load_ends()
    ensures of_module { (m : Contents) (root : List ℕ) → NotNone ((r : Result Tree LoadError) × LoadsModule m root r × (IsFree r → ⊥) × IfOk r (λ t. IsTree t × IsModulePath t.module)) }
    ensures of_files { (m : Contents) (kind : TreeKind) (root : List ℕ) → NotNone ((r : Result Tree LoadError) × LoadsFiles m kind root r × (IsFree r → ⊥) × IfOk r IsTree) }
{}
