//! The law of the loads: over one store their answers agree.
ghost use Rattle.std.specs.Prelude.{Result};
ghost use Rattle.go_model.specs.declared.files.tree.Tree.{Tree};
ghost use Rattle.go_outside.specs.Paths.{Path};
ghost use Rattle.go_outside.specs.Stores.{Contents};
ghost use Rattle.go_load.specs.Answers.{Agree};
ghost use Rattle.go_load.specs.Loads.{LoadsFiles, LoadsModule};
ghost use Rattle.go_load.specs.declared.error.LoadError.{LoadError};
ghost use Rattle.go_load.specs.declared.kind.TreeKind.{TreeKind};

/// Over one store the answers of a load agree, but for a fault and want of memory. So each other
/// answer comes exactly where its own condition holds.
pub fn one_answer()
    ensures module_answer { (m : Contents) (root : Path) (r s : Result Tree LoadError) → LoadsModule m root r → LoadsModule m root s → Agree r s }
    ensures files_answer { (m : Contents) (tree : TreeKind) (root : Path) (r s : Result Tree LoadError) → LoadsFiles m tree root r → LoadsFiles m tree root s → Agree r s }
{}
