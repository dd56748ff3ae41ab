//! Laws of what is asked in trees.
ghost use Rattle.go_base.specs.Lists.{Each};
ghost use Rattle.go_nodes.specs.Here.{MeetsHere};
ghost use Rattle.go_rules.specs.Asks.{Meets};
ghost use Rattle.go_rules.specs.Environments.{Env};
ghost use Rattle.go_rules.specs.Nodes.{Node, parts};

/// All that is asked in a tree is met exactly where what the tree is asked by itself is met, and all that is
/// asked in each of its parts.
pub fn asked_by_parts()
    ensures here { (E : Env) (a : Node) → Meets E a → MeetsHere E a }
    ensures apart { (E : Env) (a : Node) → Meets E a → Each (Meets E) (parts a) }
    ensures together { (E : Env) (a : Node) → MeetsHere E a → Each (Meets E) (parts a) → Meets E a }
{}
