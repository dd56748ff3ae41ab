//! Laws of typed clients, and of what is told of them.
ghost use Rattle.std.specs.Prelude.{◌≡◌, ℕ, List};
ghost use Rattle.go_client_typings.specs.Bodies.{AreTypedBodies, HasUntyped};
ghost use Rattle.go_client_typings.specs.Clients.{Blocks, IsTypedClient, IsUntypedClient, IsVetted, without_flag};
ghost use Rattle.go_client_typings.specs.declared.vetted.Vetted.{Vetted};
ghost use Rattle.go_model.specs.worlds.Worlds.{Packages};
ghost use Rattle.go_rules.specs.Environments.{Env};
ghost use Rattle.go_rules.specs.Growth.{Grows};
ghost use Rattle.go_syntax.specs.declared.name.Place.{Place};
ghost use Rattle.go_syntax.specs.declared.statement.LiteralBlock.{LiteralBlock};
ghost use Rattle.go_typings.specs.Declarations.{Form};
ghost use Rattle.go_typings.specs.Sources.{PackageSource, Setting};

/// One thing is told of a client.
pub fn one_answer()
    ensures { (world : Packages) (bits : ℕ) (u : PackageSource) (blocks : Blocks) (v w : Vetted) → IsVetted world bits u blocks v → IsVetted world bits u blocks w → v ≡ w }
{}

/// A client that is typed in the profile is typed without its flag.
pub fn typed_without_flag()
    ensures { (s : Setting) (u : PackageSource) (blocks : Blocks) → IsTypedClient s u blocks → IsTypedClient (without_flag s) u blocks }
{}

/// A client is typed, or isn't at one place.
pub fn one_place()
    ensures one { (s : Setting) (u : PackageSource) (blocks : Blocks) (p q : Place) → IsUntypedClient s u blocks p → IsUntypedClient s u blocks q → p ≡ q }
    ensures apart { (s : Setting) (u : PackageSource) (blocks : Blocks) (p : Place) → IsTypedClient s u blocks → IsUntypedClient s u blocks p → ⊥ }
{}

/// What is typed in a declaration is so in an environment that has more; and where each of two environments has what the other has, the same isn't.
pub fn same_bodies()
    ensures typed { (E F : Env) (blocks : List LiteralBlock) (f : Form) → Grows E F → AreTypedBodies E blocks f → AreTypedBodies F blocks f }
    ensures untyped { (E F : Env) (blocks : List LiteralBlock) (f : Form) (p : ℕ) → Grows E F → Grows F E → HasUntyped E blocks f p → HasUntyped F blocks f p }
{}
