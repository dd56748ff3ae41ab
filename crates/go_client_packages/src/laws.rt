//! Laws of a client's declarations in two settings, of which the new one keeps what the old one gives.
ghost use Rattle.std.specs.Prelude.{ℕ, List, Bool};
ghost use Rattle.go_base.specs.Lists.{Each};
ghost use Rattle.go_model.specs.declared.types.names.Sel.{Sel};
ghost use Rattle.go_model.specs.declared.types.names.TypeName.{TypeName};
ghost use Rattle.go_rules.specs.Asks.{Meets};
ghost use Rattle.go_type_images.specs.Images.{Naming};
ghost use Rattle.go_type_images.specs.declared.pair.TypePair.{TypePair};
ghost use Rattle.go_typings.specs.Assignments.{Below, Within};
ghost use Rattle.go_typings.specs.DeclarationAsks.{Asks};
ghost use Rattle.go_typings.specs.DeclarationNodes.{nodes};
ghost use Rattle.go_typings.specs.DeclarationRules.{Gives};
ghost use Rattle.go_typings.specs.Declarations.{Declaration, declarations};
ghost use Rattle.go_typings.specs.PackageEnvironments.{Entries, Entry, environment};
ghost use Rattle.go_typings.specs.References.{Falls};
ghost use Rattle.go_typings.specs.Sources.{PackageSource, Setting};
ghost use Rattle.go_typings.specs.Typings.{IsTyping, Typing, given};
ghost use Rattle.go_client_types.specs.Keeping.{Keeps};
ghost use Rattle.go_client_packages.specs.ClientEntries.{DefinesNone, EntriesReached, EntryReached, entries_image, entry_image};
ghost use Rattle.go_client_packages.specs.ClientSettings.{KeepsSettings};
ghost use Rattle.go_client_typings.specs.Clients.{Blocks, IsTypedClient};

/// Over packages that keep what a client is given, the environment of each of its declarations keeps the old one, where the entries have
/// their images. A declaration that defines no type is given the image of its entry there, and is asked what it was; and ranks fall along
/// the references that have to be settled first.
pub fn kept_declarations()
    ensures environment { (s t : Setting) (u : PackageSource) (r : Naming) (pairs : List TypePair) (std : TypeName → Bool) (is_open : Sel → Bool) → KeepsSettings s t u r pairs std is_open → (a : Entries) → EntriesReached pairs std is_open a
        → (d : Declaration) → Keeps (environment s u a d) (environment t u (entries_image r a) d) r pairs std is_open }
    ensures gives { (s t : Setting) (u : PackageSource) (r : Naming) (pairs : List TypePair) (std : TypeName → Bool) (is_open : Sel → Bool) → KeepsSettings s t u r pairs std is_open → (a b : Entries) → EntriesReached pairs std is_open a → Within a b
        → (d : Declaration) (x : Entry) → DefinesNone d.form → Each (Meets (environment s u b d)) (nodes d.form) → Gives (environment s u a d) (declarations u) d.form x
        → Gives (environment t u (entries_image r a) d) (declarations u) d.form (entry_image r x) × EntryReached pairs std is_open x }
    ensures asks { (s t : Setting) (u : PackageSource) (r : Naming) (pairs : List TypePair) (std : TypeName → Bool) (is_open : Sel → Bool) → KeepsSettings s t u r pairs std is_open → (a : Entries) → EntriesReached pairs std is_open a
        → (d : Declaration) (n : ℕ) → Asks (environment s u a d) u n d.form → Asks (environment t u (entries_image r a) d) u n d.form }
    ensures falls { (s t : Setting) (u : PackageSource) (r : Naming) (pairs : List TypePair) (std : TypeName → Bool) (is_open : Sel → Bool) → KeepsSettings s t u r pairs std is_open → (a : Entries) → EntriesReached pairs std is_open a
        → (within : ℕ → Bool) → Typing s u within a → (rank : ℕ → ℕ) → Falls s u a within rank → Falls t u (entries_image r a) within rank }
{}

/// Over such packages the entries of a client's typing are of types that it reaches, and their images are had from below: each is given under
/// the images of those before it, also where a type is defined by the name of another one, since no aliases of the client lead from that to
/// a struct or interface of another package.
pub fn kept_entries()
    ensures reached { (s t : Setting) (u : PackageSource) (r : Naming) (pairs : List TypePair) (std : TypeName → Bool) (is_open : Sel → Bool) → KeepsSettings s t u r pairs std is_open → (within : ℕ → Bool) (a : Entries) → Typing s u within a → EntriesReached pairs std is_open a }
    ensures had { (s t : Setting) (u : PackageSource) (r : Naming) (pairs : List TypePair) (std : TypeName → Bool) (is_open : Sel → Bool) → KeepsSettings s t u r pairs std is_open → (within : ℕ → Bool) (a : Entries) → Typing s u within a
        → Below (given t u) (declarations u) within (entries_image r a) }
{}

/// Over such packages a client's package that is typed on the old side is typed on the new one, by the images of its entries.
pub fn kept_typings()
    ensures { (s t : Setting) (u : PackageSource) (r : Naming) (pairs : List TypePair) (std : TypeName → Bool) (is_open : Sel → Bool) → KeepsSettings s t u r pairs std is_open → (a : Entries) → IsTyping s u a → IsTyping t u (entries_image r a) }
{}

/// Over such packages a client's package that is typed with its bodies on the old side is so on the new one.
pub fn kept_clients()
    ensures { (s t : Setting) (u : PackageSource) (r : Naming) (pairs : List TypePair) (std : TypeName → Bool) (is_open : Sel → Bool) → KeepsSettings s t u r pairs std is_open → (blocks : Blocks) → IsTypedClient s u blocks → IsTypedClient t u blocks }
{}
