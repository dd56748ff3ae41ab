//! Whether a world may take a package.
ghost use Rattle.std.specs.Prelude.{◌≡◌, ◌≢◌, Bool, [], false, map, true};
ghost use Rattle.go_base.specs.Keys.{first_with, item_of};
ghost use Rattle.go_base.specs.Lists.{Each, Has};
ghost use Rattle.go_model.specs.declared.types.names.TypeName.{TypeName};
ghost use Rattle.go_model.specs.declared.types.term.Term.{Term-F, out-Term};
ghost use Rattle.go_model.specs.types.Members.{field_sel};
ghost use Rattle.go_model.specs.types.Terms.{client_path, is_error};
ghost use Rattle.go_model.specs.types.Underlying.{fields_of};
ghost use Rattle.go_model.specs.worlds.Worlds.{IsOwned, IsWorld, bars_methods, name_of, object_name, path_of, type_object, with_package};
ghost use Rattle.worlds.specs.inner.Admission.{DeclaredKept, DefinedKept, FieldKept, IsAdmitted, IsShaped, IsThere, MethodKept, ObjectKept, SignatureKept, TermKept, TypesKept, joint_paths};

use crate::order::{are_distinct, are_ordered, ascend, names_none};
use go_base::shared::Shared;
use go_base::text::Text;
use go_model::types::names::{Sel, TypeName};
use go_model::types::package::{ConstTerm, Defined, Entity, MethodOf, Object, Package};
use go_model::types::table::TypeTable;
use go_model::types::term::{Field, Method, Signature, Term};
use go_model::types::world::World;

/// A world, and a package whose path it hasn't.
#[derive(Clone, Copy)]
struct Admission<'a> {
    world: &'a World,
    added: &'a Package,
    ghost absent: { Has (map path_of world.now.packages) added.now.path → ⊥ },
}

fn named_defined<'a>(types: &'a [Defined], name: &[u8]) -> Option<&'a Defined>
    ensures { item_of result ≡ first_with name_of types.now name.now }
{
    for defined in types {
        if defined.name.bytes() == name {
            return Some(defined);
        }
    }
    None
}

fn is_error(name: &TypeName) -> bool
    ensures { result ≡ is_error name.now }
{
    name.path.bytes().is_empty() && name.name.bytes() == b"error".as_slice()
}

fn is_of(name: &TypeName, path: &Text) -> bool
    ensures same { result ≡ true → path.now ≡ name.now.path }
    ensures other { result ≡ false → path.now ≡ name.now.path → ⊥ }
{
    name.path == *path
}

// Names and selectors.
impl Admission<'_> {
    fn is_own(&self, name: &TypeName) -> bool
        requires { self.now.added.now.path ≡ name.now.path }
        ensures { result ≡ true → IsThere self.now.world.now self.now.added.now name.now }
    {
        match named_defined(self.added.defined.items(), name.name.bytes()) {
            Some(_) => true,
            None => false,
        }
    }

    fn is_of_world(&self, name: &TypeName) -> bool
        requires { self.now.added.now.path ≡ name.now.path → ⊥ }
        ensures { result ≡ true → IsThere self.now.world.now self.now.added.now name.now }
    {
        match self.world.defined(name) {
            Some(_) => true,
            None => false,
        }
    }

    #[tactic(auto, using(crate::proofs::Paths::error_there))]
    fn is_there(&self, name: &TypeName) -> bool
        ensures { result ≡ true → IsThere self.now.world.now self.now.added.now name.now }
    {
        if is_error(name) {
            return true;
        }
        if is_of(name, &self.added.path) {
            return self.is_own(name);
        }
        self.is_of_world(name)
    }

    fn is_owned(&self, sel: &Sel) -> bool
        ensures { result ≡ true → IsOwned (joint_paths self.now.world.now self.now.added.now) sel.now }
    {
        if sel.package.bytes().is_empty() {
            return true;
        }
        if sel.package == self.added.path {
            return true;
        }
        match self.world.package(sel.package.bytes()) {
            Some(_) => true,
            None => false,
        }
    }
}

// Types.
impl Admission<'_> {
    #[cycle(kept)]
    fn term(&self, term: &Term) -> bool
        ensures { result ≡ true → TermKept self.now.world.now self.now.added.now term.now }
    {
        match term {
            Term::Plain(_) => true,
            Term::Named(name) => self.is_there(name),
            Term::Pointer(base) => self.boxed(base),
            Term::Slice(element) => self.boxed(element),
            Term::Array(_, element) => self.boxed(element),
            Term::Map(key, element) => {
                if !self.boxed(key) {
                    return false;
                }
                self.boxed(element)
            }
            Term::Chan(_, element) => self.boxed(element),
            Term::Func(signature) => self.signature(signature),
            Term::Struct(fields) => {
                if !are_distinct(fields.items()) {
                    return false;
                }
                self.fields(fields.items())
            }
            Term::Interface(methods) => {
                if !are_ordered(methods.items()) {
                    return false;
                }
                self.methods(methods.items())
            }
        }
    }

    #[cycle(kept)]
    fn boxed(&self, term: &Shared<Term>) -> bool
        ensures { result ≡ true → TermKept self.now.world.now self.now.added.now term.now }
    {
        self.term(term.value())
    }

    #[cycle(kept)]
    fn terms(&self, terms: &[Term]) -> bool
        ensures { result ≡ true → Each (TermKept self.now.world.now self.now.added.now) terms.now }
    {
        for term in terms {
            if !self.term(term) {
                return false;
            }
        }
        true
    }

    #[cycle(kept)]
    fn signature(&self, signature: &Signature) -> bool
        ensures { result ≡ true → SignatureKept self.now.world.now self.now.added.now signature.now }
    {
        if !self.terms(signature.params.items()) {
            return false;
        }
        self.terms(signature.results.items())
    }

    #[cycle(kept)]
    fn field(&self, field: &Field) -> bool
        ensures { result ≡ true → FieldKept self.now.world.now self.now.added.now field.now }
    {
        if !self.is_owned(&field.sel) {
            return false;
        }
        self.term(&field.term)
    }

    #[cycle(kept)]
    fn fields(&self, fields: &[Field]) -> bool
        ensures { result ≡ true → Each (FieldKept self.now.world.now self.now.added.now) fields.now }
    {
        for field in fields {
            if !self.field(field) {
                return false;
            }
        }
        true
    }

    #[cycle(kept)]
    fn method(&self, method: &Method) -> bool
        ensures { result ≡ true → MethodKept self.now.world.now self.now.added.now method.now }
    {
        if !self.is_owned(&method.sel) {
            return false;
        }
        self.signature(&method.signature)
    }

    #[cycle(kept)]
    fn methods(&self, methods: &[Method]) -> bool
        ensures { result ≡ true → Each (MethodKept self.now.world.now self.now.added.now) methods.now }
    {
        for method in methods {
            if !self.method(method) {
                return false;
            }
        }
        true
    }
}

// Objects.
impl Admission<'_> {
    fn object(&self, object: &Object) -> bool
        ensures { result ≡ true → ObjectKept self.now.world.now self.now.added.now object.now }
    {
        match &object.entity {
            Entity::Const(ConstTerm::OfTerm(term), _) => self.term(term),
            Entity::Const(ConstTerm::OfKind(_), _) => true,
            Entity::Var(term) => self.term(term),
            Entity::Function(signature) => self.signature(signature),
            Entity::TypeOf(term) => self.term(term),
        }
    }

    fn objects(&self, objects: &[Object]) -> bool
        ensures { result ≡ true → Each (ObjectKept self.now.world.now self.now.added.now) objects.now }
    {
        for object in objects {
            if !self.object(object) {
                return false;
            }
        }
        true
    }
}

fn named_object<'a>(objects: &'a [Object], name: &[u8]) -> Option<&'a Object>
    ensures { item_of result ≡ first_with object_name objects.now name.now }
{
    for object in objects {
        if object.name.bytes() == name {
            return Some(object);
        }
    }
    None
}

fn is_type_name(name: &TypeName, path: &Text, word: &Text) -> bool
    ensures { result ≡ true → name.now ≡ record { path = path.now; name = word.now } }
{
    if name.path != *path {
        return false;
    }
    name.name == *word
}

fn is_type_object(object: &Object, path: &Text, name: &Text) -> bool
    ensures { result ≡ true → object.now ≡ type_object path.now name.now }
{
    if object.name != *name {
        return false;
    }
    match &object.entity {
        Entity::TypeOf(Term::Named(named)) => is_type_name(named, path, name),
        _ => false,
    }
}

fn has_type_object(objects: &[Object], path: &Text, name: &Text) -> bool
    ensures { result ≡ true → first_with object_name objects.now name.now ≡ Some (type_object path.now name.now) }
{
    match named_object(objects, name.bytes()) {
        Some(object) => is_type_object(object, path, name),
        None => false,
    }
}

fn is_structured(term: &Term) -> bool
    ensures { result ≡ true → (n : TypeName) → out-Term term.now ≢ Term-F.Named n }
{
    !matches!(term, Term::Named(_))
}

fn bars_methods(term: &Term) -> bool
    ensures { result ≡ bars_methods (out-Term term.now) }
{
    matches!(term, Term::Pointer(_) | Term::Interface(_))
}

fn fields(term: &Term) -> &[Field]
    ensures { result.now ≡ fields_of (out-Term term.now) }
{
    match term {
        Term::Struct(fields) => fields.items(),
        _ => &[],
    }
}

fn are_apart(methods: &[MethodOf], fields: &[Field]) -> bool
    ensures { result ≡ true → Each (λ m. Each (λ f. (field_sel f).name ≢ m.sel.name) fields.now) methods.now }
{
    for method in methods {
        if !names_none(&method.sel, fields) {
            return false;
        }
    }
    true
}

// Defined types.
impl Admission<'_> {
    fn declared(&self, method: &MethodOf) -> bool
        ensures { result ≡ true → DeclaredKept self.now.world.now self.now.added.now method.now }
    {
        if !self.is_owned(&method.sel) {
            return false;
        }
        self.signature(&method.signature)
    }

    fn declared_methods(&self, methods: &[MethodOf]) -> bool
        ensures { result ≡ true → Each (DeclaredKept self.now.world.now self.now.added.now) methods.now }
    {
        for method in methods {
            if !self.declared(method) {
                return false;
            }
        }
        true
    }

    fn is_kept(&self, defined: &Defined) -> bool
        ensures { result ≡ true → TypesKept self.now.world.now self.now.added.now defined.now }
    {
        if !self.term(&defined.underlying) {
            return false;
        }
        self.declared_methods(defined.methods.items())
    }

    fn is_defined(&self, defined: &Defined) -> bool
        ensures { result ≡ true → DefinedKept self.now.world.now self.now.added.now defined.now }
    {
        if !self.is_kept(defined) {
            return false;
        }
        if !is_shaped(defined) {
            return false;
        }
        has_type_object(self.added.objects.items(), &self.added.path, &defined.name)
    }

    fn all_defined(&self, types: &[Defined]) -> bool
        ensures { result ≡ true → Each (DefinedKept self.now.world.now self.now.added.now) types.now }
    {
        for defined in types {
            if !self.is_defined(defined) {
                return false;
            }
        }
        true
    }
}

fn is_bare(defined: &Defined) -> bool
    ensures { result ≡ true → bars_methods (out-Term defined.now.underlying) ≡ true → defined.now.methods ≡ [] }
{
    if !bars_methods(&defined.underlying) {
        return true;
    }
    defined.methods.items().is_empty()
}

fn is_shaped(defined: &Defined) -> bool
    ensures { result ≡ true → IsShaped defined.now }
{
    if !is_structured(&defined.underlying) {
        return false;
    }
    if !is_bare(defined) {
        return false;
    }
    let methods = defined.methods.items();
    if !are_ordered(methods) {
        return false;
    }
    are_apart(methods, fields(&defined.underlying))
}

impl Admission<'_> {
    fn is_met(&self) -> bool
        ensures { result ≡ true → IsAdmitted self.now.world.now self.now.added.now }
    {
        if !ascend(self.added.objects.items()) {
            return false;
        }
        if !ascend(self.added.defined.items()) {
            return false;
        }
        if !self.objects(self.added.objects.items()) {
            return false;
        }
        self.all_defined(self.added.defined.items())
    }
}

fn is_pathed(added: &Package) -> bool
    ensures { result ≡ true → (added.now.path ≢ []) × (added.now.path ≢ client_path) }
{
    let path = added.path.bytes();
    !path.is_empty() && path != b"-client".as_slice()
}

fn is_new(world: &World, added: &Package) -> bool
    ensures { result ≡ true → Has (map path_of world.now.packages) added.now.path → ⊥ }
{
    match world.package(added.path.bytes()) {
        Some(_) => false,
        None => true,
    }
}

/// Whether a world may take a package, so that it stays a world.
pub fn admits(world: &World, added: &Package) -> bool
    ensures { result ≡ true → (public : Bool) → IsWorld (with_package world.now added.now public) }
{
    if !is_pathed(added) {
        return false;
    }
    if !is_new(world, added) {
        return false;
    }
    let _packages = world.packages();
    Admission { world, added }.is_met()
}
