//! Equal copies of types and packages.
ghost use Rattle.std.specs.Prelude.{◌≡◌, IfOk};

use crate::types::names::{Sel, TypeName};
use crate::types::package::{ConstTerm, Defined, Entity, MethodOf, Object, Package};
use crate::types::term::{Signature, Term};
use go_base::list::List;
use go_base::memory::NoMemory;
use go_base::shared::Shared;
use go_base::text::Text;
use std::alloc::Global;

fn copy_text(text: &Text) -> Result<Text, NoMemory>
    ensures { IfOk result (λ copied. copied ≡ text.now) }
{
    text.copy()
}

impl TypeName {
    /// An equal name.
    pub fn copy(&self, alloc: Global) -> Result<TypeName, NoMemory>
        ensures { IfOk result (λ copied. copied ≡ self.now) }
    {
        Ok(TypeName {
            path: copy_text(&self.path)?,
            name: copy_text(&self.name)?,
        })
    }
}

impl Sel {
    /// An equal selector.
    pub fn copy(&self, alloc: Global) -> Result<Sel, NoMemory>
        ensures { IfOk result (λ copied. copied ≡ self.now) }
    {
        Ok(Sel {
            name: copy_text(&self.name)?,
            package: copy_text(&self.package)?,
        })
    }
}

impl Term {
    /// An identical type. What it is made of is shared.
    pub fn copy(&self, alloc: Global) -> Result<Term, NoMemory>
        ensures { IfOk result (λ copied. copied ≡ self.now) }
    {
        match self {
            Term::Plain(basic) => Ok(Term::Plain(*basic)),
            Term::Named(name) => Ok(Term::Named(name.copy(alloc)?)),
            Term::Pointer(base) => Ok(Term::Pointer(base.share()?)),
            Term::Slice(element) => Ok(Term::Slice(element.share()?)),
            Term::Array(length, element) => Ok(Term::Array(*length, element.share()?)),
            Term::Map(key, element) => Ok(Term::Map(key.share()?, element.share()?)),
            Term::Chan(direction, element) => Ok(Term::Chan(*direction, element.share()?)),
            Term::Func(signature) => Ok(Term::Func(signature.copy(alloc)?)),
            Term::Struct(fields) => Ok(Term::Struct(fields.share()?)),
            Term::Interface(methods) => Ok(Term::Interface(methods.share()?)),
        }
    }
}

impl Signature {
    /// An identical signature, of the same types.
    pub fn copy(&self, _alloc: Global) -> Result<Signature, NoMemory>
        ensures { IfOk result (λ copied. copied ≡ self.now) }
    {
        Ok(Signature {
            params: self.params.share()?,
            variadic: self.variadic,
            results: self.results.share()?,
        })
    }
}

impl ConstTerm {
    /// An equal type or kind.
    pub fn copy(&self, alloc: Global) -> Result<ConstTerm, NoMemory>
        ensures { IfOk result (λ copied. copied ≡ self.now) }
    {
        match self {
            ConstTerm::OfTerm(term) => Ok(ConstTerm::OfTerm(term.copy(alloc)?)),
            ConstTerm::OfKind(kind) => Ok(ConstTerm::OfKind(*kind)),
        }
    }
}

impl Entity {
    /// An equal entity.
    pub fn copy(&self, alloc: Global) -> Result<Entity, NoMemory>
        ensures { IfOk result (λ copied. copied ≡ self.now) }
    {
        match self {
            Entity::Const(term, value) => {
                Ok(Entity::Const(term.copy(alloc)?, value.copy(alloc)?))
            }
            Entity::Var(term) => Ok(Entity::Var(term.copy(alloc)?)),
            Entity::Function(signature) => Ok(Entity::Function(signature.copy(alloc)?)),
            Entity::TypeOf(term) => Ok(Entity::TypeOf(term.copy(alloc)?)),
        }
    }
}

fn copy_objects(alloc: Global, objects: &[Object]) -> Result<List<Object>, NoMemory>
    ensures { IfOk result (λ copied. copied ≡ objects.now) }
{
    let mut copied = List::with_room(alloc, objects.len())?;
    for object in objects {
        copied.push(Object {
            name: copy_text(&object.name)?,
            entity: object.entity.copy(alloc)?,
        })?;
    }
    Ok(copied)
}

fn copy_declared(alloc: Global, methods: &[MethodOf]) -> Result<List<MethodOf>, NoMemory>
    ensures { IfOk result (λ copied. copied ≡ methods.now) }
{
    let mut copied = List::with_room(alloc, methods.len())?;
    for method in methods {
        copied.push(MethodOf {
            sel: method.sel.copy(alloc)?,
            pointer: method.pointer,
            signature: method.signature.copy(alloc)?,
        })?;
    }
    Ok(copied)
}

impl Defined {
    /// An equal defined type.
    pub fn copy(&self, alloc: Global) -> Result<Defined, NoMemory>
        ensures { IfOk result (λ copied. copied ≡ self.now) }
    {
        Ok(Defined {
            name: copy_text(&self.name)?,
            underlying: self.underlying.copy(alloc)?,
            methods: copy_declared(alloc, self.methods.items())?,
        })
    }
}

fn copy_defined(alloc: Global, defined: &[Defined]) -> Result<List<Defined>, NoMemory>
    ensures { IfOk result (λ copied. copied ≡ defined.now) }
{
    let mut copied = List::with_room(alloc, defined.len())?;
    for one in defined {
        copied.push(one.copy(alloc)?)?;
    }
    Ok(copied)
}

impl Package {
    /// An equal package.
    pub fn copy(&self, alloc: Global) -> Result<Package, NoMemory>
        ensures { IfOk result (λ copied. copied ≡ self.now) }
    {
        Ok(Package {
            path: copy_text(&self.path)?,
            name: copy_text(&self.name)?,
            from_std: self.from_std,
            objects: Shared::new(alloc, copy_objects(alloc, self.objects.items())?)?,
            defined: Shared::new(alloc, copy_defined(alloc, self.defined.items())?)?,
        })
    }

    /// The same package, whose objects and defined types are shared: only path and name take memory.
    pub fn share(&self, alloc: Global) -> Result<Package, NoMemory>
        ensures { IfOk result (λ shared. shared ≡ self.now) }
    {
        Ok(Package {
            path: copy_text(&self.path)?,
            name: copy_text(&self.name)?,
            from_std: self.from_std,
            objects: self.objects.share()?,
            defined: self.defined.share()?,
        })
    }
}
