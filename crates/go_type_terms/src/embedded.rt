//! Types that an interface embeds.
ghost use Rattle.std.specs.Prelude.{◌≡◌, ◌⊎◌, true, OnOk};
ghost use Rattle.go_base.specs.Lists.{Has as In};
ghost use Rattle.go_model.specs.declared.types.names.TypeName.{TypeName};
ghost use Rattle.go_model.specs.declared.types.term.Term.{Term-F, out-Term};
ghost use Rattle.go_type_terms.specs.inner.Gathered.{Among};

use go_base::memory::NoMemory;
use go_model::types::names::TypeName;
use go_model::types::term::Term;
use std::alloc::Global;
use std::collections::BTreeSet;

fn has(names: &BTreeSet<TypeName>, name: &TypeName) -> bool
    ensures { result ≡ true → In names.now.keys name.now }
{
    names.contains(name)
}

fn put(names: &mut BTreeSet<TypeName>, name: TypeName) -> Result<(), NoMemory>
    ensures { OnOk result ((n : TypeName) → In names.new.keys n → (name ≡ n) ⊎ In names.old.keys n) }
{
    let _added = names.insert(name)?;
    Ok(())
}

/// Whether a type has one of these names.
pub(crate) fn is_among(names: &BTreeSet<TypeName>, term: &Term) -> bool
    ensures { result ≡ true → Among names.now.keys (out-Term term.now) }
{
    match term {
        Term::Named(name) => has(names, name),
        _ => false,
    }
}

/// Adds a type's name, where it has one.
pub(crate) fn add(
    alloc: Global,
    names: &mut BTreeSet<TypeName>,
    term: &Term,
) -> Result<(), NoMemory>
    ensures { OnOk result ((n : TypeName) → In names.new.keys n → (out-Term term.now ≡ Term-F.Named n) ⊎ In names.old.keys n) }
{
    match term {
        Term::Named(name) => put(names, name.copy(alloc)?),
        _ => Ok(()),
    }
}
