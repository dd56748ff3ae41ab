//! The names in a declaration that are keys of struct literals, as a set.
ghost use Rattle.std.specs.Prelude.{◌≡◌, IfOk, OnOk};
ghost use Rattle.go_base.specs.Growing.{Grows};
ghost use Rattle.go_declarations.specs.Forms.{form_of};
ghost use Rattle.go_leads.specs.inner.Some.{SomeIn};
ghost use Rattle.go_rules.specs.Scopes.{env_of};
ghost use Rattle.go_declaration_graph.specs.inner.FieldKeys.{AreFieldKeys, IsKeyOf, KeysField, is_among, key_of};

use go_base::memory::NoMemory;
use go_base::text::Text;
use go_declarations::form::Form;
use go_leads::keys::field_keys as keys_in;
use go_nodes::declarations::trees_of;
use go_nodes::tree::Tree;
use go_rules::env::Env;
use go_syntax::name::Name;
use std::alloc::Global;
use std::collections::BTreeSet;

/// A name that is a key of a struct literal, by its place and its text.
#[derive(PartialEq, Eq, PartialOrd, Ord, Drop)]
pub(crate) struct FieldKey {
    pub place: u32,
    pub text: Text,
}

fn key_of(name: &Name) -> Result<FieldKey, NoMemory>
    ensures { IfOk result (λ k. k ≡ key_of name.now) }
{
    Ok(FieldKey {
        place: name.place,
        text: name.text.copy()?,
    })
}

fn add(alloc: Global, keys: &mut BTreeSet<FieldKey>, name: &Name) -> Result<(), NoMemory>
    ensures { OnOk result (Grows (λ k. key_of name.now ≡ k) keys.old.keys keys.new.keys) }
{
    let key = key_of(name)?;
    keys.insert(key)?;
    Ok(())
}

fn add_all(alloc: Global, keys: &mut BTreeSet<FieldKey>, names: &[&Name]) -> Result<(), NoMemory>
    ensures { OnOk result (Grows (SomeIn IsKeyOf names.now) keys.old.keys keys.new.keys) }
{
    for name in names {
        add(alloc, keys, *name)?;
    }
    Ok(())
}

// Adds the names that are keys of struct literals in a tree.
fn add_in(
    env: &Env<'_>,
    alloc: Global,
    tree: Tree<'_>,
    keys: &mut BTreeSet<FieldKey>,
) -> Result<(), NoMemory>
    ensures { OnOk result (Grows (KeysField (env_of env.now) tree.entry) keys.old.keys keys.new.keys) }
{
    let names = keys_in(env, alloc, tree)?;
    add_all(alloc, keys, names.items())
}

// The same of each of these trees.
fn add_in_each(
    env: &Env<'_>,
    alloc: Global,
    trees: &[Tree<'_>],
    keys: &mut BTreeSet<FieldKey>,
) -> Result<(), NoMemory>
    ensures { OnOk result (Grows (SomeIn (KeysField (env_of env.now)) trees.now) keys.old.keys keys.new.keys) }
{
    for tree in trees {
        add_in(env, alloc, *tree, keys)?;
    }
    Ok(())
}

/// The names in a declaration that are keys of struct literals.
pub(crate) fn field_keys(
    env: &Env<'_>,
    alloc: Global,
    form: Form<'_>,
) -> Result<BTreeSet<FieldKey>, NoMemory>
    ensures { IfOk result (λ keys. AreFieldKeys (env_of env.now) (form_of form.entry) keys.keys) }
{
    let mut keys = BTreeSet::new(alloc);
    let each = trees_of(alloc, form)?;
    add_in_each(env, alloc, each.items(), &mut keys)?;
    Ok(keys)
}

/// Whether a name is among these keys.
pub(crate) fn is_among(name: &Name, keys: &BTreeSet<FieldKey>) -> Result<bool, NoMemory>
    ensures { IfOk result (λ b. b ≡ is_among name.now keys.now.keys) }
{
    let key = key_of(name)?;
    Ok(keys.contains(&key))
}
