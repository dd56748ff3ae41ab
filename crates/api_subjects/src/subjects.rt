//! The subjects of what is broken.
ghost use Rattle.std.specs.Prelude.{◌≡◌, ◌++◌, IfOk, OnOk};
ghost use Rattle.api_subjects.specs.Subjects.{IsChange, IsConstantText, IsSubject, change_text, sel_text, sort_text};
ghost use Rattle.api_subjects.specs.TypeTexts.{IsTypeText};
ghost use Rattle.api_subjects.specs.inner.Appended.{Appends};

use crate::types::{push_name, push_type};
use api_breaks::broken::{Lost, Sort};
use api_features::constants::push_value;
use api_features::types::push_constant_type;
use go_base::memory::NoMemory;
use go_base::text::Text;
use go_model::types::names::Sel;
use go_model::types::package::Entity;
use go_model::types::term::Term;
use go_model::types::world::World;
use std::alloc::Global;

fn sort_text(sort: Sort) -> &'static [u8]
    ensures { result.now ≡ sort_text sort }
{
    match sort {
        Sort::Constant => b"const",
        Sort::Variable => b"var",
        Sort::Function => b"func",
        Sort::Type => b"type",
    }
}

fn sort_change(alloc: Global, before: Sort, after: Sort) -> Result<Text, NoMemory>
    ensures { IfOk result (λ text. text ≡ change_text (sort_text before) (sort_text after)) }
{
    let mut out = Vec::from_slice(alloc, sort_text(before))?;
    out.extend_from_slice(b" to ")?;
    out.extend_from_slice(sort_text(after))?;
    Text::from_vec(alloc, out)
}

// Appends a constant of the package of a path: its type or kind, and its value.
fn push_constant(
    out: &mut Vec<u8>,
    world: &World,
    path: &[u8],
    entity: &Entity,
) -> Result<(), NoMemory>
    ensures { OnOk result (Appends (IsConstantText world.now.packages path.now entity.now) out.old.items out.new.items) }
{
    match entity {
        Entity::Const(term, value) => {
            push_constant_type(out, term, world, path)?;
            out.push(b' ')?;
            push_value(out, value)?;
            Ok(())
        }
        Entity::Var(_) => Ok(()),
        Entity::Function(_) => Ok(()),
        Entity::TypeOf(_) => Ok(()),
    }
}

fn constant_change(
    alloc: Global,
    old: &World,
    new: &World,
    path: &[u8],
    before: &Entity,
    after: &Entity,
) -> Result<Text, NoMemory>
    ensures { IfOk result (IsChange (IsConstantText old.now.packages path.now before.now) (IsConstantText new.now.packages path.now after.now)) }
{
    let mut out = Vec::new(alloc);
    push_constant(&mut out, old, path, before)?;
    out.extend_from_slice(b" to ")?;
    push_constant(&mut out, new, path, after)?;
    Text::from_vec(alloc, out)
}

fn type_text(alloc: Global, term: &Term) -> Result<Text, NoMemory>
    ensures { IfOk result (IsTypeText term.now) }
{
    let mut out = Vec::new(alloc);
    push_type(&mut out, term)?;
    let text = Text::from_vec(alloc, out)?;
    Ok(text)
}

fn type_change(alloc: Global, before: &Term, after: &Term) -> Result<Text, NoMemory>
    ensures { IfOk result (IsChange (IsTypeText before.now) (IsTypeText after.now)) }
{
    let mut out = Vec::new(alloc);
    push_type(&mut out, before)?;
    out.extend_from_slice(b" to ")?;
    push_type(&mut out, after)?;
    let change = Text::from_vec(alloc, out)?;
    Ok(change)
}

// A method by its name, behind the path of its package where it isn't exported.
fn sel_text(alloc: Global, sel: &Sel) -> Result<Text, NoMemory>
    ensures { IfOk result (λ text. text ≡ sel_text sel.now) }
{
    let mut out = Vec::new(alloc);
    push_name(&mut out, sel.package.bytes(), sel.name.bytes())?;
    Text::from_vec(alloc, out)
}

/// The subject of what is lost where `new` takes the place of `old`.
pub(crate) fn subject(
    alloc: Global,
    old: &World,
    new: &World,
    lost: &Lost,
) -> Result<Text, NoMemory>
    ensures { IfOk result (IsSubject old.now new.now lost.now) }
{
    match lost {
        Lost::Package => Ok(Text::of(alloc, b"-")?),
        Lost::Name(name) => Ok(name.copy()?),
        Lost::Removed => Ok(Text::of(alloc, b"-")?),
        Lost::Kind(before, after) => sort_change(alloc, *before, *after),
        Lost::Constant(path, before, after) => {
            constant_change(alloc, old, new, path.bytes(), before, after)
        }
        Lost::Type(before, after) => type_change(alloc, before, after),
        Lost::Underlying(before, after) => type_change(alloc, before, after),
        Lost::Field(name) => Ok(name.copy()?),
        Lost::Selectable(name) => Ok(name.copy()?),
        Lost::Comparable => Ok(Text::of(alloc, b"-")?),
        Lost::Sealing => Ok(Text::of(alloc, b"unexported methods")?),
        Lost::InterfaceMethod(sel) => sel_text(alloc, sel),
        Lost::Method(sel) => sel_text(alloc, sel),
        Lost::Implements(interface) => type_text(alloc, interface),
        Lost::OneToOne(before, after) => type_change(alloc, before, after),
    }
}
