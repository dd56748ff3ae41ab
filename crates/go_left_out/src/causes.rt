//! Why a declaration is beyond the profile.
ghost use Rattle.std.specs.Prelude.{◌≡◌, ◌<◌, ℕ, Bool, length, IfOk};
ghost use Rattle.go_declarations.specs.Forms.{form_of};
ghost use Rattle.go_declarations.specs.Listings.{declarations_of};
ghost use Rattle.go_exposed.specs.Causes.{HasToldCause, shown_names, first_name};
ghost use Rattle.go_exposed.specs.SkippedValues.{cause_of};
ghost use Rattle.go_left_out.specs.Told.{AreTold};
ghost use Rattle.go_left_out.specs.inner.Causes.{IsBy};
ghost use Rattle.go_sifting.specs.Graphs.{AreRows};
ghost use Rattle.go_soundness.specs.LostDeclarations.{Depends};
ghost use Rattle.go_typings.specs.Declarations.{declarations as all_declarations};
ghost use Rattle.go_typings.specs.PackageEnvironments.{Entries};
ghost use Rattle.go_typings.specs.Sources.{PackageSource, Setting};

use crate::told::Told;
use go_base::list::List;
use go_base::memory::NoMemory;
use go_base::text::Text;
use go_declarations::form::Form;
use go_declarations::listing::Declaration;
use go_exposed::skipped::Cause;
use go_graphs::flags::flag;
use go_graphs::rows::row;
use go_reach::least::least_other;
use go_syntax::name::Name;
use std::alloc::Global;

/// The names by which a declaration is shown: those that it declares, or a method's own.
pub(crate) fn shown_names<'a>(form: Form<'a>) -> &'a [Name]
    ensures { result.now ≡ shown_names (form_of form.entry) }
{
    match form {
        Form::Constants(constants) => constants.names,
        Form::Variables(spec) => spec.names.items(),
        Form::Alias(spec) => std::slice::from_ref(&spec.name),
        Form::Definition(spec) => std::slice::from_ref(&spec.name),
        Form::Function(func) => std::slice::from_ref(&func.name),
        Form::Method(_, func) => std::slice::from_ref(&func.name),
    }
}

fn first_name(alloc: Global, names: &[Name]) -> Result<Text, NoMemory>
    ensures { IfOk result (λ name. name ≡ first_name names.now) }
{
    match names.first() {
        Some(name) => name.text.copy(),
        None => Text::of(alloc, &[]),
    }
}

// The cause that is the declaration of this number.
fn by_other(
    alloc: Global,
    declarations: &[Declaration<'_>],
    other: usize,
) -> Result<Cause, NoMemory>
    ensures { IfOk result (IsBy (declarations_of declarations.now) other) }
{
    if other >= declarations.len() {
        return Err(NoMemory);
    }
    let name = first_name(alloc, shown_names(declarations[other].form))?;
    Ok(Cause::By(name))
}

/// Why the declaration of a number is beyond the profile. `NoMemory` may come at any time, and comes of one that isn't.
pub(crate) fn cause(
    alloc: Global,
    declarations: &[Declaration<'_>],
    depends: &[List<u32>],
    told: &Told,
    number: usize,
) -> Result<Cause, NoMemory>
    ensures { (s : Setting) (u : PackageSource) (a : Entries) (lost : ℕ → Bool) → all_declarations u ≡ declarations_of declarations.now → number < length declarations.now → AreRows s u a (Depends s u a) depends.now
        → AreTold s u a lost told.now → IfOk result (λ cause. HasToldCause s u a lost number (cause_of cause)) }
{
    let is_number = flag(&told.numbers, number);
    if is_number {
        return Ok(Cause::Number);
    }
    let is_inexact = flag(&told.inexact, number);
    if is_inexact {
        return Ok(Cause::ConstantType);
    }
    let is_missing = flag(&told.missing, number);
    if is_missing {
        return Ok(Cause::ImportNotFound);
    }
    let row = row(depends, number);
    match least_other(row, &told.beyond, number) {
        Some(other) => by_other(alloc, declarations, other),
        None => Err(NoMemory),
    }
}
