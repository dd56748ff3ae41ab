//! The list of what is left out of a package.
ghost use Rattle.std.specs.Prelude.{◌≡◌, ◌<◌, ◌++◌, ◌∷◌, [], ℕ, Bool, true, false, length, IfOk, OnOk};
ghost use Rattle.go_declarations.specs.Listings.{declarations_of};
ghost use Rattle.go_exposed.specs.Causes.{HasToldCause};
ghost use Rattle.go_exposed.specs.KeptDeclarations.{not_lost};
ghost use Rattle.go_exposed.specs.SkippedDeclarations.{IsSkippedOf};
ghost use Rattle.go_exposed.specs.SkippedValues.{all_skipped, cause_of};
ghost use Rattle.go_exposed.specs.declared.skipped.Skipped.{Skipped as Shown};
ghost use Rattle.go_left_out.specs.inner.Shown.{IsShown};
ghost use Rattle.go_graphs.specs.Flags.{is_flagged};
ghost use Rattle.go_left_out.specs.Told.{AreTold};
ghost use Rattle.go_rules.specs.Asks.{texts};
ghost use Rattle.go_sifting.specs.Graphs.{AreRows};
ghost use Rattle.go_soundness.specs.Apart.{IsApart};
ghost use Rattle.go_soundness.specs.LostDeclarations.{Depends};
ghost use Rattle.go_soundness.specs.Settled.{AreAll, AreSifted};
ghost use Rattle.go_typings.specs.Declarations.{declarations as all_declarations};
ghost use Rattle.go_typings.specs.PackageEnvironments.{Entries};
ghost use Rattle.go_typings.specs.Sources.{PackageSource, Setting};

use crate::causes::{cause, shown_names};
use crate::places::place_of;
use crate::told::Told;
use go_base::list::List;
use go_base::memory::NoMemory;
use go_base::text::Text;
use go_declarations::listing::Declaration;
use go_exposed::laws::cause_of_sieve;
use go_exposed::skipped::Skipped;
use go_graphs::flags::flag;
use go_syntax::name::Name;
use std::alloc::Global;

fn copied(alloc: Global, names: &[Name]) -> Result<List<Text>, NoMemory>
    ensures { IfOk result (λ copied. copied ≡ texts names.now) }
{
    let mut copied = List::new(alloc);
    for name in names {
        copied.push(name.text.copy()?)?;
    }
    Ok(copied)
}

// What is left out, of the declaration of a number.
fn skipped_at(
    alloc: Global,
    declarations: &[Declaration<'_>],
    depends: &[List<u32>],
    told: &Told,
    number: usize,
) -> Result<Skipped, NoMemory>
    requires { number < length declarations.now }
    ensures names { IfOk result (λ x. IsShown (declarations_of declarations.now) number x) }
    ensures cause { (s : Setting) (u : PackageSource) (a : Entries) (lost : ℕ → Bool) → all_declarations u ≡ declarations_of declarations.now → AreRows s u a (Depends s u a) depends.now
        → AreTold s u a lost told.now → IfOk result (λ x. HasToldCause s u a lost number (cause_of x.cause)) }
{
    let declaration = &declarations[number];
    let names = copied(alloc, shown_names(declaration.form))?;
    let cause = cause(alloc, declarations, depends, told, number)?;
    Ok(Skipped {
        place: place_of(declaration),
        names,
        cause,
    })
}

// Adds what is left out, of the declaration of a number, where it is lost.
fn push_at(
    skipped: &mut List<Skipped>,
    alloc: Global,
    declarations: &[Declaration<'_>],
    depends: &[List<u32>],
    lost: &[bool],
    told: &Told,
    number: usize,
) -> Result<(), NoMemory>
    requires { number < length declarations.now }
    ensures kept { is_flagged lost.now number ≡ false → OnOk result (skipped.new ≡ skipped.old) }
    ensures more { (s : Setting) (u : PackageSource) (a : Entries) → all_declarations u ≡ declarations_of declarations.now → AreRows s u a (Depends s u a) depends.now
        → AreTold s u a (is_flagged lost.now) told.now → is_flagged lost.now number ≡ true
        → OnOk result ((x : Shown) × (skipped.new ≡ skipped.old ++ x ∷ []) × IsShown (declarations_of declarations.now) number x × HasToldCause s u a (is_flagged lost.now) number (cause_of x.cause)) }
{
    let is_lost = flag(lost, number);
    if !is_lost {
        return Ok(());
    }
    let one = skipped_at(alloc, declarations, depends, told, number)?;
    skipped.push(one)?;
    Ok(())
}

/// What is left out of a package, in order: of the declarations that are lost where they stand, their names and causes.
pub fn skipped(
    alloc: Global,
    declarations: &[Declaration<'_>],
    depends: &[List<u32>],
    lost: &[bool],
    told: &Told,
) -> Result<List<Skipped>, NoMemory>
    ensures { (s : Setting) (u : PackageSource) (a : Entries) → all_declarations u ≡ declarations_of declarations.now → IsApart s u → AreAll s u a → AreSifted s u a (is_flagged lost.now) → AreRows s u a (Depends s u a) depends.now
        → AreTold s u a (is_flagged lost.now) told.now → IfOk result (λ xs. IsSkippedOf s u (not_lost u (is_flagged lost.now)) (all_skipped xs)) }
{
    cause_of_sieve();
    let mut skipped = List::new(alloc);
    for number in 0..declarations.len() {
        push_at(
            &mut skipped,
            alloc,
            declarations,
            depends,
            lost,
            told,
            number,
        )?;
    }
    Ok(skipped)
}
