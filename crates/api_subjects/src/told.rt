//! What is broken, told.
ghost use Rattle.std.specs.Prelude.{◌≡◌, IfOk};
ghost use Rattle.api_subjects.specs.Rules.{rule_of};
ghost use Rattle.api_subjects.specs.Told.{IsTold};

use crate::broken::Broken;
use crate::rule::Rule;
use crate::subjects::subject;
use api_breaks::broken::{Break, Lost};
use go_base::memory::NoMemory;
use go_model::types::world::World;
use std::alloc::Global;

fn rule_of(lost: &Lost) -> Rule
    ensures { result ≡ rule_of lost.now }
{
    match lost {
        Lost::Package => Rule::Package,
        Lost::Name(_) => Rule::Name,
        Lost::Removed => Rule::Removed,
        Lost::Kind(_, _) => Rule::Kind,
        Lost::Constant(_, _, _) => Rule::Constant,
        Lost::Type(_, _) => Rule::TypeRule,
        Lost::Underlying(_, _) => Rule::Underlying,
        Lost::Field(_) => Rule::Fields,
        Lost::Selectable(_) => Rule::Selectable,
        Lost::Comparable => Rule::Comparable,
        Lost::Sealing => Rule::InterfaceMethods,
        Lost::InterfaceMethod(_) => Rule::InterfaceMethods,
        Lost::Method(_) => Rule::MethodSet,
        Lost::Implements(_) => Rule::Implements,
        Lost::OneToOne(_, _) => Rule::OneToOne,
    }
}

/// What is broken where `new` takes the place of `old`, as reports tell it.
pub fn told(alloc: Global, old: &World, new: &World, broken: &Break) -> Result<Broken, NoMemory>
    ensures { IfOk result (IsTold old.now new.now broken.now) }
{
    let owner = broken.owner.copy()?;
    let subject = subject(alloc, old, new, &broken.lost)?;
    Ok(Broken {
        owner,
        rule: rule_of(&broken.lost),
        subject,
    })
}
