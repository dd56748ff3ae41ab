//! The types that predeclared names stand for.
ghost use Rattle.std.specs.Prelude.{◌≡◌, IfOk};
ghost use Rattle.go_rules.specs.Universe.{predeclared_type};

use go_base::list::List;
use go_base::memory::NoMemory;
use go_base::shared::Shared;
use go_base::text::Text;
use go_model::constants::value::Basic;
use go_model::types::names::TypeName;
use go_model::types::term::Term;
use go_rules::predeclared::Predeclared;
use std::alloc::Global;

/// The type that a predeclared name stands for; None where it stands for none.
pub fn predeclared_type(alloc: Global, name: Predeclared) -> Result<Option<Term>, NoMemory>
    ensures { IfOk result (λ term. term ≡ predeclared_type name) }
{
    let basic = match name {
        Predeclared::Any => {
            let methods = Shared::new(alloc, List::new(alloc))?;
            return Ok(Some(Term::Interface(methods)));
        }
        Predeclared::Error => {
            return Ok(Some(Term::Named(TypeName {
                path: Text::of(alloc, b"")?,
                name: Text::of(alloc, b"error")?,
            })));
        }
        Predeclared::Bool => Basic::Bool,
        Predeclared::Byte => Basic::Uint8,
        Predeclared::Complex64 => Basic::Complex64,
        Predeclared::Complex128 => Basic::Complex128,
        Predeclared::Float32 => Basic::Float32,
        Predeclared::Float64 => Basic::Float64,
        Predeclared::Int => Basic::Int,
        Predeclared::Int8 => Basic::Int8,
        Predeclared::Int16 => Basic::Int16,
        Predeclared::Int32 => Basic::Int32,
        Predeclared::Int64 => Basic::Int64,
        Predeclared::Rune => Basic::Int32,
        Predeclared::Str => Basic::Str,
        Predeclared::Uint => Basic::Uint,
        Predeclared::Uint8 => Basic::Uint8,
        Predeclared::Uint16 => Basic::Uint16,
        Predeclared::Uint32 => Basic::Uint32,
        Predeclared::Uint64 => Basic::Uint64,
        Predeclared::Uintptr => Basic::Uintptr,
        _ => return Ok(None),
    };
    Ok(Some(Term::Plain(basic)))
}
