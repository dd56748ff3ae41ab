//! Selectors of methods.
ghost use Rattle.std.specs.Prelude.{◌≡◌};
ghost use Rattle.go_model.specs.types.Tables.{entry_of};
ghost use Rattle.go_model.specs.types.Underlying.{methods_of_entry};
ghost use Rattle.go_rules.specs.Environments.{is_among};
ghost use Rattle.go_rules.specs.Scopes.{is_had, lacking};

use crate::awaited::Awaited;
use crate::defined_row::DefinedRow;
use go_model::types::names::Sel;

/// Whether a selector is among those that are known, and no method of the type has it.
#[tactic(auto, using(crate::proofs::Lacking::among_lacking))]
pub(crate) fn is_lacking(known: &Awaited, defined: Option<&DefinedRow>, sel: &Sel) -> bool
    ensures { result ≡ is_among sel.now (lacking known.now (methods_of_entry (entry_of defined.entry))) }
{
    known.has(sel) && !is_had(defined, sel)
}

fn is_had(defined: Option<&DefinedRow>, sel: &Sel) -> bool
    ensures { result ≡ is_had sel.now (methods_of_entry (entry_of defined.entry)) }
{
    match defined {
        Some(row) => row.has(sel),
        None => false,
    }
}
