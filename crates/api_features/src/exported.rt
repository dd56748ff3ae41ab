//! Selectors that are exported.
ghost use Rattle.std.specs.Prelude.{Decides};
ghost use Rattle.api_features.specs.Features.{IsExported};

use go_model::types::names::Sel;

/// Whether a field or method is exported.
pub(crate) fn is_exported(sel: &Sel) -> bool
    ensures { Decides result (IsExported sel.now) }
{
    sel.package.bytes().is_empty()
}
