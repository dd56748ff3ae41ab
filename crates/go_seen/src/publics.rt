//! Which packages are public.
ghost use Rattle.std.specs.Prelude.{◌≡◌};
ghost use Rattle.std.specs.List.{list_all, slice_split};
ghost use Rattle.go_sources.specs.UnitSources.{source_of};
ghost use Rattle.go_typings.specs.PackageWorlds.{is_public, is_public_element, is_slash};

use go_units::unit::Unit;

fn has_no_internal_element(path: &[u8]) -> bool
    ensures { result ≡ list_all is_public_element (slice_split is_slash path.now) }
{
    path.split(|b| *b == b'/')
        .all(|element| element != b"internal".as_slice())
}

/// Whether a package is of the module, isn't `main` and has no element `internal` in its path.
pub fn is_public(unit: &Unit) -> bool
    ensures { result ≡ is_public (source_of unit.now) }
{
    if unit.from_std || unit.name.bytes() == b"main".as_slice() {
        return false;
    }
    has_no_internal_element(unit.path.bytes())
}
