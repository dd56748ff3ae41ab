//! Numbers drawn from a seed for a package.
ghost use Rattle.std.specs.Prelude.{◌≡◌, ◌<◌};
ghost use Rattle.api_generator.specs.MadeTrees.{draw, imported};

/// A number below 1,000,003 for a package, drawn for a purpose.
pub(crate) fn draw(seed: u64, number: u64, purpose: u64) -> u64
    requires few { number < 2000 }
    requires known { purpose < 3 }
    ensures { result ≡ draw seed number purpose }
{
    (seed % 1_000_003 * 7919 + number * 104_729 + purpose * 1_299_709) % 1_000_003
}

/// The earlier package that a package imports.
pub(crate) fn imported(seed: u64, number: u64) -> u64
    requires some { 0 < number }
    requires few { number < 2000 }
    ensures { result ≡ imported seed number }
{
    draw(seed, number, 1) % number
}
