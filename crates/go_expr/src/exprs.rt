//! The typing of expressions, over what types their parts.
use go_literals::values::Literals;

/// What types expressions, over what types their parts.
#[derive(Clone, Copy)]
pub(crate) struct Exprs<'a, F> {
    pub(crate) literals: Literals<'a, F>,
}
