//! The typing of operators and operands.
use go_type_terms::typing::Typing;

/// What types operators and operands, over what types their parts.
#[derive(Clone, Copy)]
pub struct Operations<'a, F> {
    pub typing: Typing<'a, F>,
}
