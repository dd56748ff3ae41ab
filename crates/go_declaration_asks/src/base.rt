//! What is told of a method's receiver.
use go_base::text::Text;

/// The defined type of the package for which a method is declared, and whether no other method of it has the name of
/// this one.
#[derive(Clone, Copy)]
pub struct Base<'a> {
    pub name: &'a Text,
    pub is_only: bool,
}
