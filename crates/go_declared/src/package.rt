//! What a package declares.
use crate::methods::DeclaredMethods;
use crate::names::DeclaredNames;
use go_declarations::listing::Declaration;

/// The declarations of a package, with the tables of where they declare names and of which methods they declare.
#[derive(Clone, Copy)]
pub struct PackageTables<'a> {
    pub declarations: &'a [Declaration<'a>],
    pub names: &'a DeclaredNames,
    pub methods: &'a DeclaredMethods,
}
