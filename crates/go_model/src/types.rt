//! Types and packages after typing, in the words of the Go specification.
pub mod borrowed;
pub mod bounds;
pub mod copy;
pub mod declared_method;
pub mod found;
pub mod keyed;
pub mod names;
pub mod package;
pub mod table;
pub mod term;
pub mod world;
