//! Values of constants, and the kinds and classes of their types.
pub mod class;
pub mod value;
