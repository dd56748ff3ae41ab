//! Worlds and questions about them, as lines have them: what the programs for conformance share that read types.
//!
//! A term is in prefix notation: a basic type, `error`, NAME, `pointer T`, `slice T`, `array:LENGTH T`,
//! `map KEY T`, `chan T`, `send T`, `receive T`, `func:PARAMETERS:RESULTS T..`, `variadic:PARAMETERS:RESULTS T..`,
//! `struct:FIELDS` and so many of `field:SELECTOR:TAG T` or `embedded:SELECTOR:TAG T`, `interface:METHODS` and
//! so many of `method:SELECTOR T`, where T is a function. A NAME is a path, a dot and a name. A SELECTOR
//! is a name, after a path and a dot where it isn't exported. A TAG is hexadecimal. Methods stand in
//! the order of their selectors, and single blanks part words.
//!
//! A constant is of a basic type, of NAME, or `untyped-int`, `untyped-rune`, `untyped-string` or `untyped-bool`. Its
//! value is a whole number in decimal digits, `true`, `false`, or `text:` and bytes in hexadecimal digits.
#![tactic(auto)]

pub mod admission;
pub mod basic;
pub mod constants;
pub mod objects;
mod order;
pub mod packages;
pub mod read;
pub mod refusal;
pub mod show;
