//! What stands in statements and has no statement lists itself: headers, guards, communications, lists of types, and the
//! statements of one keyword. It is read from tokens by recursive descent up to a height, with the bodies of function
//! literals skipped.
#![tactic(auto)]

pub mod communications;
pub mod guards;
pub mod headers;
pub mod lower;
pub mod type_lists;
pub mod words;
