//! What no archive of the program `cases` can say: stores that tell nothing, the stores and sinks in memory
//! call by call, those of the host, and the values of go_base.
#![tactic(auto)]

#[cfg(test)]
mod tests;
