//! Worlds, which the program `relations` can't be given, and copies of packages.
#![tactic(auto)]

#[cfg(test)]
mod copies;
#[cfg(test)]
mod terms;
#[cfg(test)]
mod worlds;
