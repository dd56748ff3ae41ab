//! What no archive of the program `cases` can say.
mod doubles;
mod held;
mod host;
mod runs;
mod store;
mod stores;
mod values;
mod workers;
