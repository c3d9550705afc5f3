//! Tests of what no clause says: texts of errors, streams that failed before, and, with ample memory, sets of losses, a book
//! with a limit, sessions, and scripts on threads.
#![tactic(auto)]

#[cfg(test)]
mod book;
#[cfg(test)]
mod close;
#[cfg(test)]
mod code;
#[cfg(test)]
mod errors;
#[cfg(test)]
mod expect;
#[cfg(test)]
mod runs;
#[cfg(test)]
mod sessions;
#[cfg(test)]
mod streams;
