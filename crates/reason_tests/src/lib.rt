//! Tests of reasons: the texts that they have, line by line. They stand above the library, so that it is proved once.
#![tactic(auto)]

#[cfg(test)]
mod lines;
#[cfg(test)]
mod telling;
