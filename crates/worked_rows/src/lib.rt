//! Tests of the program as a whole that no table of scripts can hold, which are those of `worked_examples`: scripts that a
//! loop makes, bytes that no line may have, readers and writers that fail at each place, and worker threads with gates that
//! hold or stop them. They stand above the libraries, so that those are proved once.
#![tactic(auto)]

#[cfg(test)]
mod blocks;
#[cfg(test)]
mod failures;
#[cfg(test)]
mod gates;
#[cfg(test)]
mod lines;
#[cfg(test)]
mod notes;
#[cfg(test)]
mod odd_bytes;
#[cfg(test)]
mod program;
#[cfg(test)]
mod rows;
#[cfg(test)]
mod settled;
#[cfg(test)]
mod streams;
#[cfg(test)]
mod threads;
