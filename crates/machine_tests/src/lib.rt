//! Tests of the shared machine with ample memory, by one thread and by several, of what a step of its table tells one thread, and of
//! blocks: of changes in a memory, of calls on a book, and of calls on the machine. They stand above the libraries, so that those are
//! proved once.
#![tactic(auto)]

#[cfg(test)]
mod alone;
#[cfg(test)]
mod asking;
#[cfg(test)]
mod at_once;
#[cfg(test)]
mod batches;
#[cfg(test)]
mod blocks;
#[cfg(test)]
mod no_wait;
#[cfg(test)]
mod pair;
#[cfg(test)]
mod refused;
#[cfg(test)]
mod seats;
#[cfg(test)]
mod table;
#[cfg(test)]
mod vanished;
