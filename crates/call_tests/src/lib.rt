//! Tests of memories, texts, calls on one thread and books, with ample memory. They stand above the libraries, so that those
//! are proved once.
#![tactic(auto)]

#[cfg(test)]
mod books;
#[cfg(test)]
mod calls;
#[cfg(test)]
mod changing;
#[cfg(test)]
mod memories;
#[cfg(test)]
mod overwriting;
#[cfg(test)]
mod refused;
#[cfg(test)]
mod texts;
