//! Blocks: of changes in a memory, of calls on a book, and of calls on the shared machine.

mod bank;
mod books;
mod by_policy;
mod machines;
mod memories;
mod refused;
