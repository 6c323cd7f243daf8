//! Each public kernel and test of indices on small vectors, with the count of runs.

mod chunks;
mod indices;
mod joined;
mod kept;
mod moves;
mod packs;
mod tests;
