//! Tests of segment lists, kernels and tests of indices on small vectors, with ample memory. They stand above the libraries, so
//! that those are proved once.
#![tactic(auto)]

#[cfg(test)]
mod by_chunks;
#[cfg(test)]
mod cut;
#[cfg(test)]
mod joined_parts;
#[cfg(test)]
mod kernels;
#[cfg(test)]
mod made;
#[cfg(test)]
mod permutes;
#[cfg(test)]
mod refused;
#[cfg(test)]
mod segments;
