//! The kernels on operands that lie in parts, as those of alike calls do: one run over the joined parts, whose result lies in
//! parts as well, each in a vector of its own. Nothing is copied that a kernel by itself does not copy.

pub mod back_permute;
pub mod gather;
pub mod pack;
pub mod packed_lengths;
pub mod permute;
pub mod permute_whole;
