//! Kernels that move items to other places, or leave items out (Blelloch, Vector Models for Data-Parallel Computing,
//! 1990): permute, back permute, gather and pack. Each gives its plain definition for every length and every segment list, and
//! raises a meter by one.
//!
//! They take an execution policy first, then the allocator or a vector for the result, then the meter. What they ask of an
//! index is what `is_permutation`, `in_range` and `are_places` answer, word for word.
#![tactic(auto)]

mod back_permute;
mod conditions;
mod gather;
mod joined;
pub mod laws;
mod pack;
mod permute;
mod permute_whole;

pub use back_permute::{back_permute_b, back_permute_z};
pub use conditions::{
    are_places_by, in_range, in_range_by, is_permutation, is_permutation_by, is_whole_permutation,
    is_whole_permutation_by,
};
pub use gather::{gather_b, gather_z};
pub use joined::back_permute::BackPermute;
pub use joined::gather::Gather;
pub use joined::pack::{Pack, PackSegments};
pub use joined::packed_lengths::PackLengths;
pub use joined::permute::Permute;
pub use joined::permute_whole::PermuteWhole;
pub use pack::{pack_b, pack_z, packed_lengths};
pub use permute::{permute_b, permute_z};
pub use permute_whole::{permute_whole_b, permute_whole_z};
pub use scan_kernels::are_places;
