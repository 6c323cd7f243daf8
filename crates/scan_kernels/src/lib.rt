//! Kernels over flat vectors, item by item or cut into segments (Blelloch, Vector Models for Data-Parallel Computing,
//! 1990): each gives its plain definition for every length and every segment list, and raises a meter by one.
//!
//! They take an execution policy first, then the allocator or a vector for the result, then the meter.
#![tactic(auto)]

mod carries;
mod choices;
mod chunks;
mod chunks_marked;
mod chunks_within;
mod compare;
mod conditions;
mod convert;
mod counted;
mod distribute;
mod edges;
mod execution;
mod fill;
mod fills;
mod fills_by_segments;
mod in_order;
mod in_threads;
mod in_turn;
pub mod index_tests;
mod indices;
pub mod joined;
mod joined_over;
mod joined_rows;
mod kernel;
pub mod laws;
mod lists;
mod map;
mod marks;
mod meter;
mod moves;
mod moves_by_segments;
mod overwrite;
mod packs;
mod packs_by_chunks;
mod pieces;
mod place;
mod placewise;
mod prefixes;
mod reduce;
mod reduced_parts;
mod reduction_sizes;
mod reductions;
mod reductions_by_chunks;
mod row;
mod row_lists;
mod rows;
mod scan;
mod scans_by_chunks;
mod scans_in_parts;
mod segmentwise;
mod select;
mod set_flags;
mod shelf;
mod singles;
mod source;
mod whole;

pub use chunks::{
    bools_by_chunks, gather_segments_size, gather_size, ints_by_chunks, overwrites_pay, pack_size,
    permute_size,
};
pub use compare::compare2;
pub use conditions::{divisors_ok, shifts_ok};
pub use convert::{number, truth};
pub use counted::Counted;
pub use distribute::{distribute_b, distribute_z};
pub use execution::{Execution, Sequential};
pub use indices::index;
pub use item_operations::{B1, B2, Cmp, Combine, ScanB, ScanZ, Z1, Z2};
pub use joined_over::run_joined_ints_over;
pub use joined_rows::{BoolKernel, IntKernel, run_joined_bools, run_joined_ints};
pub use kernel::{JoinedKernel, Kernel, run_joined, run_parts};
pub use lists::{
    AlteredBools, AlteredInts, AppliedBools, AppliedInts, Compared, Numbers, Selected, Truths,
};
pub use map::{map1_b, map1_z, map2_b, map2_z};
pub use meter::{DEFAULT_CHUNK, Meter};
pub use moves::{Gathered, Permuted};
pub use moves_by_segments::{GatheredSegments, PermutedSegments};
pub use overwrite::{map1_z_over, map2_z_over_first, map2_z_over_second, scan_whole_z_over};
pub use packs::{PACK_BLOCK, PackedWhole, packed};
pub use packs_by_chunks::{packed_bools_by_chunks, packed_ints_by_chunks};
pub use pieces::ints_by_pieces;
pub use place::{are_places, is_place, place_of};
pub use reduce::{reduce_b, reduce_z};
pub use reduction_sizes::segments_size;
pub use reductions::{ReducedBools, ReducedInts};
pub use rows::{BoolRow, IntRow};
pub use scan::{scan_b, scan_z};
pub use select::{select_b, select_z};
pub use set_flags::{SetNumbers, number_set, set_numbers};
pub use shelf::Shelf;
pub use source::{Kept, Source};
pub use whole::{
    index_whole, reduce_whole_b, reduce_whole_z, repeat_b, repeat_z, scan_whole_b, scan_whole_z,
};
