//! The kernels as values, each for the parts that it takes.

mod compare;
mod convert;
mod distribute;
mod fills;
mod indices;
mod map;
mod reduce;
mod scan;
mod select;
mod whole_reduce;
mod whole_scan;

pub use convert::{Number, Truth};
pub use distribute::Distribute;
pub use fills::{Index, Repeat};
pub use indices::IndexSegments;
pub use reduce::{ReduceBoolSegments, ReduceIntSegments};
pub use scan::{ScanBoolSegments, ScanIntSegments};
pub use select::Select;
pub use whole_reduce::{reduce_whole_b_joined, reduce_whole_z_joined};
pub use whole_scan::{ScanBools, ScanInts};
