//! The checks of each shape of call. Each function is inlined: out of line it would have a place for its answer in the frame
//! of `judge`, and all these places are cleared at each call.

pub(crate) mod elementwise;
pub(crate) mod moves;
pub(crate) mod packs;
pub(crate) mod places;
pub(crate) mod scans;
pub(crate) mod setting;
pub(crate) mod spreads;
pub(crate) mod values;
