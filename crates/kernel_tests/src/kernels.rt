//! Each public kernel on small vectors, with the count of runs.

mod chunks;
mod elementwise;
mod joined;
mod kept;
mod overwriting;
mod policies;
mod scans;
mod spreads;
