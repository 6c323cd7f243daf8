use crate::open_block::OpenBlock;
use vector_memory::Edition;

/// Where a script stands between two lines.
#[derive(Drop)]
pub enum Progress {
    /// No line was gone through.
    AtStart,
    /// Outside a block of a script of this edition.
    Outside(Edition),
    /// In a block.
    Inside(OpenBlock),
}
