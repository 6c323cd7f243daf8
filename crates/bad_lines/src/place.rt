use vector_memory::Edition;

/// Where a line stands: what the lines before it have left.
#[derive(Clone, Copy, Debug, PartialEq, Eq)]
pub enum Place {
    /// The first line, which may be the head of a script of edition 2.
    First,
    /// Outside a block of a script of this edition.
    Outside(Edition),
    /// In a block of this caller, with so many calls so far.
    Inside { caller: u64, calls: usize },
}
