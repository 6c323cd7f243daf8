/// What became of the call or of the block that was left.
#[derive(Clone, Copy, Debug, PartialEq, Eq)]
pub enum Told {
    /// Nothing was left.
    Idle,
    /// Nothing yet.
    Waiting,
    /// The call was answered. Place and reply lie in the port.
    Answered,
    /// The block was answered. The place of its first call and the replies lie in the port.
    AnsweredBlock,
    /// Memory was wanted: the call, or each call of the block, stands in no history, and nothing is left.
    OutOfMemory,
}
