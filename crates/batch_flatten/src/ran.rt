/// How a batch was served.
#[derive(Clone, Copy, Debug, PartialEq, Eq)]
pub struct Ran {
    /// In so many waves. 0 comes only where no call ran.
    pub waves: u64,
    /// By so many kernel runs.
    pub kernels: u64,
    /// So many calls ran by themselves since memory was wanted where they were to be joined with others.
    pub singles: u64,
}

impl Ran {
    /// No call ran.
    pub const NOTHING: Ran = Ran {
        waves: 0,
        kernels: 0,
        singles: 0,
    };
}
