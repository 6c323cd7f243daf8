/// How the callers of a script are run.
#[derive(Clone, Copy)]
pub(crate) enum Mode {
    /// Line by line, on one book.
    Serial,
    /// In a thread for each caller, on one machine.
    Threads,
}
