use cvl_text::{Call, Reply};

/// What a caller asks for at once.
#[derive(Debug, Drop)]
pub enum Job {
    /// A single call.
    One(Call),
    /// A block: 1 to `BLOCK_LIMIT` calls that take effect together.
    Many(Vec<Call>),
}

/// A job that a caller asks for.
#[derive(Debug, Drop)]
pub struct Request {
    /// The number of the caller, from 0.
    pub caller: u64,
    pub job: Job,
}

/// What became of a request.
#[derive(Debug, Drop)]
pub enum Outcome {
    /// The call stands in the history at this place, counted from 0, and has this reply.
    Answered { place: u64, reply: Reply },
    /// Memory was wanted: the call came back, and stands in no history.
    Refused(Call),
    /// The calls of the block stand next to one another in the history from this place on, counted from 0, and have these replies.
    AnsweredBlock { place: u64, replies: Vec<Reply> },
    /// Memory was wanted: the block came back, and none of its calls stands in a history.
    RefusedBlock(Vec<Call>),
}
