use call_history::Book;
use cvl_text::Reply;

/// What a run of several callers has come to.
#[derive(Drop)]
pub struct Settled {
    /// For each caller, in the order of their numbers, the replies to its calls.
    pub replies: Vec<Vec<Reply>>,
    /// The book that all calls have run on.
    pub book: Book,
}
