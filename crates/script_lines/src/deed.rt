use cvl_text::Call;
use vector_memory::Edition;

/// What is to be done at a line.
#[derive(Drop)]
pub(crate) enum Deed<'a> {
    Nothing,
    /// A new book is made, of edition 2.
    Renews,
    /// The caller of this number asks for the call that a text says in an edition. It is not read yet, and the line is bad if
    /// the text says none.
    Asks(Edition, u64, &'a [u8]),
    /// The block of the caller of this number is done.
    Closes(u64, Vec<Call>),
}
