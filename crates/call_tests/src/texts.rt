mod call_words;
mod lines;
mod replies;

use std::process::Abort;
use vector_memory::Name;

fn name(rt: &impl Abort, text: &[u8]) -> Name {
    Name::read(text).expect(rt, "a name")
}
